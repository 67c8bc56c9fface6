//! The codes of the program itself: a line each, with the code, a blank and what it says.

/// The rules of a scenario file.
pub const RULES: &str = "\
S1 the file isn't TOML, or isn't UTF-8
S2 another version of the format than 1 and 2
S3 a key that has no default is missing
S4 a key that its table doesn't have
S5 a value of another kind, as a text where a number is wanted
S6 a value out of range, or a key that another key of its table excludes
S7 two slaves of one name
S8 two slaves of one station address
S9 a service for a slave that the file doesn't have
S10 a text that isn't octets: two hexadecimal digits for each, and nothing between them
S11 lost frames that don't rise, or one that is lost behind more slaves than there are
S12 a list over its limit, an object over 16000 octets, or a run of more than 100000000 frames
";

/// The faults of a capture file.
pub const FAULTS: &str = "\
P1 the file is shorter than a capture's header of 24 octets
P2 the file doesn't begin as a pcap capture (a pcapng file is none; save it as pcap)
P3 another version of pcap than 2.4
P4 the capture isn't of Ethernet (link type 1)
P5 a packet is cut off at that place: the capture ended in the middle of it
P6 a packet at that place says that it has more than 262144 octets
";

/// The rules of the mailboxes that a capture's traffic is held against.
pub const AUDIT_RULES: &str = "\
A1 a mail that the master wrote hasn't the length of its mailbox, or is no mail
A2 a mail was changed before it was known to be taken, or the next one hasn't the next counter
A3 a read or repeat request that the state of the slave's mailbox doesn't allow
A4 an answer with a working counter above 1, or a read mail whose counter is neither the last nor the next
A5 an access to a mailbox that isn't open
";

/// What the program ends with.
pub const STATUSES: &str = "\
0 done
1 refused: the scenario or the capture is faulty; check SCENARIO says where
2 usage: the words are none of the forms; help lists them
3 absent: there is no file of that name
4 too long: the file has more than 16777216 octets (of put: 131072)
5 file fault: the file can't be read or written
6 sink fault: the output takes no more
7 given up: a slave didn't answer for more frames in a row than retry allows
8 budget spent: as many frames as the budget allows were sent, and something was left to do
9 port fault: the network port can't be opened, or failed
10 out of memory
11 audit no: the capture's traffic breaks a rule
12 no answer: no reply came; a service that writes is in doubt
13 a service was refused (of show, get and put)
14 not judged: the capture leaves something in doubt (of inspect)
15 nothing to judge: no mail in the capture (of inspect)
";
