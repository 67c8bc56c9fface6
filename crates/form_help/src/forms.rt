//! The table of the forms.

/// The forms in the order in which they are listed: a line each, with the words behind the program's name, `|` and what it does.
pub const FORMS: &str = "\
run SCENARIO [CAPTURE]|run a segment and print the report; save every frame as a capture for Wireshark
explain [CODE]|say what a code means, as 06090031, S6 or foe 8008; alone, list all codes
decode CAPTURE|print a capture, a line for each packet, datagram and mail
audit CAPTURE|say whether the traffic in a capture obeys the rules of the mailboxes
serve SCENARIO COUNT|run a segment and answer COUNT mailbox requests that come by UDP to 127.0.0.1, port 34980
stream SCENARIO COUNT|the same for requests that come on a TCP connection to that port
get SCENARIO SLAVE WHAT [FILE]|read an entry, 2100:01 in hexadecimal, or a file, file:NAME, of a slave that is served; save the file
put SCENARIO SLAVE WHAT VALUE|write an entry by its type, as 1000, -5, 0x3e8, true, a text, hex:0b00, or a file from the file VALUE; once
ask STATION OUT IN DO ARGS|the same without a scenario, for scripts: upload INDEX SUB | download INDEX SUB OCTETS | read_file NAME | write_file NAME FILE
make SEED SIZE|print a scenario of 1 to 4096 services, the same each time
help [FORM]|print this, or the line of one form
version|print the version
";

/// What stands ahead of the list.
pub const HEAD: &str = "The mailbox half of EtherCAT, master side and slave side.\n\n";

/// What stands behind it.
pub const FOOT: &str =
    "\ndocs/FORMATS.md lists keys, codes and statuses; README.md says how to read a report.\n";

/// The program's version, and the versions of the scenario format that it reads.
pub const VERSION: &str = "ecmbx 1.1.0, scenario formats 1 and 2\n";

/// As many blanks as stand at most between the words of a form and its text.
pub const BLANKS: &[u8; 32] = b"                                ";
