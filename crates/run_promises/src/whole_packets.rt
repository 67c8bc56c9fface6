//! Each epoch of a serving sends whole packets. Definitions and a law, no running code: the function here does nothing, and its contract states the law.

ghost use Rattle.run_promises.specs.Laws.{PacketsAreLong, SlavesSendWhole};

/// EACH EPOCH OF A SLAVE SENDS WHOLE PACKETS, by whatever services and whatever mails that are passed on: what its carried out rows emit are, but for emergencies,
/// just all fragments of packets of 14 to 1,514 octets, in order; of what was heard of them the first of these packets are joined, each whole as it was sent, and
/// no fragment is dropped. So each packet that was joined has at least 14 octets.
pub fn whole_packets_law()
    ensures whole { SlavesSendWhole }
    ensures long { PacketsAreLong }
{}
