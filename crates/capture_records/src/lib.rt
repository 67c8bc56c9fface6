//! The packets of pcap files: each in its place, with its time, to the file's end or the first fault.
#![tactic(auto)]

mod packet;
mod records;

pub use packet::{FileEnd, PacketAt};
pub use records::{Form, LONGEST, Records, read_form, read_records};
