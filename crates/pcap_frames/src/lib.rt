//! Classic captures (the pcap file format 2.4) of Ethernet frames: read in both byte orders and both
//! resolutions, written little-endian with microseconds.
#![tactic(auto)]

mod capture;
mod laws;
mod order;
mod reading;
mod writing;

pub use capture::{Capture, PacketAt, PcapFault, Stamp};
pub use laws::written_law;
pub use reading::read;
pub use writing::{write_head, write_packet};
