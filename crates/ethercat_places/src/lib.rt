//! A packet's way to its EtherCAT frame: VLAN tags, EtherCAT in UDP, other traffic, and packets of which
//! not all octets were captured.
#![tactic(auto)]

mod frame;
mod place;

pub use frame::{Frame, Kind, read_frame};
pub use place::{Place, find};
