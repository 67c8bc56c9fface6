//! File access over EtherCAT (ETG.1000.6, "FoE"): the messages of the protocol and their octets. No call takes memory.
#![tactic(auto)]

mod message;
mod reading;
mod viewing;
mod writing;

pub use message::{Foe, FoeFault, Name};
pub use reading::read;
pub use viewing::{FoeView, view, view_of};
pub use writing::{write, write_view};
