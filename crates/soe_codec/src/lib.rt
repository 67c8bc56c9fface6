//! The messages of the servo drive profile over EtherCAT, SoE: an IDN's elements, read and written in fragments (ETG.1000.6, "SoE"). No call
//! takes memory.
#![tactic(auto)]

mod message;
mod reading;
mod viewing;
mod writing;

pub use message::{READ, READ_ANSWER, Soe, SoeFault, WRITE, WRITE_ANSWER};
pub use reading::read;
pub use viewing::{SoeView, view, view_of};
pub use writing::{write, write_view};
