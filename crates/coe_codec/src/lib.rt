//! The CoE messages: SDO services and their answers, SDO information and emergencies, read from
//! and written to the body of a mail (ETG.1000.6, "CANopen over EtherCAT"; CiA 301, "SDO protocol").
#![tactic(auto)]

mod fields;
mod message;
mod reading;
mod viewing;
mod writing;

pub use message::{Coe, CoeFault};
pub use reading::read;
pub use viewing::{CoeView, view, view_of};
pub use writing::{write, write_view};
