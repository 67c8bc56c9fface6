//! A CoE client and a CoE server together, mail by mail: each service is carried out once, and means to the object dictionary what it means on
//! whole values (ETG.1000.6, "CANopen over EtherCAT"; CiA 301, "SDO protocol").
#![tactic(auto)]

mod carried;
mod dialogue;
mod mailbox;

pub use carried::{Carried, Emission};
pub use dialogue::carry_out;
pub use mailbox::{Mailbox, Mailboxes};
