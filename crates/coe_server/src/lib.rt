//! The CoE server of one slave: it takes a mail, does what it asks in the object dictionary, and gives its answers (ETG.1000.6, "CANopen over
//! EtherCAT"; CiA 301, "SDO protocol").
#![tactic(auto)]

mod dictionary;
mod giving;
mod information;
mod objects;
mod sdo;
mod server;
mod state;
mod taking;

pub use dictionary::{Dictionary, Question, Target};
pub use objects::{calls_are_the_exchange, objects_are_lawful, objects_are_spelled};
pub use server::CoeServer;
