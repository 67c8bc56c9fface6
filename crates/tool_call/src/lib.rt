//! A service of a slave over a mailbox gateway, from the words of the command line to the line that is put and the status.
#![tactic(auto)]

mod asked;
mod call;
mod lines;

pub use asked::{Act, Asked, Slave, asked_of, is_ask};
pub use call::ask_call;
