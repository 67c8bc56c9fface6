//! The services of one slave behind its mailboxes: a mail is served by its protocol over the slave's one application, and what answers it waits
//! to be offered; and a slave of a plan as it is switched on.
#![tactic(auto)]

mod giving;
mod law;
mod quiet;
mod server;
mod services;
mod spec;
mod taking;

pub use law::server_is_exchange;
pub use server::{Lengths, Protocols, SlaveServer};
pub use spec::{idns_of, node_of, objects_of, server_of, store_of};
