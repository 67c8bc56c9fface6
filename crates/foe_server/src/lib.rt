//! The FoE server of one slave: it takes a mail, does what it asks with the files of a store, and gives its answer (ETG.1000.6, "File access
//! over EtherCAT").
#![tactic(auto)]

mod giving;
mod laws;
mod server;
mod state;
mod taking;

pub use laws::{calls_are_the_exchange, store_files_are_lawful};
pub use server::FoeServer;
