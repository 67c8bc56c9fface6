//! The CoE client of one slave: the mails that it sends for a service, and the reply that the mails it takes complete (ETG.1000.6, "CANopen
//! over EtherCAT"; CiA 301, "SDO protocol").
#![tactic(auto)]

mod client;
mod hearing;
mod sending;
mod state;

pub use client::CoeClient;
