//! The master's side of FoE (ETG.1000.6, "File access over EtherCAT"): one service at a time, the mails that it sends for it, and the reply that
//! the mails it hears complete.
#![tactic(auto)]

mod client;
mod hearing;
mod sending;
mod state;

pub use client::FoeClient;
pub use state::{Awaits, Unsent};
