//! The SoE client of one slave: its mails for a service, and the reply that the mails which it hears complete (ETG.1000.6, "SoE").
#![tactic(auto)]

mod client;
mod hearing;
mod sending;
mod state;

pub use client::SoeClient;
