//! The client of a mailbox gateway (ETG.8200): it carries out one whole service of a slave by datagrams of one mail each.
#![tactic(auto)]

mod asking;
mod client;
mod course;
mod gram;
mod hearing;
mod reply;
mod sending;
mod talk;

pub use asking::{ToolEnd, ask};
pub use reply::Reply;
