//! The master's side of EoE (ETG.1000.6, "EoE"): the address services with their replies, and packets as they go out in fragments.
#![tactic(auto)]

mod address;
mod packet;

pub use address::{AddressClient, Awaits, Unsent};
pub use packet::PacketSender;
