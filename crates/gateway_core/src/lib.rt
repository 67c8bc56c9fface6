//! The mailbox gateway (ETG.8200): datagrams that hold one mail each for a slave of the segment,
//! and whose reply goes to whom.
#![tactic(auto)]

mod asker;
mod framing;
mod gateway;

pub use asker::{Asked, Asker};
pub use framing::{GatewayFault, gateway_read, gateway_write};
pub use gateway::Gateway;
