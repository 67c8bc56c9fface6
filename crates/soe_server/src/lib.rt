//! The SoE server of a slave: it joins the fragments of a write, works on the table of IDNs, and gives an element's octets in fragments
//! (ETG.1000.6, "SoE").
#![tactic(auto)]

mod giving;
mod law;
mod server;
mod state;
mod taking;

pub use law::calls_are_the_exchange;
pub use server::SoeServer;
