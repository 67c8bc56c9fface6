//! A learning switch between the host, at port 0, and the slaves that serve EoE. No call but
//! [`Switch::new`] takes memory.
#![tactic(auto)]

mod addresses;
mod port;
mod queue;
mod switching;

pub use addresses::Learned;
pub use port::Port;
pub use switching::{Ports, Switch, SwitchEvent};
