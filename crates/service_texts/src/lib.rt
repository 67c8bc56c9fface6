//! Services and what they came to as people read them: with the names, types and sizes of a slave's plan, and the texts of codes.
#![tactic(auto)]

mod emergencies;
mod packets;
mod results;
mod services;
mod states;

pub use emergencies::add_emergency;
pub use packets::{add_gets, add_packet};
pub use results::{add_ended, add_result};
pub use services::add_service;
pub use states::add_state;
