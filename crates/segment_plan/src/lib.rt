//! The plan of a segment as data: its slaves, the services that are addressed to them, the packets of the host and the frames that are
//! lost; and how many frames a run of it may take.
#![tactic(auto)]

mod counts;
mod plan;
mod service;
mod slave;

pub use counts::{bound, smaller};
pub use plan::Scenario;
pub use service::Service;
pub use slave::{ObjectSpec, SlaveSpec};
