//! Scenarios: the plan of a segment, read from TOML. What is read is the plan of the file, or the first refusal with its place.
#![tactic(auto)]

mod reading;

pub use reading::read;
pub use scenario_keys::{Place, ReadErr};
pub use segment_plan::{Scenario, bound};
