//! What is told of a scenario that can be run: its slaves, packets and lost frames, its frame bound, and what a run of it promises.
#![tactic(auto)]

mod losses;
mod numbers;
mod promise;
mod slaves;
mod summary;

pub use losses::{Row, longest_row};
pub use promise::{Promise, promise_of};
pub use summary::add_summary;
