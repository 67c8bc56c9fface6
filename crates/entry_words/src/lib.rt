//! The words of `get SCENARIO SLAVE WHAT [FILE]` and `put SCENARIO SLAVE WHAT VALUE`: which slave of a plan is meant, what of it, and the octets
//! that a value has by an entry's type.
#![tactic(auto)]

mod numbers;
mod slaves;
mod values;
mod what;

pub use numbers::number_word;
pub use slaves::{slave_of, station_of};
pub use values::{below, most, value_of};
pub use what::{What, what_of};
