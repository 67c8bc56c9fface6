//! Values of the right kind that are out of range, and texts that are no octets, with what to write in their place.
#![tactic(auto)]

mod bounds;
mod contents;
mod digits;
mod lists;
mod names;
mod numbers;
mod octets;
mod ranges;
mod sizes;

pub use digits::wrong_digits;
pub use ranges::wrong_range;
