//! Values of another kind than their key wants, and what to write in their place.
#![tactic(auto)]

mod kinds;
mod numbers;
mod told;
mod tries;
mod widths;
mod wrong;

pub use kinds::{header_of, pair_of, wrong_kind};
pub use told::{Found, octets_text, told_text};
pub use widths::{number_octets, width_at};
pub use wrong::Wrong;
