//! Which word may have been meant: the nearest of a list by the Levenshtein distance, and the question that asks for it.
#![tactic(auto)]

mod distances;
mod hint;

pub use distances::near;
pub use hint::add_hint;
