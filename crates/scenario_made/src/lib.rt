//! The generator of scenarios: a text out of a seed and a size, the same each time.
#![tactic(auto)]

mod draws;
mod parts;
mod text;

pub use text::make;
