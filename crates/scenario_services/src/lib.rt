//! The services of a scenario: what each does by the word of its key `do`, and what its further keys say, read from their tables, or refused.
#![tactic(auto)]

mod actions;
mod bodies;
mod key;
mod reading;
mod sdo;

pub use reading::services;
