//! The tables of a scenario's document, read in the order of the format, the keys of its top, and what is judged behind all its tables: the
//! plan, or its first refusal.
#![tactic(auto)]

mod document;
mod host;
mod judging;
mod losses;
mod top;

pub use document::tables;
pub use judging::whole;
