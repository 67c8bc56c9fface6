//! How the forms for people end: with a status of the program, or with that of a service that was refused.
#![tactic(auto)]

mod ended;
mod telling;

pub use ended::Ended;
pub use telling::tell;
