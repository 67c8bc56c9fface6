//! What became of the slaves of a run so far, noted event by event: what began, the answers, emergencies, epochs and give-ups of each, and what happened at the
//! switch. A book takes its rows over where the run ends.
#![tactic(auto)]

mod begun;
mod emergencies;
mod log;
mod losses;
mod notes;
mod replies;
mod scripts;
mod standing;
mod switching;

pub use log::Moment;
pub use notes::{Awaited, Notes};
pub use standing::{AskedMail, Log};
