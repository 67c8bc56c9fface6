//! A run of a plan, frame by frame: the master's frames go round the ring of its slaves, and what became of each stands in a book.
#![tactic(auto)]

mod running;
mod session;

pub use running::run;
pub use session::Session;
