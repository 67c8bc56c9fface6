//! The forms of the program: what the words of each are and what it is for, as `help` tells it.
#![tactic(auto)]

mod forms;
mod telling;

pub use forms::{FORMS, VERSION};
pub use telling::{Told, help, usage};
