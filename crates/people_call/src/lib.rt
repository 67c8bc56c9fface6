//! The forms of the program that tell people something; scripts have the other forms.
#![tactic(auto)]

mod call;
mod explain;
mod forms;
mod telling;

pub use call::people_call;
pub use people_words::Ended;
