//! The lines of `get SCENARIO SLAVE WHAT [FILE]` and `put SCENARIO SLAVE WHAT VALUE` behind a service over the gateway: what it came to, and what is
//! to be done where no reply came.
#![tactic(auto)]

mod replies;
mod silence;

pub use replies::{end_of, reply_line, saved_line};
pub use silence::{port_fault_lines, unanswered_lines};
