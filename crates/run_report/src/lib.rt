//! What is told of a run: its report, line by line, and its frames as a capture.
#![tactic(auto)]

mod answers;
mod drops;
mod reporting;
mod saving;
mod slaves;

pub use reporting::report;
pub use saving::saved;
