//! The lines of `get SCENARIO SLAVE WHAT [FILE]` and `put SCENARIO SLAVE WHAT VALUE` where nothing is asked: the words that fit neither, and a slave,
//! an entry or a value that there isn't.
#![tactic(auto)]

mod slaves;
mod usage;
mod values;

pub use slaves::no_slave;
pub use usage::{get_usage, put_usage};
pub use values::{bad_value, bad_what};
