//! What `get SCENARIO SLAVE WHAT [FILE]` and `put SCENARIO SLAVE WHAT VALUE` do at a slave of the scenario's plan: the service that the words and the
//! plan say, or the line where they say none.
#![tactic(auto)]

mod acts;
mod words;

pub use acts::{Act, act_of};
pub use words::{
    Task, is_form, last_word, scenario_word, slave_word, task_of, usage_of, what_word,
};
