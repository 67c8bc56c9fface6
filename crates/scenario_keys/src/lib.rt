//! The keys of a scenario's tables: places and refusals, and the kinds of keys, each read in the order missing, wrong kind, out of
//! range.
#![tactic(auto)]

mod keys;
mod place;
mod refusal;

pub use keys::{
    bool_or_false, find, integer, integer_or, label_or_none, needed, needed_integer, needed_name,
    needed_pair, needed_sizes, needed_text, no_number, no_pair, number, number_in, number_or_none,
    only_known, pair_of, some_label, text, unless,
};
pub use place::Place;
pub use refusal::{ReadErr, Refusal, Rule, Stop, put, refused};
