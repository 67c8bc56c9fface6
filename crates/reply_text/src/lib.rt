//! The text of a reply, as the report of a run and the client of a gateway put it.
#![tactic(auto)]

mod reply;

pub use reply::reply_text;
