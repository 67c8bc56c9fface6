//! The law of an audit: what a capture that obeys the rules of the mailboxes says of every slave that may have been
//! behind it. The functions here do nothing: each carries a law as its contract.
#![tactic(auto)]

pub mod laws;
