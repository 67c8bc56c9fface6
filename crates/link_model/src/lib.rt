//! The model of one mailbox link and of a ring of them: definitions and laws, no running code.
//!
//! A link is a master's two halves and a slave's two mailboxes (ETG.1000.4, mailbox with repeat request and
//! acknowledge). The functions here do nothing: each carries a law as its contract.
#![tactic(auto)]

pub mod laws;
