//! What SoE's server and client have in common: what a service is about, and the messages that carry an element's octets, written straight into
//! the body of a mail (ETG.1000.6, "SoE").
#![tactic(auto)]

mod subject;
mod writing;

pub use subject::{MOST, Subject};
pub use writing::{write_message, write_part, write_refusal};
