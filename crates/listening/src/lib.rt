//! A port and a link that say on the standard error that they listen, so that it is known when requests may be sent.
#![tactic(auto)]

mod link;
mod port;

pub use link::ListeningLink;
pub use port::ListeningPort;
