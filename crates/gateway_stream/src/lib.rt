//! The gateway over a byte stream: a port that cuts the datagrams of the mailbox gateway
//! (ETG.8200) off the octets of a link, however those were cut into pieces.
#![tactic(auto)]

mod cutting;
mod stream;
mod whole_port;

pub use stream::StreamPort;
pub use whole_port::WholePort;
