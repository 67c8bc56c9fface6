//! Streams of octets that reach outside: links as a trait with a count of faults, the link in
//! memory that stands in for them, and the adapter to a TCP connection.
#![tactic(auto)]

mod link;
mod mem_link;
mod tcp;

pub use link::{Asked, Link, LinkErr, LinkItem, Piece};
pub use mem_link::MemLink;
pub use tcp::TcpLink;
