//! The decoding text of a capture: a line for each packet, for each datagram in it, and for each mail
//! that a datagram moved.
#![tactic(auto)]

mod bodies;
mod lines;
mod numbers;
mod viewing;

pub use viewing::{body_of, octets_of, view};
