//! The adapters that open sockets, against a second socket: tests of a link and of a port. Nothing stands on this crate.
#![tactic(auto)]

#[cfg(test)]
mod connection;
