//! The port of a client of the mailbox gateway that doesn't wait for ever: the adapter to a UDP
//! socket that hears the gateway alone, and ends where no datagram of it comes in time.
#![tactic(auto)]

mod patient;

pub use patient::PatientPort;
