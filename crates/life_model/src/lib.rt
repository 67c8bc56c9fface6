//! The life of a slave as its master leads it: openings, epochs, give-ups, each epoch a session of the one slave over its own datagrams; its book
//! over all epochs; and how many frames the lives of a ring's slaves may take. Definitions and laws, no running code: the functions here do nothing,
//! and their contracts state the laws.
#![tactic(auto)]

mod book;
pub mod book_model;
mod ending;
mod lives;
mod repairs;
mod rounds;
mod script;
mod steps;
mod sums;
mod tours;
mod visits;
mod won;
