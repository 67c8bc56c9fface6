//! The segment: a master's sides, a ring of slaves and the record of their frames, over frames as data. Definitions and laws, no running code.
//!
//! The functions of `laws` do nothing: each carries laws as its contract. They hold for every exchange that owes the laws of
//! `exchange_model`, every plan with distinct stations, every choice of a master, every fate of a frame and every order of processor steps.
#![tactic(auto)]

pub mod laws;
mod trial;
