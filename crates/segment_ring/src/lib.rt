//! A ring of slaves on a wire: each frame meets the slaves in order, and returns or is lost by a schedule; behind each frame the slaves'
//! processors make their steps.
#![tactic(auto)]

mod ring;
mod schedule;
mod wire;

pub use ring::Ring;
pub use wire::{Fate, Slave, Wire};
