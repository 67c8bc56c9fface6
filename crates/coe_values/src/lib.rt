//! The two values of a CoE server in a region of 256 blocks of 128 octets: that of the SDO transfer in hand, and the answer of an
//! information service.
#![tactic(auto)]

mod chains;
mod values;

pub use values::{Slot, Values};
