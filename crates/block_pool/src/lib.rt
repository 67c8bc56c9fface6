//! A region of blocks of 128 octets in chains: octet lists that grow and shrink without taking
//! memory.
#![tactic(auto)]

mod chain;
mod pool;

pub use pool::{ChainId, Pool, PoolFull};
