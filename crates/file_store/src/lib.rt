//! The files of a slave in a region of blocks: whole files, and one version that nobody sees before it is committed.
#![tactic(auto)]

mod file;
mod store;

pub use block_pool::PoolFull;
pub use file::{FileSpec, NOT_FOUND, Name};
pub use store::Store;
