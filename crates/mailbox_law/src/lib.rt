//! The law of a mailbox link: whatever frames are lost, the mails taken are the first mails held, and the mails
//! accepted the first mails offered, each once.
#![tactic(auto)]

mod bring;
mod keeper;
mod run;
mod steps;
mod wire;
mod world;

pub use keeper::Keeper;
pub use run::{all_fit, run_link, run_world};
pub use steps::{LinkFate, LinkRun, LinkStep};
pub use world::World;
