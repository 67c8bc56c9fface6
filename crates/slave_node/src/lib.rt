//! One slave of the segment: the registers of its controller, which each frame passes in the order of its datagrams (ETG.1000.4, 5.4), the box of its
//! mails, its AL state, the services behind its mailboxes, and the steps of its processor over them.
#![tactic(auto)]

pub mod frame_pass;
mod node;
pub mod slave_steps;
mod stepping;

pub use node::{Services, SlaveNode};
