//! The AL state machine (ETG.1000.6, 6.4), both sides: the slave's answer to a request, the master's
//! way to a state, and the accesses by which the master brings a slave up, or opens it again. No call takes
//! memory.
#![tactic(auto)]

mod bringing;
mod climbing;
mod machine;

pub use bringing::{BringStep, BringUp, access, bring_new, came_back, cleared, reopen_new};
pub use climbing::{Climb, ClimbNext, climb_new, next, status, written};
pub use machine::{Al, Asked, BOOTSTRAP, INIT, OP, PRE_OP, SAFE_OP, request};
