//! The master's two halves of a mailbox link (ETG.1000.4, mailbox access with repeat request and acknowledge),
//! as types that are consumed: after a lost read no read can be written without the repeat handshake.
#![tactic(auto)]

mod access;
mod halves;
mod inward;
mod outward;
mod seat;
mod states;

pub use access::{LinkState, head_of};
pub use halves::{InwardHalf, OutwardHalf};
pub use inward::{AskedNext, DoubtNext, Got, Inward, new_inward};
pub use outward::{OutNext, OutState, Outward, new_outward};
pub use seat::{GotView, OutwardSeat};
pub use states::{Asked, Clear, Doubt, Holding, Idle, Refetch};
