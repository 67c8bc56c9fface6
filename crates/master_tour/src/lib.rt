//! The slaves of a ring in the order of a tour: which of them a frame carries, their datagrams in it, and
//! what the frame's return or loss makes of each.
#![tactic(auto)]

mod behind;
mod cursor;
mod opening;
mod stop;
mod tour;
mod visiting;

pub use cursor::Cursor;
pub use stop::{Stand, Stop, Turned};
pub use tour::Tour;
