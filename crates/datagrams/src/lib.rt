//! EtherCAT frames (ETG.1000.4, 5): a header, datagrams of which all but the last say "more", and
//! padding. Frames are read, built and changed in place; no call takes memory.
#![tactic(auto)]

mod command;
mod frame;
mod head;
mod passing;
mod reading;
pub mod register;
mod writing;

pub use command::Command;
pub use frame::{Frame, FrameBuf, FrameFault, Part};
pub use head::Head;
pub use passing::{Passage, pass};
pub use reading::{fault, first, next, part_at, read};
pub use writing::{Body, add, add_with, begin, finish, room, set};
