//! Runs made again: a new master is given the fates and the backs that a run recorded, and has to make the frames that the run recorded, octet for octet.
//! So all that a master knows it knows from frames.
//!
//! The frames are counted besides, by the measure by which the frame bound is proved, as a reader of frames alone computes it, with the plan's slaves,
//! their paces, and the numbers of the frames with which a packet of the host came in. For each slave: how far its opening or its repeat round is, and
//! what it has gained. For the ring: in how many frames at most all is repaired, if none is lost. Behind each frame that either falls; or something was
//! gained; or neither, in a row of so many frames at most; or the frame was lost, or began to reopen a slave, and put off the end by so many at most.
#![tactic(auto)]

mod again;
mod checksum;
mod gram;
mod measure;
mod repair;
mod sending;
mod tally;
mod tracker;

pub use again::{Replayed, replay};
pub use measure::{Measured, Uncounted};
