//! The master of a segment whole: the slaves in the order of their tour, the services that come into hand of each, the switch with the
//! packets of the host, the mails that are passed on, and the events of each step. It knows of a slave only what frames bring. No call
//! but [`MasterNode::new`], [`MasterNode::value`] and [`MasterNode::told`] takes memory.
#![tactic(auto)]

mod brought;
mod changed;
mod coming;
mod copies;
mod event;
mod happened;
mod lan;
mod laying;
mod node;
mod post;
mod ready;
mod standing;
mod starting;
mod telling;
mod told;
mod wants;

pub use changed::Changed;
pub use event::{Event, Origin};
pub use happened::Happening;
pub use node::{MasterNode, Next};
pub use told::Told;
