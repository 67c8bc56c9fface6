//! A serving of a plan: datagrams that a port hears are passed on to the slaves of a running segment, and the replies go back to who asked.
#![tactic(auto)]

mod desk;
mod serving;
mod stop;
mod turn;

pub use serving::serve;
