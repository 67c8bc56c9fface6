//! The newest service by mails that a master has in hand of one slave: the clients of its protocols, the service that is laid ready to follow,
//! the script of the slave, and what its mails brought besides.
#![tactic(auto)]

mod clients;
mod course;
mod found;
mod hand;
mod laying;
mod passed;
mod telling;

pub use clients::{Clients, Which};
pub use course::Course;
pub use found::{Brought, Found};
pub use hand::InHand;
pub use laying::{Laid, Laying};
pub use passed::{Content, PassedMail};
