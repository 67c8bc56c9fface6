//! One slave as its master has it while it is open: both halves of the link, the service by mails in hand, the state service in hand, and the order
//! of the datagrams of its visits; and the law that its counters are those by which a record tells which mails are new.
#![tactic(auto)]

mod back;
mod carried;
mod hand;
pub mod news_kept;
mod passing;
mod sending;
mod side;

pub use carried::{Carried, Target, Wish};
pub use hand::{Hand, Heard};
pub use passing::Passing;
pub use side::Side;
