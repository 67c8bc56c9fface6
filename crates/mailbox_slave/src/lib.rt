//! The slave's side of both mailboxes: the processor's steps on its registers, for any server
//! (ETG.1000.4, mailbox with repeat request and acknowledge).
#![tactic(auto)]

mod server;
mod slave_box;

pub use server::Server;
pub use slave_box::SlaveBox;
