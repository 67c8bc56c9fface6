//! The steps of one slave's processor over the registers of its controller and the box of its mails, for any services behind its mailboxes.

pub use crate::stepping::{Clear, step};
