//! The mailbox mail: its header, its counter and the error mail (ETG.1000.4, "Mailbox"), and the
//! words in which every service above answers.
#![tactic(auto)]

mod mail;
mod outcome;
mod reading;
mod writing;

pub use mail::{BODY, HEADER, Kind, Mail, MailFault, MailHead, MailView, error_mail, next_counter};
pub use outcome::{ReplyKind, Took};
pub use reading::{mail_of, read, read_into, view};
pub use writing::{write, write_head};
