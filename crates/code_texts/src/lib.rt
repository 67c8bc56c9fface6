//! The codes that the program and the services of a slave tell, what each says, and how a code is found.
#![tactic(auto)]

mod family;
mod fitting;
mod meanings;
mod program;
mod services;
mod telling;

pub use family::{FAMILIES, Family};
pub use fitting::is_same;
pub use meanings::{emergency_class, meaning};
pub use program::{AUDIT_RULES, FAULTS, RULES, STATUSES};
pub use services::{
    ABORTS, AL_STATUS_CODES, CLASSES, EOE_RESULTS, FOE_ERRORS, MAILBOX_ERRORS, SOE_ERRORS,
};
pub use telling::{find, is_named, list};
