//! The object dictionary of one slave: its objects and entries, what downloads and uploads of whole values do to them, with the abort codes in
//! their order, and what is told of them (CiA 301; ETG.1000.6, section 5.6).
#![tactic(auto)]

mod accepts;
mod entry;
mod info;
mod kinds;
mod object;
mod objects;
mod refusals;
mod service;
mod whole;

pub use accepts::are_small;
pub use entry::EntrySpec;
pub use kinds::{is_string, size_of_kind};
pub use objects::Objects;
pub use refusals::{
    ABOVE_MAXIMUM, BELOW_MINIMUM, COMMAND_NOT_VALID, NO_OBJECT, NO_SUBINDEX, NOT_IN_STATE,
    NOT_READABLE, NOT_SUPPORTED, NOT_WRITABLE, TOGGLE_NOT_ALTERNATED, TOO_LONG, TOO_SHORT,
};
pub use service::SdoService;
