//! The words of the command line, the texts that are put where nothing runs, and how a call puts its lines and ends.
#![tactic(auto)]

mod form;
mod lines;
mod loading;
mod status;
mod texts;

pub use form::{Form, form_of, number, stream_of};
pub use lines::{say, say_lines, say_text};
pub use loading::load;
pub use status::Status;
pub use texts::{
    absent, audit_no, audit_yes, capture_refusal, file_fault, refusal, station_text, too_long,
    usage,
};
