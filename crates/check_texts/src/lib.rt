//! The lines of a diagnosis: what is wrong, where, the line of the text with what is meant marked below it, and notes.
#![tactic(auto)]

mod excerpt;
mod marks;
mod rows;
mod shown;

pub use excerpt::{Excerpt, excerpt_of};
pub use marks::Marked;
pub use rows::{At, add_arrow, add_excerpt, add_head, add_note};
pub use shown::{columns, line_at};
