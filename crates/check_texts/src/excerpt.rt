use crate::marks::{Marked, part_of};
use crate::shown::{columns, shown};
use ec_fields::{NoMemory, Octets};
use std::alloc::Global;

/// The last column that is shown of a line.
const LAST: usize = 80;

/// A line as it is shown, with what is marked in it.
#[derive(Drop)]
pub struct Excerpt {
    /// The line: at most 80 characters, without blanks at its end.
    pub shown: Octets,
    /// The column of what is marked, from 1.
    pub column: usize,
    /// How many blanks stand ahead of the marks.
    pub blanks: usize,
    /// How many columns are marked.
    pub marks: usize,
}

/// A line without its line end as it is shown, with the marks below it.
pub fn excerpt_of(alloc: Global, line: &[u8], marked: Marked) -> Result<Excerpt, NoMemory> {
    let part = part_of(line, marked);
    let from = columns(&line[..part.from]);
    let to = columns(&line[..part.to]);
    let blanks = from.min(LAST);
    Ok(Excerpt {
        shown: shown(alloc, line)?,
        column: from + 1,
        blanks,
        marks: to.min(LAST).saturating_sub(blanks),
    })
}
