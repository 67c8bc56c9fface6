ghost use Rattle.std.specs.Prelude.{◌≤◌, length};

use ec_fields::{NoMemory, Octets};
use std::alloc::{AllocError, Global};
use std::str;
use toml_places::{is_control, line_end};

/// The most columns that are shown of a line.
const COLUMNS: usize = 80;

/// The line of a text that begins at a place: without its line end, and without a byte order mark at the front.
pub fn line_at(text: &[u8], at: usize) -> &[u8] {
    if at >= text.len() {
        return &[];
    }
    let line = match &text[at..line_end(text, at)] {
        [line @ .., b'\r', b'\n'] => line,
        [line @ .., b'\n'] => line,
        line => line,
    };
    match line {
        [0xef, 0xbb, 0xbf, behind @ ..] if at == 0 => behind,
        _ => line,
    }
}

/// How many characters octets of UTF-8 are: those that go on with none.
pub fn columns(octets: &[u8]) -> usize
    ensures { result ≤ length octets.now }
{
    octets.iter().filter(|octet| **octet & 0xc0 != 0x80).count()
}

// A line as it is shown: control characters as blanks, and of more than 80 characters the first 77.
fn shown_text(alloc: Global, line: &str) -> Result<String, AllocError> {
    let is_long = line.chars().count() > COLUMNS;
    let most = if is_long { COLUMNS - 3 } else { COLUMNS };
    let mut shown = String::new(alloc);
    for c in line.chars().take(most) {
        shown.push(if is_control(c) { ' ' } else { c })?;
    }
    if is_long {
        shown.push_str("...")?;
    }
    Ok(shown)
}

/// A line as it is shown.
pub(crate) fn shown(alloc: Global, line: &[u8]) -> Result<Octets, NoMemory> {
    match str::from_utf8(line) {
        Ok(line) => Octets::copy_of(
            alloc,
            shown_text(alloc, line)?
                .as_str()
                .trim_ascii_end()
                .as_bytes(),
        ),
        Err(_) => Ok(Octets::new(alloc)),
    }
}
