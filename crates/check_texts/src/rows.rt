ghost use Rattle.std.specs.Prelude.{◌≡◌, ◌++◌, decimal, replicate, OnOk};
ghost use Rattle.check_texts.specs.Rows.{head_row, at_text, trail_text, arrow_row, margin_of, line_row, marks_row, excerpt_rows, note_row};

use crate::excerpt::Excerpt;
use ec_fields::{NoMemory, Octets};
use itoa::Buffer;

/// A line of a text and a column in it, both from 1.
#[derive(Clone, Copy)]
pub struct At {
    pub line: usize,
    pub column: usize,
}

// Adds a number in decimal digits.
fn add_number(text: &mut Octets, number: usize) -> Result<(), NoMemory>
    ensures { OnOk result (text.new ≡ text.old ++ decimal number) }
{
    let mut digits = Buffer::new();
    text.add(digits.format(number).as_bytes())?;
    Ok(())
}

// Adds an octet so many times.
fn add_times(text: &mut Octets, octet: u8, times: usize) -> Result<(), NoMemory>
    ensures { OnOk result (text.new ≡ text.old ++ replicate times octet) }
{
    for _ in 0..times {
        text.add(&[octet])?;
    }
    Ok(())
}

/// Adds the first row: the rule by which a scenario is refused, and what is wrong.
#[tactic(auto, unfolding(crate::specs::Rows::head_row))]
pub fn add_head(text: &mut Octets, rule: u8, head: &[u8]) -> Result<(), NoMemory>
    ensures { OnOk result (text.new ≡ text.old ++ head_row rule head.now) }
{
    text.add(b"error[S")?;
    add_number(text, rule as usize)?;
    text.add(b"]: ")?;
    text.add(head)?;
    text.add(b"\n")?;
    Ok(())
}

// Adds line and column, where there are some.
fn add_at(text: &mut Octets, at: Option<At>) -> Result<(), NoMemory>
    ensures { OnOk result (text.new ≡ text.old ++ at_text at) }
{
    if let Some(at) = at {
        text.add(b":")?;
        add_number(text, at.line)?;
        text.add(b":")?;
        add_number(text, at.column)?;
    }
    Ok(())
}

// Adds the title of a table and a key, where there are some.
fn add_trail(text: &mut Octets, title: &[u8], key: &[u8]) -> Result<(), NoMemory>
    ensures { OnOk result (text.new ≡ text.old ++ trail_text title.now key.now) }
{
    match (title.is_empty(), key.is_empty()) {
        (true, true) => {}
        (true, false) => {
            text.add(b", ")?;
            text.add(key)?;
        }
        (false, true) => {
            text.add(b", ")?;
            text.add(title)?;
        }
        (false, false) => {
            text.add(b", ")?;
            text.add(title)?;
            text.add(b" > ")?;
            text.add(key)?;
        }
    }
    Ok(())
}

/// Adds the row that says where: the file, the line and column, the title of the table and the key.
#[tactic(auto, unfolding(crate::specs::Rows::arrow_row))]
pub fn add_arrow(
    text: &mut Octets,
    name: &str,
    at: Option<At>,
    title: &[u8],
    key: &[u8],
) -> Result<(), NoMemory>
    ensures { OnOk result (text.new ≡ text.old ++ arrow_row name.now at title.now key.now) }
{
    text.add(b" --> ")?;
    text.add(name.as_bytes())?;
    add_at(text, at)?;
    add_trail(text, title, key)?;
    text.add(b"\n")?;
    Ok(())
}

// How many digits a number has.
fn margin_of(number: usize) -> usize
    ensures { result ≡ margin_of number }
{
    let mut digits = Buffer::new();
    digits.format(number).len()
}

// Adds the row of the line, with its number.
#[tactic(auto, unfolding(crate::specs::Rows::line_row))]
fn add_line(text: &mut Octets, number: usize, shown: &[u8]) -> Result<(), NoMemory>
    ensures { OnOk result (text.new ≡ text.old ++ line_row number shown.now) }
{
    add_number(text, number)?;
    text.add(b" |")?;
    if !shown.is_empty() {
        text.add(b" ")?;
        text.add(shown)?;
    }
    text.add(b"\n")?;
    Ok(())
}

// Adds the row of the marks.
#[tactic(auto, unfolding(crate::specs::Rows::marks_row))]
fn add_marks(text: &mut Octets, margin: usize, blanks: usize, marks: usize) -> Result<(), NoMemory>
    ensures { OnOk result (text.new ≡ text.old ++ marks_row margin blanks marks) }
{
    add_times(text, b' ', margin)?;
    text.add(b" |")?;
    if marks > 0 {
        text.add(b" ")?;
        add_times(text, b' ', blanks)?;
        add_times(text, b'^', marks)?;
    }
    text.add(b"\n")?;
    Ok(())
}

/// Adds the rows of an excerpt of the line of a number.
#[tactic(auto, unfolding(crate::specs::Rows::excerpt_rows))]
pub fn add_excerpt(text: &mut Octets, number: usize, excerpt: &Excerpt) -> Result<(), NoMemory>
    ensures { OnOk result (text.new ≡ text.old ++ excerpt_rows number excerpt.now) }
{
    let margin = margin_of(number);
    add_marks(text, margin, 0, 0)?;
    add_line(text, number, excerpt.shown.bytes())?;
    add_marks(text, margin, excerpt.blanks, excerpt.marks)
}

/// Adds a note under a word.
#[tactic(auto, unfolding(crate::specs::Rows::note_row))]
pub fn add_note(text: &mut Octets, word: &str, note: &[u8]) -> Result<(), NoMemory>
    ensures { OnOk result (text.new ≡ text.old ++ note_row word.now note.now) }
{
    text.add(b"  = ")?;
    text.add(word.as_bytes())?;
    text.add(b": ")?;
    text.add(note)?;
    text.add(b"\n")?;
    Ok(())
}
