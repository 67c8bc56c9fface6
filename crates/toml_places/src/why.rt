use ec_fields::{NoMemory, Octets};
use std::alloc::Global;
use std::str;

/// A control character of a line, and its column from 1.
#[derive(Clone, Copy)]
struct Control {
    code: u32,
    column: usize,
}

const COMMENT: &str = "a comment begins with #";

const GIVEN_TWICE: &str = "this key is given twice in its table, or isn't free here";

const TABLE_TWICE: &str =
    "this table is given twice, or the same name is a key, a table [..] and a list of tables [[..]]";

const LINES: &str =
    "a line is a comment # .., a table [[slave]] or a key with its value, retry = 3";

const PAIRS: &str = "the brackets of a table are in pairs: [[slave]]";

const OWN_LINE: &str = "a table is written in brackets on a line of its own: [[slave]]";

const NO_VALUE: &str = "the value behind = is missing";

const NO_KEY: &str = "the key ahead of = is missing";

const CURLY: &str = "texts stand in straight quotes: \"drive\"";

const QUOTE: &str = "a quote isn't closed";

const BRACKET: &str = "a bracket of a list isn't closed, or the list lacks a comma";

const BRACE: &str = "a brace isn't closed";

const WORD: &str = "a text stands in quotes, and the truth values are true and false";

const ZEROS: &str = "a number has no leading zeros; hexadecimal ones begin with 0x";

const BIG_X: &str = "hexadecimal numbers begin with a small 0x";

const WIDE: &str = "the number has more than 64 bits";

const NUMBER: &str =
    "this number isn't one: digits, or 0x and hexadecimal digits, and nothing behind it but a comment # ..";

const OTHER: &str = "the value isn't a number, a text in quotes, true, false or a list in brackets";

/// Whether a character is a control character: those below 0x20 and from 0x7f to 0x9f.
pub fn is_control(c: char) -> bool {
    let code = c as u32;
    code < 0x20 || (0x7f <= code && code <= 0x9f)
}

// The first control character of a line that is no tab.
fn control_in(line: &str) -> Option<Control> {
    for (at, c) in line.chars().enumerate() {
        if is_control(c) && c != '\t' {
            return Some(Control {
                code: c as u32,
                column: at + 1,
            });
        }
    }
    None
}

// What stands ahead of the first octet of a kind, or all where there is none.
fn ahead_of(octets: &[u8], octet: u8) -> &[u8] {
    match octets.iter().position(|c| *c == octet) {
        Some(at) => &octets[..at],
        None => octets,
    }
}

fn count(octets: &[u8], octet: u8) -> usize {
    octets.iter().filter(|c| **c == octet).count()
}

// Whether curly quotes stand among octets of UTF-8, U+2018 to U+201F.
fn has_curly(octets: &[u8]) -> bool {
    octets.windows(3).any(|c| c[0] == 0xe2 && c[1] == 0x80 && 0x98 <= c[2] && c[2] <= 0x9f)
}

fn are_digits(octets: &[u8]) -> bool {
    octets.iter().all(|c| c.is_ascii_digit())
}

fn are_hexadecimal(octets: &[u8]) -> bool {
    octets.iter().all(|c| c.is_ascii_hexdigit())
}

// Whether a value is of 19 digits or more, or of 16 hexadecimal ones.
fn is_wide(value: &[u8]) -> bool {
    match value {
        [b'0', b'x', digits @ ..] => digits.len() >= 16 && are_hexadecimal(digits),
        _ => value.len() >= 19 && are_digits(value),
    }
}

// Why a value whose quotes and brackets are closed is none.
fn why_value(value: &[u8]) -> &'static str {
    match value {
        [first, ..] if first.is_ascii_alphabetic() || *first == b'_' => WORD,
        [b'0', second, ..] if second.is_ascii_digit() => ZEROS,
        [b'0', b'X', ..] => BIG_X,
        _ if is_wide(value) => WIDE,
        [first, ..] if first.is_ascii_digit() || *first == b'-' || *first == b'+' => NUMBER,
        _ => OTHER,
    }
}

// Why a key, which may be none, and a value are no pair.
fn why_pair(key: &[u8], value: &[u8]) -> &'static str {
    if value.is_empty() {
        NO_VALUE
    } else if key.is_empty() {
        NO_KEY
    } else if has_curly(value) {
        CURLY
    } else if count(value, b'"') % 2 == 1 || count(value, b'\'') % 2 == 1 {
        QUOTE
    } else if count(value, b'[') != count(value, b']') {
        BRACKET
    } else if count(value, b'{') != count(value, b'}') {
        BRACE
    } else {
        why_value(value)
    }
}

// Why a line that begins with a bracket is no header.
fn why_header(line: &[u8]) -> &'static str {
    let header = ahead_of(line, b'#');
    if count(header, b'[') == count(header, b']') {
        OWN_LINE
    } else {
        PAIRS
    }
}

// Whether a line begins as comments of other languages do.
fn is_other_comment(line: &[u8]) -> bool {
    line.starts_with(b"//") || line.starts_with(b"/*") || line.starts_with(b";")
}

// Why a line without blanks around it, and without control characters, begins no block.
fn why_line(line: &[u8]) -> &'static str {
    if is_other_comment(line) {
        return COMMENT;
    }
    if line.starts_with(b"[") {
        return why_header(line);
    }
    match line.iter().position(|c| *c == b'=') {
        Some(at) => why_pair(
            line[..at].trim_ascii(),
            ahead_of(&line[at + 1..], b'#').trim_ascii(),
        ),
        None => LINES,
    }
}

// Why a block that is a document by itself is none behind others.
fn why_block(line: &[u8]) -> &'static str {
    if line.starts_with(b"[") {
        TABLE_TWICE
    } else {
        GIVEN_TWICE
    }
}

/// Why a line, without its line end, is no TOML; of the first line of a block why it is none behind the blocks before it.
pub fn why_of(alloc: Global, line: &[u8], is_block: bool) -> Result<Octets, NoMemory> {
    let trimmed = line.trim_ascii();
    if is_block {
        return Octets::copy_of(alloc, why_block(trimmed).as_bytes());
    }
    if let Ok(text) = str::from_utf8(line) {
        if let Some(control) = control_in(text) {
            let (code, column) = (control.code, control.column);
            let why = format!(in alloc;
                "the line has the control character 0x{code:02x} at {column}"
            )?;
            return Octets::copy_of(alloc, why.as_bytes());
        }
    }
    Octets::copy_of(alloc, why_line(trimmed).as_bytes())
}
