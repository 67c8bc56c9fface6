ghost use Rattle.std.specs.Prelude.{◌<◌, ◌≤◌, length};

/// A part of a line: from one octet to another.
#[derive(Clone, Copy)]
pub(crate) struct Part {
    pub(crate) from: usize,
    pub(crate) to: usize,
}

/// What of a line is to be marked.
#[derive(Clone, Copy)]
pub enum Marked<'a> {
    /// A key, where the line begins with it.
    Key(&'a [u8]),
    /// The value of a key, where the line begins with that.
    Value(&'a [u8]),
    /// The line, of a header without its comment.
    Line,
    /// The line of an item of a list.
    Item,
}

fn is_blank(octet: u8) -> bool {
    octet == b' ' || octet == b'\t'
}

// How many blanks stand ahead.
fn blanks_ahead(octets: &[u8]) -> usize
    ensures { result ≤ length octets.now }
{
    octets.iter().take_while(|octet| is_blank(**octet)).count()
}

// What is left without the blanks at the end.
fn without_trail(octets: &[u8]) -> usize
    ensures { result ≤ length octets.now }
{
    let mut rest = octets;
    while let [ahead @ .., last] = rest {
        if !is_blank(*last) {
            break;
        }
        rest = ahead;
    }
    rest.len()
}

// A part without the blanks around it.
fn trimmed(line: &[u8], from: usize, to: usize) -> Part
    requires from { from ≤ to }
    requires to { to ≤ length line.now }
    ensures from { result.from ≤ result.to }
    ensures to { result.to ≤ length line.now }
{
    let from = from + blanks_ahead(&line[from..to]);
    Part {
        from,
        to: from + without_trail(&line[from..to]),
    }
}

// Where an octet stands behind a place, or the end of the line.
fn place_of(line: &[u8], from: usize, octet: u8) -> usize
    requires { from ≤ length line.now }
    ensures from { from ≤ result }
    ensures to { result ≤ length line.now }
{
    match line[from..].iter().position(|c| *c == octet) {
        Some(at) => from + at,
        None => line.len(),
    }
}

fn is_quote(octet: u8) -> bool {
    octet == b'"' || octet == b'\''
}

// Where a value that begins with a quote ends: behind its closing quote, or with the line.
fn quoted_end(line: &[u8], from: usize) -> usize
    requires { from < length line.now }
    ensures from { from ≤ result }
    ensures to { result ≤ length line.now }
{
    let quote = line[from];
    let mut at = from + 1;
    while at < line.len() {
        if line[at] == quote {
            return at + 1;
        }
        at += if line[at] == b'\\' && quote == b'"' {
            2
        } else {
            1
        };
    }
    line.len()
}

// The value behind an equals sign: to its closing quote where it begins with one, else up to a comment.
fn value_part(line: &[u8], from: usize) -> Part
    requires { from ≤ length line.now }
    ensures from { result.from ≤ result.to }
    ensures to { result.to ≤ length line.now }
{
    let value = trimmed(line, from, line.len());
    if value.from < line.len() && is_quote(line[value.from]) {
        return Part {
            from: value.from,
            to: quoted_end(line, value.from),
        };
    }
    trimmed(line, from, place_of(line, from, b'#'))
}

// The key ahead of an equals sign, without blanks and quotes around it.
fn key_part(line: &[u8], to: usize) -> Part
    requires { to ≤ length line.now }
    ensures from { result.from ≤ result.to }
    ensures to { result.to ≤ length line.now }
{
    let key = trimmed(line, 0, to);
    if key.to - key.from >= 2 && is_quote(line[key.from]) && is_quote(line[key.to - 1]) {
        return Part {
            from: key.from + 1,
            to: key.to - 1,
        };
    }
    key
}

// Of a line that begins with a key the key or its value, else all of it.
fn part_of_pair(line: &[u8], whole: Part, marked: Marked) -> Part
    requires from { whole.from ≤ whole.to }
    requires to { whole.to ≤ length line.now }
    ensures from { result.from ≤ result.to }
    ensures to { result.to ≤ length line.now }
{
    let equals = place_of(line, 0, b'=');
    if equals == line.len() {
        return whole;
    }
    let key = key_part(line, equals);
    let word = &line[key.from..key.to];
    match marked {
        Marked::Key(name) if word == name => key,
        Marked::Value(name) if word == name => value_part(line, equals + 1),
        _ => whole,
    }
}

/// The part of a line that is marked: of a header all up to a comment; of a line that begins with the key it or its value; else the line
/// without the blanks around it.
pub(crate) fn part_of(line: &[u8], marked: Marked) -> Part
    ensures from { result.from ≤ result.to }
    ensures to { result.to ≤ length line.now }
{
    let whole = trimmed(line, 0, line.len());
    if matches!(marked, Marked::Item) {
        return whole;
    }
    if whole.from < line.len() && line[whole.from] == b'[' {
        return trimmed(line, 0, place_of(line, 0, b'#'));
    }
    part_of_pair(line, whole, marked)
}
