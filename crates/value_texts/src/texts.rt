ghost use Rattle.std.specs.Prelude.{◌≡◌, ◌++◌, ◌&&◌, nat_le, OnOk, codes, take, drop};
ghost use Rattle.std.specs.List.{flat_map, list_all};
ghost use Rattle.hex.specs.Hex.{encode_lower};
ghost use Rattle.value_texts.specs.Texts.{character, quoted, cut, text, octets_text, is_printable, file_text};

use ec_fields::{NoMemory, Octets};
use std::alloc::Global;

/// So many characters of a text are told at most.
const CHARACTERS: usize = 60;

/// So many octets are told whole at most, and so many of more.
const OCTETS: usize = 24;

const FIRST_OCTETS: usize = 16;

/// The first octets, and those behind them.
pub(crate) fn cut_at(octets: &[u8], size: usize) -> (&[u8], &[u8])
    ensures front { result.0.now ≡ take size octets.now }
    ensures back { result.1.now ≡ drop size octets.now }
{
    if size <= octets.len() {
        octets.split_at(size)
    } else {
        (octets, &[])
    }
}

// A character of a text in quotes, one that can't stand there by its code.
#[tactic(auto, unfolding(crate::specs::Texts::character))]
fn add_character(alloc: Global, line: &mut Octets, octet: u8) -> Result<(), NoMemory>
    ensures { OnOk result (line.new ≡ line.old ++ character octet) }
{
    match octet {
        b'"' => line.add(b"\\\""),
        b'\\' => line.add(b"\\\\"),
        b' '..=b'~' => line.add(&[octet]),
        _ => {
            let code = format!(in alloc; "\\x{octet:02x}")?;
            line.add(code.as_bytes())
        }
    }
}

fn add_characters(alloc: Global, line: &mut Octets, octets: &[u8]) -> Result<(), NoMemory>
    ensures { OnOk result (line.new ≡ line.old ++ flat_map character octets.now) }
{
    for octet in octets {
        add_character(alloc, line, *octet)?;
    }
    Ok(())
}

/// A text in quotes.
#[tactic(auto, unfolding(crate::specs::Texts::quoted))]
pub fn add_quoted(alloc: Global, line: &mut Octets, octets: &[u8]) -> Result<(), NoMemory>
    ensures { OnOk result (line.new ≡ line.old ++ quoted octets.now) }
{
    line.add(b"\"")?;
    add_characters(alloc, line, octets)?;
    line.add(b"\"")?;
    Ok(())
}

/// What stands behind the first of so many.
#[tactic(auto, unfolding(crate::specs::Texts::cut))]
pub(crate) fn add_cut(alloc: Global, line: &mut Octets, many: usize) -> Result<(), NoMemory>
    ensures { OnOk result (line.new ≡ line.old ++ cut many) }
{
    let count = format!(in alloc; ".. ({many})")?;
    line.add(count.as_bytes())?;
    Ok(())
}

/// A text in quotes: of more than 60 characters the first 60, and how many there are.
#[tactic(auto, unfolding(crate::specs::Texts::text))]
pub(crate) fn add_text(alloc: Global, line: &mut Octets, octets: &[u8]) -> Result<(), NoMemory>
    ensures { OnOk result (line.new ≡ line.old ++ text octets.now) }
{
    if octets.len() <= CHARACTERS {
        return add_quoted(alloc, line, octets);
    }
    let (front, _) = cut_at(octets, CHARACTERS);
    add_quoted(alloc, line, front)?;
    add_cut(alloc, line, octets.len())?;
    Ok(())
}

// Octets in hexadecimal digits.
fn add_digits(alloc: Global, line: &mut Octets, octets: &[u8]) -> Result<(), NoMemory>
    ensures { OnOk result (line.new ≡ line.old ++ (codes "octets " ++ encode_lower octets.now)) }
{
    let digits = hex::encode(alloc, octets)?;
    line.add(b"octets ")?;
    line.add(digits.as_bytes())?;
    Ok(())
}

/// Octets in hexadecimal digits: of more than 24 the first 16, and how many there are.
#[tactic(auto, unfolding(crate::specs::Texts::octets_text))]
pub fn add_octets(alloc: Global, line: &mut Octets, octets: &[u8]) -> Result<(), NoMemory>
    ensures { OnOk result (line.new ≡ line.old ++ octets_text octets.now) }
{
    if octets.is_empty() {
        return line.add(b"no octets");
    }
    if octets.len() <= OCTETS {
        return add_digits(alloc, line, octets);
    }
    add_digits(alloc, line, &octets[..FIRST_OCTETS])?;
    add_cut(alloc, line, octets.len())?;
    Ok(())
}

// Whether each octet is a character of ASCII that can be printed.
fn are_printable(octets: &[u8]) -> bool
    ensures { result ≡ list_all (λ octet. nat_le 32 octet && nat_le octet 126) octets.now }
{
    octets.iter().all(|octet| b' ' <= *octet && *octet <= b'~')
}

// Whether octets are some, and each is so.
#[tactic(auto, unfolding(crate::specs::Texts::is_printable))]
fn is_printable(octets: &[u8]) -> bool
    ensures { result ≡ is_printable octets.now }
{
    !octets.is_empty() && are_printable(octets)
}

/// What a file holds: a text where all of it can be printed.
#[tactic(auto, unfolding(crate::specs::Texts::file_text))]
pub fn add_file(alloc: Global, line: &mut Octets, octets: &[u8]) -> Result<(), NoMemory>
    ensures { OnOk result (line.new ≡ line.old ++ file_text octets.now) }
{
    if is_printable(octets) {
        add_text(alloc, line, octets)
    } else {
        add_octets(alloc, line, octets)
    }
}

/// A list whose items have a comma and a blank ahead, without those of the first.
pub fn behind_comma(items: &[u8]) -> &[u8]
    ensures { result.now ≡ drop 2 items.now }
{
    match items {
        [_, _, rest @ ..] => rest,
        _ => &[],
    }
}
