ghost use Rattle.std.specs.Prelude.{◌≡◌, ◌≤◌, ◌++◌, length, OnOk};
ghost use Rattle.value_texts.specs.Types.{type_word, type_text, truth, signed, unsigned, number, read_as, plain, bracketed, note};
ghost use Rattle.object_dictionary.specs.Entries.{is_signed};
ghost use Rattle.std.specs.Fmt.{decimal, signed_decimal};

use crate::texts::{add_octets, add_text};
use byteorder::{ByteOrder, LittleEndian};
use ec_fields::{NoMemory, Octets};
use object_dictionary::size_of_kind;
use std::alloc::Global;

/// What the octets of a value are told as.
#[derive(Clone, Copy)]
pub(crate) enum Reading {
    /// A BOOLEAN.
    Truth(bool),
    /// A number of a signed type.
    Signed(i64),
    /// A number of an unsigned type.
    Unsigned(u64),
    /// A VISIBLE_STRING.
    Text,
    /// Octets: those of an OCTET_STRING, and where they are not as many as the type has.
    Plain,
}

// The name of a data type by its number (CiA 301, "Data type entry specification"), empty where it has none here.
fn type_word(kind: u16) -> &'static str
    ensures { result.now ≡ type_word kind }
{
    match kind {
        1 => "BOOLEAN",
        2 => "INTEGER8",
        3 => "INTEGER16",
        4 => "INTEGER32",
        5 => "UNSIGNED8",
        6 => "UNSIGNED16",
        7 => "UNSIGNED32",
        9 => "VISIBLE_STRING",
        10 => "OCTET_STRING",
        21 => "INTEGER64",
        27 => "UNSIGNED64",
        _ => "",
    }
}

/// A data type by its name, or by its number where it has none here.
#[tactic(auto, unfolding(crate::specs::Types::type_text))]
pub fn add_type(alloc: Global, line: &mut Octets, kind: u16) -> Result<(), NoMemory>
    ensures { OnOk result (line.new ≡ line.old ++ type_text kind) }
{
    let word = type_word(kind);
    if !word.is_empty() {
        return line.add(word.as_bytes());
    }
    let number = format!(in alloc; "type {kind}")?;
    line.add(number.as_bytes())?;
    Ok(())
}

// What a BOOLEAN's octets say.
#[tactic(auto, unfolding(crate::specs::Types::truth))]
fn truth(octets: &[u8]) -> Reading
    ensures { result ≡ truth octets.now }
{
    match octets {
        [octet] if *octet <= 1 => Reading::Truth(*octet == 1),
        _ => Reading::Plain,
    }
}

fn is_signed(kind: u16) -> bool
    ensures { result ≡ is_signed kind }
{
    kind == 2 || kind == 3 || kind == 4 || kind == 21
}

// The number that octets say, the lowest one first.
#[tactic(auto, unfolding(crate::specs::Types::signed))]
fn signed(octets: &[u8]) -> Reading
    requires some { 1 ≤ length octets.now }
    requires few { length octets.now ≤ 8 }
    ensures { result ≡ signed octets.now }
{
    Reading::Signed(LittleEndian::read_int(octets, octets.len()))
}

#[tactic(auto, unfolding(crate::specs::Types::unsigned))]
fn unsigned(octets: &[u8]) -> Reading
    requires some { 1 ≤ length octets.now }
    requires few { length octets.now ≤ 8 }
    ensures { result ≡ unsigned octets.now }
{
    Reading::Unsigned(LittleEndian::read_uint(octets, octets.len()))
}

// The number that the octets of a numeric type say, where they are as many as it has.
#[tactic(auto, unfolding(crate::specs::Types::number))]
fn number(kind: u16, octets: &[u8]) -> Reading
    ensures { result ≡ number kind octets.now }
{
    if octets.len() != size_of_kind(kind) as usize {
        Reading::Plain
    } else if is_signed(kind) {
        signed(octets)
    } else {
        unsigned(octets)
    }
}

/// What the octets of a value of a data type are told as.
#[tactic(auto, unfolding(crate::specs::Types::read_as))]
pub(crate) fn read_as(kind: u16, octets: &[u8]) -> Reading
    ensures { result ≡ read_as kind octets.now }
{
    match kind {
        1 => truth(octets),
        9 => Reading::Text,
        2 | 3 | 4 | 5 | 6 | 7 | 21 | 27 => number(kind, octets),
        _ => Reading::Plain,
    }
}

fn add_signed(alloc: Global, line: &mut Octets, number: i64) -> Result<(), NoMemory>
    ensures { OnOk result (line.new ≡ line.old ++ signed_decimal number) }
{
    let digits = format!(in alloc; "{number}")?;
    line.add(digits.as_bytes())?;
    Ok(())
}

/// A number in decimal digits.
pub(crate) fn add_number(alloc: Global, line: &mut Octets, number: u64) -> Result<(), NoMemory>
    ensures { OnOk result (line.new ≡ line.old ++ decimal number) }
{
    let digits = format!(in alloc; "{number}")?;
    line.add(digits.as_bytes())?;
    Ok(())
}

/// A value without its type.
#[tactic(auto, unfolding(crate::specs::Types::plain))]
pub(crate) fn add_plain(
    alloc: Global,
    line: &mut Octets,
    reading: Reading,
    octets: &[u8],
) -> Result<(), NoMemory>
    ensures { OnOk result (line.new ≡ line.old ++ plain reading octets.now) }
{
    match reading {
        Reading::Truth(false) => line.add(b"false"),
        Reading::Truth(true) => line.add(b"true"),
        Reading::Signed(number) => add_signed(alloc, line, number),
        Reading::Unsigned(number) => add_number(alloc, line, number),
        Reading::Text => add_text(alloc, line, octets),
        Reading::Plain => add_octets(alloc, line, octets),
    }
}

/// The type in brackets behind a value that doesn't show it.
#[tactic(auto, unfolding(crate::specs::Types::note))]
pub(crate) fn add_note(
    alloc: Global,
    line: &mut Octets,
    reading: Reading,
    kind: u16,
) -> Result<(), NoMemory>
    ensures { OnOk result (line.new ≡ line.old ++ note reading kind) }
{
    match reading {
        Reading::Text | Reading::Plain => Ok(()),
        Reading::Truth(_) | Reading::Signed(_) | Reading::Unsigned(_) => {
            add_bracketed(alloc, line, kind)
        }
    }
}

#[tactic(auto, unfolding(crate::specs::Types::bracketed))]
fn add_bracketed(alloc: Global, line: &mut Octets, kind: u16) -> Result<(), NoMemory>
    ensures { OnOk result (line.new ≡ line.old ++ bracketed kind) }
{
    line.add(b" (")?;
    add_type(alloc, line, kind)?;
    line.add(b")")?;
    Ok(())
}
