ghost use Rattle.std.specs.Prelude.{◌≡◌, ◌≤◌, length, Some, IfOk, IfSome};
ghost use Rattle.entry_words.specs.Values.{below_of, most_of, limited, negated, number_of, octets_of, numeric_in, boolean_in, pairs_in, fitting, typed_in, untested_in, value_in};

use crate::numbers::{number, number_word};
use byteorder::{ByteOrder, LittleEndian};
use ec_fields::{NoMemory, Octets};
use hex::FromHexError;
use object_dictionary::size_of_kind;
use std::alloc::Global;

/// The most octets that a download has.
const MOST: usize = 8000;

/// How far below 0 the least number of a data type is.
pub fn below(kind: u16) -> u64
    ensures { result ≡ below_of kind }
{
    match kind {
        2 => 0x80,
        3 => 0x8000,
        4 => 0x8000_0000,
        21 => 0x8000_0000_0000_0000,
        _ => 0,
    }
}

/// The greatest number of a data type.
pub fn most(kind: u16) -> u64
    ensures { result ≡ most_of kind }
{
    match kind {
        2 => 0x7F,
        3 => 0x7FFF,
        4 => 0x7FFF_FFFF,
        5 => 0xFF,
        6 => 0xFFFF,
        7 => 0xFFFF_FFFF,
        21 => 0x7FFF_FFFF_FFFF_FFFF,
        _ => u64::MAX,
    }
}

// A number of at most so much.
fn limited(number: Option<u64>, most: u64) -> Option<u64>
    ensures { result ≡ limited number most }
{
    match number {
        Some(number) if number <= most => Some(number),
        _ => None,
    }
}

// The number so far below 0, in two's complement of 64 bits.
fn negated(number: Option<u64>) -> Option<u64>
    ensures { result ≡ negated number }
{
    match number {
        Some(0) => Some(0),
        Some(number) => Some(u64::MAX - (number - 1)),
        None => None,
    }
}

// The number of a data type that a word writes, in two's complement of 64 bits.
#[tactic(auto, unfolding(crate::specs::Values::number_of))]
fn number_of(kind: u16, word: &[u8]) -> Option<u64>
    ensures { result ≡ number_of kind word.now }
{
    if word.starts_with(b"-") {
        negated(limited(number(10, &word[1..]), below(kind)))
    } else {
        limited(number_word(word), most(kind))
    }
}

// The lowest octets of a number, the lowest one ahead.
fn octets_of(alloc: Global, size: u32, number: u64) -> Result<Octets, NoMemory>
    requires { size ≤ 8 }
    ensures { IfOk result (λ o. o ≡ octets_of size number) }
{
    let mut octets = [0; 8];
    LittleEndian::write_u64(&mut octets, number);
    Octets::copy_of(alloc, &octets[..size as usize])
}

// The octets of a number of a data type.
#[tactic(auto, unfolding(crate::specs::Values::numeric_in))]
fn numeric(alloc: Global, kind: u16, word: &[u8]) -> Result<Option<Octets>, NoMemory>
    ensures { IfOk result (λ o. o ≡ numeric_in kind word.now) }
{
    match number_of(kind, word) {
        Some(number) => Ok(Some(octets_of(alloc, size_of_kind(kind), number)?)),
        None => Ok(None),
    }
}

// The octet of a BOOLEAN.
#[tactic(auto, unfolding(crate::specs::Values::boolean_in))]
fn boolean(alloc: Global, word: &[u8]) -> Result<Option<Octets>, NoMemory>
    ensures { IfOk result (λ o. o ≡ boolean_in word.now) }
{
    if word == b"true".as_slice() {
        Ok(Some(Octets::copy_of(alloc, &[1])?))
    } else if word == b"false".as_slice() {
        Ok(Some(Octets::copy_of(alloc, &[0])?))
    } else {
        Ok(None)
    }
}

// The octets that pairs of hexadecimal digits write.
fn pairs(alloc: Global, digits: &[u8]) -> Result<Option<Octets>, NoMemory>
    ensures { IfOk result (λ o. o ≡ pairs_in digits.now) }
{
    match hex::decode(alloc, digits) {
        Ok(octets) => Ok(Some(Octets::from_vec(octets))),
        Err(FromHexError::OutOfMemory) => Err(NoMemory),
        Err(_) => Ok(None),
    }
}

// So many octets that a download has them.
fn fitting(octets: Option<Octets>) -> Option<Octets>
    ensures value { result ≡ fitting octets }
    ensures within { IfSome result (λ o. (1 ≤ length o) × (length o ≤ 8000)) }
{
    match octets {
        Some(octets) if octets.len() >= 1 && octets.len() <= MOST => Some(octets),
        _ => None,
    }
}

// The octets of a value of a data type.
#[tactic(auto, unfolding(crate::specs::Values::typed_in))]
fn typed(alloc: Global, kind: u16, word: &[u8]) -> Result<Option<Octets>, NoMemory>
    ensures { IfOk result (λ o. o ≡ typed_in kind word.now) }
{
    match kind {
        1 => boolean(alloc, word),
        9 => Ok(Some(Octets::copy_of(alloc, word)?)),
        10 => pairs(alloc, word),
        _ => numeric(alloc, kind, word),
    }
}

// The octets that a word writes, however many.
#[tactic(auto, unfolding(crate::specs::Values::untested_in))]
fn untested(alloc: Global, kind: Option<u16>, word: &[u8]) -> Result<Option<Octets>, NoMemory>
    ensures { IfOk result (λ o. o ≡ untested_in kind word.now) }
{
    if word.starts_with(b"hex:") {
        return pairs(alloc, &word[4..]);
    }
    match kind {
        Some(kind) => typed(alloc, kind, word),
        None => Ok(None),
    }
}

/// The octets that a word writes for an entry of this data type, 1 to 8,000: a number in decimal digits or in hexadecimal ones behind `0x`, within
/// the type's range, the lowest octet ahead; `true` or `false` of BOOLEAN; the text itself of VISIBLE_STRING; pairs of hexadecimal digits of
/// OCTET_STRING, and behind `hex:` of each type, and alone of an entry that the plan doesn't have. None of another word.
#[tactic(auto, unfolding(crate::specs::Values::value_in))]
pub fn value_of(alloc: Global, kind: Option<u16>, word: &str) -> Result<Option<Octets>, NoMemory>
    ensures value { IfOk result (λ o. o ≡ value_in kind word.now) }
    ensures within { IfOk result (λ o. IfSome o (λ octets. (1 ≤ length octets) × (length octets ≤ 8000))) }
{
    let octets = untested(alloc, kind, word.as_bytes())?;
    Ok(fitting(octets))
}
