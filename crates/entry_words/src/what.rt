ghost use Rattle.std.specs.Prelude.{◌≡◌, IfSome};
ghost use Rattle.scenario_keys.specs.Keys.{is_printed, is_name};
ghost use Rattle.entry_words.specs.What.{without_prefix, entry_in, parted_in, named_in, what_in, IsWhat};

use crate::numbers::{is_hexadecimal, number};
use ec_fields::buffer_of;
use file_store::Name;

/// What of a slave is read or written.
#[derive(Drop)]
pub enum What {
    /// The entry of an object.
    Entry { index: u16, sub: u8 },
    /// The file of this name, 1 to 32 characters from 0x21 to 0x7E.
    File(Name),
}

fn without_prefix(digits: &[u8]) -> &[u8]
    ensures { result.now ≡ without_prefix digits.now }
{
    if is_hexadecimal(digits) {
        &digits[2..]
    } else {
        digits
    }
}

// The entry of these hexadecimal digits.
fn entry(index: &[u8], sub: &[u8]) -> Option<What>
    ensures value { result ≡ entry_in index.now sub.now }
    ensures what { IfSome result IsWhat }
{
    match (number(16, without_prefix(index)), number(16, sub)) {
        (Some(index), Some(sub)) if index <= 0xFFFF && sub <= 0xFF => Some(What::Entry {
            index: index as u16,
            sub: sub as u8,
        }),
        _ => None,
    }
}

// `INDEX:SUB`, or `INDEX` for subindex 0.
#[tactic(auto, unfolding(crate::specs::What::parted_in))]
fn parted(word: &str) -> Option<What>
    ensures value { result ≡ parted_in word.now }
    ensures what { IfSome result IsWhat }
{
    match word.split_once(':') {
        Some((index, sub)) => entry(index.as_bytes(), sub.as_bytes()),
        None => entry(word.as_bytes(), b"0"),
    }
}

fn is_printed(word: &[u8]) -> bool
    ensures { result ≡ is_printed 0x21 word.now }
{
    word.iter().all(|c| 0x21 <= *c && *c <= 0x7E)
}

fn is_name(word: &[u8]) -> bool
    ensures { result ≡ is_name word.now }
{
    let fits = 1 <= word.len() && word.len() <= 32;
    fits && is_printed(word)
}

fn named(name: &[u8]) -> Option<What>
    ensures value { result ≡ named_in name.now }
    ensures what { IfSome result IsWhat }
{
    if is_name(name) {
        Some(What::File(buffer_of(name)))
    } else {
        None
    }
}

/// What a word asks for: `2100:01`, `0x2100:1`, or `2100` for subindex 0, all in hexadecimal digits, or `file:NAME`. None of another word.
#[tactic(auto, unfolding(crate::specs::What::what_in))]
pub fn what_of(word: &str) -> Option<What>
    ensures value { result ≡ what_in word.now }
    ensures what { IfSome result IsWhat }
{
    let octets = word.as_bytes();
    if octets.starts_with(b"file:") {
        named(&octets[5..])
    } else {
        parted(word)
    }
}
