ghost use Rattle.std.specs.Prelude.{◌≡◌, string_bytes, IfOk};
ghost use Rattle.toml.specs.Data.{at};
ghost use Rattle.toml.specs.View.{view};
ghost use Rattle.fault_kinds.specs.Told.{item_text, octets_text, pair_text, told_text};

use fault_texts::{found, plain};
use std::alloc::{AllocError, Global};
use toml::Value;

/// What is told of a value that is wrong.
#[derive(Clone, Copy)]
pub enum Found {
    /// The value.
    Value,
    /// An item of its list, by its number from 0.
    Item(u32),
    /// A pair of its list with its number.
    Pair(u32),
    /// How many octets it is.
    Octets(u64),
}

// An item of a list.
fn item_text(alloc: Global, value: &Value, number: u32) -> Result<String, AllocError>
    ensures { IfOk result (λ text. string_bytes text ≡ item_text (at number (view value.now))) }
{
    match value.get(number as usize) {
        Some(item) => plain(alloc, item),
        None => Ok(String::new(alloc)),
    }
}

/// So many octets in words.
#[tactic(auto, unfolding(crate::specs::Told::octets_text))]
pub fn octets_text(alloc: Global, count: u64) -> Result<String, AllocError>
    ensures { IfOk result (λ text. string_bytes text ≡ octets_text count) }
{
    if count == 1 {
        String::from_str(alloc, "1 octet")
    } else {
        format!(in alloc; "{count} octets")
    }
}

// A pair of a list with its number.
#[tactic(auto, unfolding(crate::specs::Told::pair_text))]
fn pair_text(alloc: Global, value: &Value, number: u32) -> Result<String, AllocError>
    ensures { IfOk result (λ text. string_bytes text ≡ pair_text number (view value.now)) }
{
    let pair = item_text(alloc, value, number)?;
    let place = u64::from(number) + 1;
    format!(in alloc; "{pair}, pair {place}")
}

/// What is told of the value of a key.
pub fn told_text(alloc: Global, what: Found, key: &str, value: &Value) -> Result<String, AllocError>
    ensures { IfOk result (λ text. string_bytes text ≡ told_text what key.now (view value.now)) }
{
    match what {
        Found::Value => found(alloc, key, value),
        Found::Item(number) => item_text(alloc, value, number),
        Found::Pair(number) => pair_text(alloc, value, number),
        Found::Octets(count) => octets_text(alloc, count),
    }
}
