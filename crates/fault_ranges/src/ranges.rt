use crate::bounds::wrong_bound;
use crate::lists::{wrong_count, wrong_losses, wrong_words};
use crate::names::{wrong_label, wrong_name, wrong_word};
use crate::numbers::wrong_number;
use crate::octets::wrong_octets;
use crate::sizes::{wrong_pair, wrong_sizes};
use ec_fields::NoMemory;
use fault_kinds::{Wrong, pair_of};
use fault_sites::Site;
use fault_texts::{Row, Shape};
use std::alloc::Global;
use toml::Value;

fn wrong_integer(
    alloc: Global,
    site: &Site,
    row: &Row,
    number: i64,
) -> Result<Option<Wrong>, NoMemory> {
    match row.shape {
        Shape::Number { low, high } => wrong_number(alloc, site, row.key, number, low, high),
        Shape::Bound => wrong_bound(alloc, site, row.key, number),
        _ => Ok(None),
    }
}

fn wrong_text(
    alloc: Global,
    site: &Site,
    row: &Row,
    text: &str,
) -> Result<Option<Wrong>, NoMemory> {
    match row.shape {
        Shape::Name => wrong_name(alloc, site, row.key, text),
        Shape::Label => wrong_label(alloc, row.key, text),
        Shape::Word(words) => wrong_word(alloc, site, row.key, words, text),
        Shape::Octets { .. } => wrong_octets(alloc, site, row.key, text),
        _ => Ok(None),
    }
}

fn wrong_two(
    alloc: Global,
    site: &Site,
    row: &Row,
    first: i64,
    second: i64,
) -> Result<Option<Wrong>, NoMemory> {
    match row.shape {
        Shape::Pair { low, high } => wrong_pair(alloc, row.key, (first, second), low, high),
        Shape::Sizes { most } => wrong_sizes(alloc, site, row.key, (first, second), most),
        _ => Ok(None),
    }
}

fn wrong_list(
    alloc: Global,
    site: &Site,
    row: &Row,
    items: &[Value],
) -> Result<Option<Wrong>, NoMemory> {
    match row.shape {
        Shape::Words(words) => wrong_words(alloc, row.key, words, items),
        Shape::Losses => wrong_losses(alloc, row.key, items),
        Shape::Tables { .. } => wrong_count(alloc, site, row.key, items.len()),
        _ => Ok(None),
    }
}

/// What is wrong with a value of the kind that its key wants: it is out of range, or another key of the scenario excludes it. None where it
/// isn't wrong.
pub fn wrong_range(
    alloc: Global,
    site: &Site,
    row: &Row,
    value: &Value,
) -> Result<Option<Wrong>, NoMemory> {
    if let Some(number) = value.as_integer() {
        return wrong_integer(alloc, site, row, number);
    }
    if let Some(text) = value.as_str() {
        return wrong_text(alloc, site, row, text);
    }
    if let Some((first, second)) = pair_of(value)
        && matches!(row.shape, Shape::Pair { .. } | Shape::Sizes { .. })
    {
        return wrong_two(alloc, site, row, first, second);
    }
    match value.as_array() {
        Some(items) => wrong_list(alloc, site, row, items.as_slice()),
        None => Ok(None),
    }
}
