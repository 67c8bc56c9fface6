ghost use Rattle.std.specs.Prelude.{◌≡◌, not, is_some, IfOk};
ghost use Rattle.std.specs.List.{list_all};
ghost use Rattle.toml.specs.Data.{as_str, as_array, as_table};
ghost use Rattle.toml.specs.View.{items_view, view};
ghost use Rattle.scenario_keys.specs.Keys.{two_numbers, as_pair};
ghost use Rattle.fault_kinds.specs.Shapes.{is_list_of, is_of};

use crate::told::Found;
use crate::tries::{kind_try, losses_try};
use crate::wrong::Wrong;
use fault_sites::Site;
use fault_texts::{Row, Shape};
use std::alloc::{AllocError, Global};
use toml::Value;

// The two numbers of items that are just these.
fn two_of(items: &[Value]) -> Option<(i64, i64)>
    ensures { result ≡ two_numbers (items_view items.now) }
{
    match items {
        [first, second] => {
            let x = first.as_integer()?;
            let y = second.as_integer()?;
            Some((x, y))
        }
        _ => None,
    }
}

/// The two numbers of a list of just two.
pub fn pair_of(value: &Value) -> Option<(i64, i64)>
    ensures { result ≡ as_pair (view value.now) }
{
    match value.as_array() {
        Some(items) => two_of(items.as_slice()),
        None => None,
    }
}

/// The header of the tables that a key lists.
pub fn header_of(key: &str) -> &'static str {
    match key {
        "slave" => "[[slave]]",
        "object" => "[[slave.object]]",
        "entry" => "[[slave.object.entry]]",
        "file" => "[[slave.file]]",
        "idn" => "[[slave.idn]]",
        "service" => "[[service]]",
        _ => "[[host]]",
    }
}

// What a value is.
fn kind_of(value: &Value) -> &'static str {
    if value.is_str() {
        "a text"
    } else if value.is_integer() {
        "a whole number"
    } else if value.is_float() {
        "a number with a fraction"
    } else if value.is_bool() {
        "a truth value"
    } else if value.is_array() {
        "a list"
    } else if value.is_table() {
        "a table"
    } else {
        "a date or time"
    }
}

// What a value should be.
fn kind_wanted(shape: Shape) -> &'static str {
    match shape {
        Shape::Number { .. } => "a whole number",
        Shape::Bound => "a whole number",
        Shape::Name => "a text",
        Shape::Label => "a text",
        Shape::Word(_) => "a text",
        Shape::Reference => "a text",
        Shape::Truth => "true or false",
        Shape::Pair { .. } => "a list of two whole numbers",
        Shape::Sizes { .. } => "a list of two whole numbers",
        Shape::Octets { .. } => "a text of hexadecimal digits",
        Shape::Words(_) => "a list of texts",
        Shape::Losses => "a list of pairs",
        Shape::Tables { .. } => "a list of tables",
    }
}

// Whether all items are texts.
fn are_texts(items: &[Value]) -> bool
    ensures { result ≡ list_all (λ v. is_some (as_str (view v))) items.now }
{
    items.iter().all(|item| item.as_str().is_some())
}

// Whether all items are pairs of numbers.
fn are_pairs(items: &[Value]) -> bool
    ensures { result ≡ list_all (λ v. is_some (as_pair (view v))) items.now }
{
    items.iter().all(|item| pair_of(item).is_some())
}

// Whether all items are tables.
fn are_tables(items: &[Value]) -> bool
    ensures { result ≡ list_all (λ v. is_some (as_table (view v))) items.now }
{
    items.iter().all(|item| item.as_table().is_some())
}

// Whether a value is a list of texts.
#[tactic(auto, using(crate::proofs::Lists::texts))]
fn is_texts(value: &Value) -> bool
    ensures { result ≡ is_list_of (λ item. is_some (as_str item)) (as_array (view value.now)) }
{
    match value.as_array() {
        Some(items) => are_texts(items.as_slice()),
        None => false,
    }
}

// Whether a value is a list of pairs.
#[tactic(auto, using(crate::proofs::Lists::pairs))]
fn is_losses(value: &Value) -> bool
    ensures { result ≡ is_list_of (λ item. is_some (as_pair item)) (as_array (view value.now)) }
{
    match value.as_array() {
        Some(items) => are_pairs(items.as_slice()),
        None => false,
    }
}

// Whether a value is a list of tables.
#[tactic(auto, using(crate::proofs::Lists::tables))]
fn is_tables(value: &Value) -> bool
    ensures { result ≡ is_list_of (λ item. is_some (as_table item)) (as_array (view value.now)) }
{
    match value.as_array() {
        Some(items) => are_tables(items.as_slice()),
        None => false,
    }
}

// Whether a value is of the kind that is wanted.
fn is_of(shape: Shape, value: &Value) -> bool
    ensures { result ≡ is_of shape (view value.now) }
{
    match shape {
        Shape::Number { .. } => value.as_integer().is_some(),
        Shape::Bound => value.as_integer().is_some(),
        Shape::Name => value.as_str().is_some(),
        Shape::Label => value.as_str().is_some(),
        Shape::Word(_) => value.as_str().is_some(),
        Shape::Reference => value.as_str().is_some(),
        Shape::Truth => value.as_bool().is_some(),
        Shape::Pair { .. } => pair_of(value).is_some(),
        Shape::Sizes { .. } => pair_of(value).is_some(),
        Shape::Octets { .. } => value.as_str().is_some(),
        Shape::Words(_) => is_texts(value),
        Shape::Losses => is_losses(value),
        Shape::Tables { .. } => is_tables(value),
    }
}

// The line of a value of another kind.
fn kind_head(alloc: Global, row: &Row, value: &Value) -> Result<String, AllocError> {
    let key = row.key;
    let wanted = kind_wanted(row.shape);
    if value.is_array() {
        match row.shape {
            Shape::Pair { .. } => return format!(in alloc; "`{key}` should be {wanted}"),
            Shape::Sizes { .. } => return format!(in alloc; "`{key}` should be {wanted}"),
            Shape::Words(_) => return format!(in alloc; "an item of `{key}` isn't a text"),
            _ => {}
        }
    }
    if value.is_table() && matches!(row.shape, Shape::Tables { .. }) {
        return format!(in alloc; "`{key}` is one table and should be {wanted}");
    }
    let kind = kind_of(value);
    format!(in alloc; "`{key}` is {kind} and should be {wanted}")
}

// A lost frame that is no pair of numbers.
fn wrong_loss(
    alloc: Global,
    key: &str,
    items: &[Value],
    number: usize,
) -> Result<Wrong, AllocError> {
    let place = number.saturating_add(1);
    let mut wrong = Wrong::told(format!(in alloc;
        "item {place} of `{key}` isn't a pair of whole numbers"
    )?);
    wrong.found = Found::Item(u32::try_from(number).unwrap_or(0));
    wrong.remedy = losses_try(alloc, items)?;
    Ok(wrong)
}

// The first lost frame that is no pair of numbers.
fn wrong_losses(alloc: Global, row: &Row, value: &Value) -> Result<Option<Wrong>, AllocError> {
    let (Shape::Losses, Some(items)) = (row.shape, value.as_array()) else {
        return Ok(None);
    };
    for (number, item) in items.iter().enumerate() {
        if pair_of(item).is_none() {
            let wrong = wrong_loss(alloc, row.key, items.as_slice(), number)?;
            return Ok(Some(wrong));
        }
    }
    Ok(None)
}

// A value of another kind, as a whole.
fn wrong_whole(alloc: Global, site: &Site, row: &Row, value: &Value) -> Result<Wrong, AllocError> {
    let mut wrong = Wrong::told(kind_head(alloc, row, value)?);
    wrong.remedy = kind_try(alloc, site, row, value)?;
    Ok(wrong)
}

/// What is wrong with a value of another kind than its key wants; none where it is of that kind.
pub fn wrong_kind(
    alloc: Global,
    site: &Site,
    row: &Row,
    value: &Value,
) -> Result<Option<Wrong>, AllocError>
    ensures { IfOk result (λ o. is_some o ≡ not (is_of row.now.shape (view value.now))) }
{
    if is_of(row.shape, value) {
        return Ok(None);
    }
    match wrong_losses(alloc, row, value)? {
        Some(wrong) => Ok(Some(wrong)),
        None => Ok(Some(wrong_whole(alloc, site, row, value)?)),
    }
}
