ghost use Rattle.std.specs.Prelude.{◌≡◌, ◌≤◌, ℕ, map, length, IfOk, IfSome, option_map};
ghost use Rattle.toml.specs.Data.{get_member};
ghost use Rattle.toml.specs.View.{view, items_view, table_view};
ghost use Rattle.scenario_keys.specs.Reading.{Gives, unless_refused};
ghost use Rattle.scenario_keys.specs.Keys.{is_known, only_keys, needed_at, number_in, optional_number_at, no_number_at, in_range, integer_in, integer_or, integer_at, two_numbers, as_pair, two_numbers_in, no_pair_at, pair_in, pair_at, sizes_at, bool_in, bool_at, text_in, text_at, is_printed, is_name, is_label, name_at, label_in, optional_label_at, label_at};

use crate::place::Place;
use crate::refusal::{Rule, Stop, refused};
use ec_fields::Octets;
use std::alloc::Global;
use toml::{Table, Value};

/// What has to hold, or else the rule refuses.
pub fn unless(holds: bool, rule: Rule, place: Place) -> Result<(), Stop>
    ensures { Gives (λ done. done) result (unless_refused rule place holds) }
{
    if holds {
        Ok(())
    } else {
        Err(refused(rule, place))
    }
}

/// The value of a key, where it is there.
pub fn find<'a>(table: &'a Table, key: &str) -> Option<&'a Value>
    ensures { option_map (λ v. view v.now) result ≡ get_member key.now (table_view table.now) }
{
    table.get(key)
}

fn is_known_key(known: &[&str], key: &str) -> bool
    ensures { result ≡ is_known (map (λ k. k.now) known.now) key.now }
{
    known.contains(&key)
}

/// Refuses a table with a key that isn't known.
pub fn only_known(table: &Table, known: &[&str], place: Place) -> Result<(), Stop>
    ensures { Gives (λ done. done) result (only_keys (map (λ k. k.now) known.now) place (table_view table.now)) }
{
    for (key, _) in table.iter() {
        if !is_known_key(known, key.as_str()) {
            return Err(refused(Rule::UnknownKey, place));
        }
    }
    Ok(())
}

/// The value of a key that has no default.
pub fn needed<'a>(table: &'a Table, key: &str, place: Place) -> Result<&'a Value, Stop>
    ensures { Gives (λ v. view v.now) result (needed_at key.now place (table_view table.now)) }
{
    match find(table, key) {
        Some(value) => Ok(value),
        None => Err(refused(Rule::Missing, place)),
    }
}

/// A number of 64 bits.
pub fn number(value: &Value, place: Place) -> Result<i64, Stop>
    ensures { Gives (λ n. n) result (number_in place (view value.now)) }
{
    match value.as_integer() {
        Some(number) => Ok(number),
        None => Err(refused(Rule::WrongKind, place)),
    }
}

/// A number of 64 bits, where its key is there.
pub fn number_or_none(table: &Table, key: &str, place: Place) -> Result<Option<i128>, Stop>
    ensures { Gives (λ n. n) result (optional_number_at key.now place (table_view table.now)) }
{
    match find(table, key) {
        Some(value) => Ok(Some(i128::from(number(value, place)?))),
        None => Ok(None),
    }
}

/// The number, where it is from `low` to `high`.
pub fn number_in(number: i64, low: u64, high: u64, place: Place) -> Result<u64, Stop>
    ensures gives { Gives (λ n. n) result (in_range low high place number) }
    ensures within { IfOk result (λ n. (low ≤ n) × (n ≤ high)) }
{
    match u64::try_from(number) {
        Ok(n) if low <= n && n <= high => Ok(n),
        _ => Err(refused(Rule::OutOfRange, place)),
    }
}

/// A number from `low` to `high`, which stands.
pub fn integer(value: &Value, low: u64, high: u64, place: Place) -> Result<u64, Stop>
    ensures gives { Gives (λ n. n) result (integer_in low high place (view value.now)) }
    ensures within { IfOk result (λ n. (low ≤ n) × (n ≤ high)) }
{
    number_in(number(value, place)?, low, high, place)
}

/// No number: refuses one, since another key excludes it.
pub fn no_number(table: &Table, key: &str, place: Place) -> Result<(), Stop>
    ensures { Gives (λ done. done) result (no_number_at key.now place (table_view table.now)) }
{
    match find(table, key) {
        Some(value) => {
            number(value, place)?;
            Err(refused(Rule::OutOfRange, place))
        }
        None => Ok(()),
    }
}

/// A number from `low` to `high`, or `default` where the key is left out.
pub fn integer_or(
    table: &Table,
    key: &str,
    default: u64,
    low: u64,
    high: u64,
    place: Place,
) -> Result<u64, Stop>
    requires least { low ≤ default }
    requires most { default ≤ high }
    ensures gives { Gives (λ n. n) result (integer_or key.now default low high place (table_view table.now)) }
    ensures within { IfOk result (λ n. (low ≤ n) × (n ≤ high)) }
{
    match find(table, key) {
        Some(value) => integer(value, low, high, place),
        None => Ok(default),
    }
}

/// A number from `low` to `high`.
pub fn needed_integer(
    table: &Table,
    key: &str,
    low: u64,
    high: u64,
    place: Place,
) -> Result<u64, Stop>
    ensures gives { Gives (λ n. n) result (integer_at key.now low high place (table_view table.now)) }
    ensures within { IfOk result (λ n. (low ≤ n) × (n ≤ high)) }
{
    integer(needed(table, key, place)?, low, high, place)
}

/// The two numbers of items that are just these.
fn two_of(items: &[Value]) -> Option<(i64, i64)>
    ensures { result ≡ two_numbers (items_view items.now) }
{
    match items {
        [first, second] => {
            let x = first.as_integer()?;
            let y = second.as_integer()?;
            Some((x, y))
        }
        _ => None,
    }
}

fn as_pair(value: &Value) -> Option<(i64, i64)>
    ensures { result ≡ as_pair (view value.now) }
{
    match value.as_array() {
        Some(items) => two_of(items.as_slice()),
        None => None,
    }
}

/// A list of just two numbers.
pub fn pair_of(value: &Value, place: Place) -> Result<(i64, i64), Stop>
    ensures { Gives (λ p. p) result (two_numbers_in place (view value.now)) }
{
    match as_pair(value) {
        Some(pair) => Ok(pair),
        None => Err(refused(Rule::WrongKind, place)),
    }
}

/// No list of two numbers: refuses one, since another key excludes it.
pub fn no_pair(table: &Table, key: &str, place: Place) -> Result<(), Stop>
    ensures { Gives (λ done. done) result (no_pair_at key.now place (table_view table.now)) }
{
    match find(table, key) {
        Some(value) => {
            pair_of(value, place)?;
            Err(refused(Rule::OutOfRange, place))
        }
        None => Ok(()),
    }
}

fn pair(value: &Value, low: u64, high: u64, place: Place) -> Result<(u64, u64), Stop>
    ensures gives { Gives (λ p. p) result (pair_in low high place (view value.now)) }
    ensures within { IfOk result (λ p. (low ≤ p.0) × (p.0 ≤ high) × (low ≤ p.1) × (p.1 ≤ high)) }
{
    let (x, y) = pair_of(value, place)?;
    let first = number_in(x, low, high, place)?;
    let second = number_in(y, low, high, place)?;
    Ok((first, second))
}

/// A list of two numbers, each from `low` to `high`.
pub fn needed_pair(
    table: &Table,
    key: &str,
    low: u64,
    high: u64,
    place: Place,
) -> Result<(u64, u64), Stop>
    ensures gives { Gives (λ p. p) result (pair_at key.now low high place (table_view table.now)) }
    ensures within { IfOk result (λ p. (low ≤ p.0) × (p.0 ≤ high) × (low ≤ p.1) × (p.1 ≤ high)) }
{
    pair(needed(table, key, place)?, low, high, place)
}

/// The least and the greatest size: a list of two numbers from `low` to `high`, the first not above the second.
pub fn needed_sizes(
    table: &Table,
    key: &str,
    low: u64,
    high: u64,
    place: Place,
) -> Result<(u64, u64), Stop>
    ensures gives { Gives (λ p. p) result (sizes_at key.now low high place (table_view table.now)) }
    ensures within { IfOk result (λ p. (low ≤ p.0) × (p.0 ≤ p.1) × (p.1 ≤ high)) }
{
    let (least, most) = needed_pair(table, key, low, high, place)?;
    unless(least <= most, Rule::OutOfRange, place)?;
    Ok((least, most))
}

fn truth(value: &Value, place: Place) -> Result<bool, Stop>
    ensures { Gives (λ b. b) result (bool_in place (view value.now)) }
{
    match value.as_bool() {
        Some(truth) => Ok(truth),
        None => Err(refused(Rule::WrongKind, place)),
    }
}

/// A truth value, false where the key is left out.
pub fn bool_or_false(table: &Table, key: &str, place: Place) -> Result<bool, Stop>
    ensures { Gives (λ b. b) result (bool_at key.now place (table_view table.now)) }
{
    match find(table, key) {
        Some(value) => truth(value, place),
        None => Ok(false),
    }
}

/// A text.
pub fn text(value: &Value, place: Place) -> Result<&str, Stop>
    ensures { Gives (λ t. t.now) result (text_in place (view value.now)) }
{
    match value.as_str() {
        Some(text) => Ok(text),
        None => Err(refused(Rule::WrongKind, place)),
    }
}

/// The text of a key.
pub fn needed_text<'a>(table: &'a Table, key: &str, place: Place) -> Result<&'a str, Stop>
    ensures { Gives (λ t. t.now) result (text_at key.now place (table_view table.now)) }
{
    text(needed(table, key, place)?, place)
}

fn is_printed_from(low: u8, text: &str) -> bool
    ensures { result ≡ is_printed low text.now }
{
    text.as_bytes().iter().all(|c| low <= *c && *c <= 0x7E)
}

fn is_name_text(text: &str) -> bool
    ensures { result ≡ is_name text.now }
{
    let fits = 1 <= text.len() && text.len() <= 32;
    fits && is_printed_from(0x21, text)
}

fn is_label_text(text: &str) -> bool
    ensures { result ≡ is_label text.now }
{
    let fits = text.len() <= 40;
    fits && is_printed_from(0x20, text)
}

/// A name: 1 to 32 characters from 0x21 to 0x7E.
pub fn needed_name<'a>(table: &'a Table, key: &str, place: Place) -> Result<&'a str, Stop>
    ensures gives { Gives (λ t. t.now) result (name_at key.now place (table_view table.now)) }
    ensures within { IfOk result (λ t. (1 ≤ length t.now) × (length t.now ≤ 32)) }
{
    let text = needed_text(table, key, place)?;
    unless(is_name_text(text), Rule::OutOfRange, place)?;
    Ok(text)
}

fn label(alloc: Global, value: &Value, place: Place) -> Result<Octets, Stop>
    ensures gives { Gives (λ t. t) result (label_in place (view value.now)) }
    ensures within { IfOk result (λ t. length t ≤ 40) }
{
    let text = text(value, place)?;
    unless(is_label_text(text), Rule::OutOfRange, place)?;
    Ok(Octets::copy_of(alloc, text.as_bytes())?)
}

/// A label, where its key is there: 0 to 40 characters from 0x20 to 0x7E.
pub fn some_label(
    alloc: Global,
    table: &Table,
    key: &str,
    place: Place,
) -> Result<Option<Octets>, Stop>
    ensures gives { Gives (λ t. t) result (optional_label_at key.now place (table_view table.now)) }
    ensures within { IfOk result (λ o. IfSome o (λ t. length t ≤ 40)) }
{
    match find(table, key) {
        Some(value) => Ok(Some(label(alloc, value, place)?)),
        None => Ok(None),
    }
}

/// A label: 0 to 40 characters from 0x20 to 0x7E, none where the key is left out.
pub fn label_or_none(alloc: Global, table: &Table, key: &str, place: Place) -> Result<Octets, Stop>
    ensures gives { Gives (λ t. t) result (label_at key.now place (table_view table.now)) }
    ensures within { IfOk result (λ t. length t ≤ 40) }
{
    match find(table, key) {
        Some(value) => label(alloc, value, place),
        None => Ok(Octets::new(alloc)),
    }
}
