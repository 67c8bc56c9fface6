ghost use Rattle.std.specs.Prelude.{◌≡◌, ◌++◌, [], codes, map, string_bytes, IfOk, OnOk};
ghost use Rattle.std.specs.List.{list_all};
ghost use Rattle.toml.specs.View.{view};
ghost use Rattle.fault_texts.specs.Values.{is_plain, is_table, truth_text, plain_text, listed, bracketed, list_text, value_text, number_text, found_text};

use crate::characters::add_quoted;
use std::alloc::{AllocError, Global};
use toml::Value;

/// The most values that are told of a list.
const MANY: usize = 8;

// Whether a value is a number, a text or a truth value.
fn is_plain(value: &Value) -> bool
    ensures { result ≡ is_plain (view value.now) }
{
    value.is_integer() || value.is_str() || value.is_bool()
}

// Adds a truth value.
fn add_truth(text: &mut String, truth: bool) -> Result<(), AllocError>
    ensures { OnOk result (string_bytes text.new ≡ string_bytes text.old ++ truth_text truth) }
{
    if truth {
        text.push_str("true")
    } else {
        text.push_str("false")
    }
}

// Adds a number, a text or a truth value as a scenario writes it.
fn add_plain(alloc: Global, text: &mut String, value: &Value) -> Result<(), AllocError>
    ensures { OnOk result (string_bytes text.new ≡ string_bytes text.old ++ plain_text (view value.now)) }
{
    if let Some(told) = value.as_str() {
        add_quoted(alloc, text, told)
    } else if let Some(number) = value.as_integer() {
        write!(text, "{number}")
    } else if let Some(truth) = value.as_bool() {
        add_truth(text, truth)
    } else {
        Ok(())
    }
}

// Adds plain values with commas between them.
fn add_listed(alloc: Global, text: &mut String, values: &[Value]) -> Result<(), AllocError>
    ensures { OnOk result (string_bytes text.new ≡ string_bytes text.old ++ listed [] (map view values.now)) }
{
    let mut between = "";
    for value in values {
        text.push_str(between)?;
        add_plain(alloc, text, value)?;
        between = ", ";
    }
    Ok(())
}

fn are_plain(values: &[Value]) -> bool
    ensures { result ≡ list_all (λ v. is_plain (view v)) values.now }
{
    values.iter().all(|value| is_plain(value))
}

fn are_tables(values: &[Value]) -> bool
    ensures { result ≡ list_all (λ v. is_table (view v)) values.now }
{
    values.iter().all(|value| value.is_table())
}

// Adds plain values in brackets.
#[tactic(auto, unfolding(crate::specs::Values::bracketed))]
fn add_bracketed(alloc: Global, text: &mut String, values: &[Value]) -> Result<(), AllocError>
    ensures { OnOk result (string_bytes text.new ≡ string_bytes text.old ++ bracketed (map view values.now)) }
{
    text.push_str("[")?;
    add_listed(alloc, text, values)?;
    text.push_str("]")?;
    Ok(())
}

// Adds a list: what stands in it where that is little, else how many items it has.
#[tactic(auto, using(crate::proofs::Lists::are_plain, crate::proofs::Lists::are_tables, crate::proofs::Lists::are_many), unfolding(crate::specs::Values::list_text))]
fn add_list(alloc: Global, text: &mut String, values: &[Value]) -> Result<(), AllocError>
    ensures { OnOk result (string_bytes text.new ≡ string_bytes text.old ++ list_text (map view values.now)) }
{
    let many = values.len();
    if many <= MANY && are_plain(values) {
        add_bracketed(alloc, text, values)
    } else if are_tables(values) {
        write!(text, "a list of {many} tables")
    } else {
        write!(text, "a list of {many} items")
    }
}

// Adds a value.
#[tactic(auto, using(crate::proofs::Lists::list_of_items_view))]
fn add_value(alloc: Global, text: &mut String, value: &Value) -> Result<(), AllocError>
    ensures { OnOk result (string_bytes text.new ≡ string_bytes text.old ++ value_text (view value.now)) }
{
    if let Some(values) = value.as_array() {
        add_list(alloc, text, values.as_slice())
    } else if value.is_table() {
        text.push_str("a table")
    } else if value.is_float() {
        text.push_str("a number with a fraction")
    } else if value.is_datetime() {
        text.push_str("a date or time")
    } else {
        add_plain(alloc, text, value)
    }
}

/// A value as it is told of an item of a list.
pub fn plain(alloc: Global, value: &Value) -> Result<String, AllocError>
    ensures { IfOk result (λ text. string_bytes text ≡ value_text (view value.now)) }
{
    let mut text = String::new(alloc);
    add_value(alloc, &mut text, value)?;
    Ok(text)
}

// A number, in hexadecimal digits too where it is an index or a station.
fn number(alloc: Global, is_hexadecimal: bool, number: i64) -> Result<String, AllocError>
    ensures { IfOk result (λ text. string_bytes text ≡ number_text is_hexadecimal number) }
{
    match u64::try_from(number) {
        Ok(code) if is_hexadecimal => format!(in alloc; "{code} (0x{code:04x})"),
        _ => format!(in alloc; "{number}"),
    }
}

/// What is found at a key.
pub fn found(alloc: Global, key: &str, value: &Value) -> Result<String, AllocError>
    ensures { IfOk result (λ text. string_bytes text ≡ found_text key.now (view value.now)) }
{
    match value.as_integer() {
        Some(integer) => number(alloc, key == "index" || key == "station", integer),
        None => plain(alloc, value),
    }
}
