use crate::kinds::header_of;
use crate::numbers::number_try;
use crate::widths::{number_octets, width_at};
use fault_sites::Site;
use fault_texts::{Row, Shape, add_quoted};
use std::alloc::{AllocError, Global};
use toml::Value;

/// The most pairs that are written out.
const MANY: usize = 8;

// A whole number for a text or for a number whose fraction is 0.
fn whole_try(alloc: Global, key: &str, value: &Value) -> Result<Option<String>, AllocError> {
    if let Some(text) = value.as_str() {
        return number_try(alloc, key, text);
    }
    match value.as_float() {
        Some(number) => fraction_try(alloc, key, number),
        None => Ok(None),
    }
}

// A whole number for one whose fraction is 0.
fn fraction_try(alloc: Global, key: &str, number: f64) -> Result<Option<String>, AllocError> {
    let whole = std::num::saturating_f64_to_i32(number);
    if f64::from(whole) == number {
        Ok(Some(format!(in alloc; "{key} = {whole}")?))
    } else {
        Ok(None)
    }
}

// A text for a number.
fn text_try(alloc: Global, key: &str, value: &Value) -> Result<Option<String>, AllocError> {
    match value.as_integer() {
        Some(number) => Ok(Some(format!(in alloc; "{key} = \"{number}\"")?)),
        None => Ok(None),
    }
}

// What a value means as a truth value.
fn truth_of(value: &Value) -> Option<bool> {
    if let Some(number) = value.as_integer() {
        return match number {
            0 => Some(false),
            1 => Some(true),
            _ => None,
        };
    }
    match value.as_str()? {
        "true" => Some(true),
        "false" => Some(false),
        _ => None,
    }
}

fn truth_try(alloc: Global, key: &str, value: &Value) -> Result<Option<String>, AllocError> {
    match truth_of(value) {
        Some(truth) => Ok(Some(format!(in alloc; "{key} = {truth}")?)),
        None => Ok(None),
    }
}

// A pair of a number twice.
fn pair_try(alloc: Global, key: &str, value: &Value) -> Result<Option<String>, AllocError> {
    match value.as_integer() {
        Some(number) => Ok(Some(format!(in alloc; "{key} = [{number}, {number}]")?)),
        None => Ok(None),
    }
}

// A list of one word.
fn words_try(alloc: Global, key: &str, value: &Value) -> Result<Option<String>, AllocError> {
    let Some(word) = value.as_str() else {
        return Ok(None);
    };
    let mut line = format!(in alloc; "{key} = [")?;
    add_quoted(alloc, &mut line, word)?;
    line.push_str("]")?;
    Ok(Some(line))
}

// The octets of a number, where their width is known.
fn octets_try(
    alloc: Global,
    site: &Site,
    key: &str,
    value: &Value,
) -> Result<Option<String>, AllocError> {
    let (Some(number), Some(data)) = (value.as_integer(), width_at(site, key)) else {
        return Ok(None);
    };
    match number_octets(alloc, data, number)? {
        Some(octets) => Ok(Some(format!(in alloc; "{key} = \"{octets}\"")?)),
        None => Ok(None),
    }
}

/// The pairs of lost frames that are given by their numbers alone.
pub(crate) fn losses_try(alloc: Global, items: &[Value]) -> Result<Option<String>, AllocError> {
    if items.len() > MANY {
        return Ok(None);
    }
    let mut line = String::new(alloc);
    line.push_str("lose = [")?;
    let mut between = "";
    for item in items {
        let Some(frame) = item.as_integer() else {
            return Ok(None);
        };
        write!(line, "{between}[{frame}, 0]")?;
        between = ", ";
    }
    line.push_str("]")?;
    Ok(Some(line))
}

/// What to write for a value of another kind than its key wants.
pub(crate) fn kind_try(
    alloc: Global,
    site: &Site,
    row: &Row,
    value: &Value,
) -> Result<Option<String>, AllocError> {
    let key = row.key;
    match row.shape {
        Shape::Number { .. } => whole_try(alloc, key, value),
        Shape::Bound => whole_try(alloc, key, value),
        Shape::Name => text_try(alloc, key, value),
        Shape::Label => text_try(alloc, key, value),
        Shape::Word(_) => Ok(None),
        Shape::Reference => text_try(alloc, key, value),
        Shape::Truth => truth_try(alloc, key, value),
        Shape::Pair { .. } => pair_try(alloc, key, value),
        Shape::Sizes { .. } => pair_try(alloc, key, value),
        Shape::Octets { .. } => octets_try(alloc, site, key, value),
        Shape::Words(_) => words_try(alloc, key, value),
        Shape::Losses => Ok(None),
        Shape::Tables { .. } => Ok(Some(String::from_str(alloc, header_of(key))?)),
    }
}
