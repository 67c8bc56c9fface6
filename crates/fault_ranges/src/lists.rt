use crate::names::meant_word;
use crate::numbers::is_within;
use ec_fields::NoMemory;
use fault_kinds::{Found, Wrong, header_of, pair_of};
use fault_sites::{Site, text_at};
use fault_texts::quoted;
use scenario_keys::Place;
use std::alloc::{AllocError, Global};
use toml::Value;

// A word that is none of those that a list may have.
fn unknown_word(
    alloc: Global,
    key: &str,
    words: &[&'static str],
    word: &str,
) -> Result<Wrong, NoMemory> {
    let told = quoted(alloc, word)?;
    let mut wrong = Wrong::told(format!(in alloc; "`{key}` has an unknown word: {told}")?);
    wrong.meant = meant_word(alloc, words, word)?;
    Ok(wrong)
}

// Whether a word stands among those ahead of an item.
fn stands_before(items: &[Value], number: usize, word: &str) -> bool {
    items
        .iter()
        .take(number)
        .any(|item| item.as_str() == Some(word))
}

/// What is wrong with a list of words: one is unknown, or one stands twice.
pub(crate) fn wrong_words(
    alloc: Global,
    key: &str,
    words: &[&'static str],
    items: &[Value],
) -> Result<Option<Wrong>, NoMemory> {
    for (number, item) in items.iter().enumerate() {
        let Some(word) = item.as_str() else {
            return Ok(None);
        };
        if !words.contains(&word) {
            return Ok(Some(unknown_word(alloc, key, words, word)?));
        }
        if stands_before(items, number, word) {
            return Ok(Some(Wrong::told(format!(in alloc; "`{key}` has a word twice")?)));
        }
    }
    Ok(None)
}

// A lost frame whose numbers are out of range.
fn wrong_loss(alloc: Global, key: &str, number: usize) -> Result<Wrong, AllocError> {
    let place = number.saturating_add(1);
    let mut wrong = Wrong::told(format!(in alloc; "pair {place} of `{key}` is out of range")?);
    wrong.found = Found::Item(u32::try_from(number).unwrap_or(0));
    Ok(wrong)
}

/// What is wrong with the numbers of lost frames.
pub(crate) fn wrong_losses(
    alloc: Global,
    key: &str,
    items: &[Value],
) -> Result<Option<Wrong>, NoMemory> {
    for (number, item) in items.iter().enumerate() {
        let Some((first, second)) = pair_of(item) else {
            return Ok(None);
        };
        if !is_within(first, 0, 0xFFFF_FFFF) || !is_within(second, 0, 0xFFFF_FFFF) {
            return Ok(Some(wrong_loss(alloc, key, number)?));
        }
    }
    Ok(None)
}

fn is_variable(site: &Site) -> bool {
    match site.place {
        Place::Object(_, _) => text_at(site.table, "kind") == Some("variable"),
        _ => false,
    }
}

/// What is wrong with the number of tables: there is none where one is needed, or a variable has several entries.
pub(crate) fn wrong_count(
    alloc: Global,
    site: &Site,
    key: &str,
    count: usize,
) -> Result<Option<Wrong>, NoMemory> {
    if count == 0 && (key == "slave" || key == "entry") {
        let header = header_of(key);
        return Ok(Some(Wrong::told(format!(in alloc;
            "one table {header} is needed, and there is none"
        )?)));
    }
    if key == "entry" && count > 1 && is_variable(site) {
        return Ok(Some(Wrong::told(format!(in alloc;
            "a variable has one entry, and there are {count}"
        )?)));
    }
    Ok(None)
}
