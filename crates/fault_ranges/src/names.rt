ghost use Rattle.std.specs.Prelude.{◌≡◌, IfOk, string_bytes, option_map, map};
ghost use Rattle.near_words.specs.Near.{near};

use crate::numbers::has_bootstrap;
use ec_fields::NoMemory;
use fault_kinds::Wrong;
use fault_sites::{Site, items_at, text_at};
use fault_texts::{character, quoted};
use near_words::near;
use scenario_keys::Place;
use std::alloc::{AllocError, Global};
use toml::Value;

// The first character that isn't from `low` to 0x7E, with its place from 1.
fn other_than(text: &str, low: u32) -> Option<(char, usize)> {
    for (number, character) in text.chars().enumerate() {
        let code = u32::from(character);
        if code < low || 0x7E < code {
            return Some((character, number.saturating_add(1)));
        }
    }
    None
}

// What is wrong with the characters of a text.
fn wrong_characters(
    alloc: Global,
    key: &str,
    text: &str,
    most: usize,
    low: u32,
) -> Result<Option<Wrong>, AllocError> {
    if text.chars().count() > most {
        return Ok(Some(Wrong::told(format!(in alloc; "`{key}` is too long")?)));
    }
    let Some((other, place)) = other_than(text, low) else {
        return Ok(None);
    };
    let other = character(alloc, other, place)?;
    Ok(Some(Wrong::told(format!(in alloc; "`{key}` has a character that it can't have: {other}")?)))
}

fn is_named(table: &Value, name: &str) -> bool {
    match table.as_table() {
        Some(table) => text_at(table, "name") == Some(name),
        None => false,
    }
}

// A file whose name one ahead of it has.
fn same_file(alloc: Global, site: &Site, name: &str) -> Result<Option<Wrong>, AllocError> {
    if !matches!(site.place, Place::File(_, _)) {
        return Ok(None);
    }
    let Some(slave) = site.slave() else {
        return Ok(None);
    };
    let mut before = items_at(slave, "file").iter().take(site.number() as usize);
    if !before.any(|file| is_named(file, name)) {
        return Ok(None);
    }
    let name = quoted(alloc, name)?;
    Ok(Some(Wrong::told(format!(in alloc; "two files of the slave have the name {name}")?)))
}

/// What is wrong with a name.
pub(crate) fn wrong_name(
    alloc: Global,
    site: &Site,
    key: &str,
    text: &str,
) -> Result<Option<Wrong>, NoMemory> {
    if text.is_empty() {
        return Ok(Some(Wrong::told(format!(in alloc; "`{key}` is too short")?)));
    }
    match wrong_characters(alloc, key, text, 32, 0x21)? {
        Some(wrong) => Ok(Some(wrong)),
        None => Ok(same_file(alloc, site, text)?),
    }
}

/// What is wrong with a label.
pub(crate) fn wrong_label(alloc: Global, key: &str, text: &str) -> Result<Option<Wrong>, NoMemory> {
    Ok(wrong_characters(alloc, key, text, 40, 0x20)?)
}

/// The word of a list that may have been meant.
pub(crate) fn meant_word(
    alloc: Global,
    words: &[&'static str],
    word: &str,
) -> Result<Option<String>, NoMemory>
    ensures { IfOk result (λ o. option_map string_bytes o ≡ near word.now (map (λ w. w.now) words.now)) }
{
    match near(alloc, words, word)? {
        Some(meant) => Ok(Some(String::from_str(alloc, meant)?)),
        None => Ok(None),
    }
}

/// What is wrong with a word: it is none of those that its key has, or a slave begins in Bootstrap and doesn't have it.
pub(crate) fn wrong_word(
    alloc: Global,
    site: &Site,
    key: &str,
    words: &[&'static str],
    word: &str,
) -> Result<Option<Wrong>, NoMemory> {
    if !words.contains(&word) {
        let mut wrong = Wrong::told(format!(in alloc; "`{key}` has an unknown word")?);
        wrong.meant = meant_word(alloc, words, word)?;
        return Ok(Some(wrong));
    }
    if key == "start" && word == "boot" && !has_bootstrap(site.table) {
        let mut wrong = Wrong::told(format!(in alloc;
            "`{key}` is \"{word}\", but the slave has no Bootstrap"
        )?);
        wrong.remedy = Some(String::from_str(alloc, "boot = true")?);
        return Ok(Some(wrong));
    }
    Ok(None)
}
