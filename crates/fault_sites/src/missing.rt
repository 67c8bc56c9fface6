ghost use Rattle.std.specs.Prelude.{◌≡◌, option_copied, option_map};
ghost use Rattle.std.specs.List.{list_any};
ghost use Rattle.toml.specs.View.{table_view, view};
ghost use Rattle.toml.specs.Data.{as_str};
ghost use Rattle.fault_texts.specs.Rows.{asked};
ghost use Rattle.fault_sites.specs.Values.{is_text, is_served, is_of_texts};
ghost use Rattle.fault_sites.specs.Keys.{is_needed, is_missing, missing_key};

use crate::rows::is_asked;
use crate::site::{Site, is_number, is_text, items_at, number_at};
use ec_fields::NoMemory;
use fault_texts::{Need, Row, rows_of};
use near_words::near;
use scenario_keys::find;
use std::alloc::Global;
use toml::{Table, Value};

// Whether a value is a word.
fn is_word(value: &Value, word: &str) -> bool
    ensures { result ≡ is_text (as_str (view value.now)) word.now }
{
    is_text(value.as_str(), word)
}

// Whether a word stands among values.
fn has_word(values: &[Value], word: &str) -> bool
    ensures { result ≡ list_any (λ v. is_text (as_str (view v)) word.now) values.now }
{
    values.iter().any(|value| is_word(value, word))
}

/// Whether a slave serves a protocol.
pub fn is_served(slave: &Table, protocol: &str) -> bool
    ensures { result ≡ is_served protocol.now (table_view slave.now) }
{
    has_word(items_at(slave, "serves"), protocol)
}

// Whether an entry is of texts or octets, which have sizes of their own.
#[tactic(auto, unfolding(crate::specs::Values::is_of_texts))]
fn is_of_texts(entry: &Table) -> bool
    ensures { result ≡ is_of_texts (table_view entry.now) }
{
    let number = number_at(entry, "type");
    is_number(number, 9) || is_number(number, 10)
}

// Whether a table needs a key.
fn is_needed(need: Need, table: &Table) -> bool
    ensures { result ≡ is_needed need (table_view table.now) }
{
    match need {
        Need::Always => true,
        Need::Optional => false,
        Need::OfEoe => is_served(table, "eoe"),
        Need::OfTexts => is_of_texts(table),
    }
}

// Whether a table needs a key and doesn't have it.
#[tactic(auto, unfolding(crate::specs::Keys::is_missing))]
fn is_missing(site: &Site, row: &Row) -> bool
    ensures { result ≡ is_missing (table_view site.now.document.now) site.now.place (table_view site.now.table.now) (asked row.now) }
{
    is_asked(site, row.key)
        && is_needed(row.need, site.table)
        && find(site.table, row.key).is_none()
}

/// The first key that a table needs and doesn't have.
#[tactic(auto, unfolding(crate::specs::Keys::missing_key))]
pub fn missing_row(site: &Site) -> Option<&'static Row>
    ensures { option_map (λ row. asked row.now) result ≡ missing_key (table_view site.now.document.now) site.now.place (table_view site.now.table.now) }
{
    for row in rows_of(site.kind()) {
        if is_missing(site, row) {
            return Some(row);
        }
    }
    None
}

// Whether a kind of table has a key.
fn is_of_kind(site: &Site, key: &str) -> bool {
    rows_of(site.kind()).iter().any(|row| row.key == key)
}

/// The first unknown key of a table that may have been meant as this one.
pub fn near_key<'a>(
    alloc: Global,
    site: &Site<'a>,
    wanted: &str,
) -> Result<Option<&'a str>, NoMemory> {
    for (key, _) in site.table.iter() {
        if !is_of_kind(site, key.as_str()) && near(alloc, &[wanted], key.as_str())?.is_some() {
            return Ok(Some(key.as_str()));
        }
    }
    Ok(None)
}
