ghost use Rattle.std.specs.Prelude.{◌≡◌, option_copied, map, IfOk};
ghost use Rattle.std.specs.List.{list_any};
ghost use Rattle.toml.specs.View.{table_view};
ghost use Rattle.fault_texts.specs.Rows.{asked};
ghost use Rattle.fault_sites.specs.Keys.{is_this, is_known, unknown_key, is_spare, spare_keys};

use crate::rows::is_asked;
use crate::site::{Site, text_at};
use fault_texts::{Kind, Row, rows_of};
use scenario_keys::{Place, find};
use std::alloc::{AllocError, Global};

// Whether a table may have a key of these.
fn is_among(site: &Site, rows: &[Row], key: &str) -> bool
    ensures { result ≡ list_any (λ row. is_this (table_view site.now.document.now) site.now.place (table_view site.now.table.now) key.now (asked row)) rows.now }
{
    rows.iter()
        .any(|row| row.key == key && is_asked(site, row.key))
}

// Whether a table may have a key.
fn is_known(site: &Site, key: &str) -> bool
    ensures { result ≡ is_known (table_view site.now.document.now) site.now.place (table_view site.now.table.now) key.now }
{
    is_among(site, rows_of(site.kind()), key)
}

/// The first key of a table that it may not have.
#[tactic(auto, unfolding(crate::specs::Keys::unknown_key))]
pub fn unknown_key<'a>(site: &Site<'a>) -> Option<&'a str>
    ensures { option_copied result ≡ unknown_key (table_view site.now.document.now) site.now.place (table_view site.now.table.now) }
{
    for (key, _) in site.table.iter() {
        if !is_known(site, key.as_str()) {
            return Some(key.as_str());
        }
    }
    None
}

// Whether a table may have a key and doesn't.
#[tactic(auto, unfolding(crate::specs::Keys::is_spare))]
fn is_spare(site: &Site, row: &Row) -> bool
    ensures { result ≡ is_spare (table_view site.now.document.now) site.now.place (table_view site.now.table.now) (asked row.now) }
{
    is_asked(site, row.key) && find(site.table, row.key).is_none()
}

/// The keys that a table may have and doesn't.
#[tactic(auto, unfolding(crate::specs::Keys::spare_keys))]
pub fn spare_keys(alloc: Global, site: &Site) -> Result<Vec<&'static str>, AllocError>
    ensures { IfOk result (λ keys. map (λ key. key.now) keys.items ≡ spare_keys (table_view site.now.document.now) site.now.place (table_view site.now.table.now)) }
{
    let mut keys = Vec::new(alloc);
    for row in rows_of(site.kind()) {
        if is_spare(site, row) {
            keys.push(row.key)?;
        }
    }
    Ok(keys)
}

/// The headers of the tables below the top.
const HEADERS: &[(Kind, &str)] = &[
    (Kind::Slave, "[[slave]]"),
    (Kind::Object, "[[slave.object]]"),
    (Kind::Entry, "[[slave.object.entry]]"),
    (Kind::File, "[[slave.file]]"),
    (Kind::Idn, "[[slave.idn]]"),
    (Kind::Service, "[[service]]"),
    (Kind::Host, "[[host]]"),
];

fn has_key(kind: Kind, key: &str) -> bool {
    rows_of(kind).iter().any(|row| row.key == key)
}

// The header of the first kind of table that has a key.
fn header_of(key: &str) -> Option<&'static str> {
    for (kind, header) in HEADERS {
        if has_key(*kind, key) {
            return Some(*header);
        }
    }
    None
}

// Why a key stands wrong that a table of another kind has.
fn why_elsewhere(alloc: Global, key: &str) -> Result<Option<String>, AllocError> {
    if has_key(Kind::Top, key) {
        return Ok(Some(format!(in alloc;
            "`{key}` is a key of the top: it stands ahead of the first table in brackets"
        )?));
    }
    match header_of(key) {
        Some(header) => Ok(Some(format!(in alloc;
            "`{key}` is a key of a table {header}: its header is missing above"
        )?)),
        None => Ok(None),
    }
}

/// Why a table may not have a key that some table has: a key of another version, of another service or of another kind of table.
pub fn why_unknown(alloc: Global, site: &Site, key: &str) -> Result<Option<String>, AllocError> {
    match site.place {
        Place::Slave(_) if key == "pace" => Ok(Some(format!(in alloc;
            "`pace` is a key of version 2: write version = 2"
        )?)),
        Place::Service(_) if has_key(Kind::Service, key) => {
            let action = text_at(site.table, "do").unwrap_or("this service");
            Ok(Some(format!(in alloc; "`{key}` isn't a key of {action}")?))
        }
        _ => why_elsewhere(alloc, key),
    }
}
