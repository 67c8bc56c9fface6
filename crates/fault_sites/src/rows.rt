ghost use Rattle.std.specs.Prelude.{◌≡◌, option_map, map};
ghost use Rattle.std.specs.List.{list_any};
ghost use Rattle.std.specs.Str.{bytes_eq};
ghost use Rattle.toml.specs.View.{table_view};
ghost use Rattle.fault_sites.specs.Keys.{is_second, is_of_keys, service_keys, is_asked};

use crate::site::{Site, is_number, number_at, text_at};
use fault_texts::{keys_of, rows_of};
use scenario_keys::Place;
use std::alloc::{AllocError, Global};
use toml::Table;

// Whether a scenario is of version 2.
fn is_second(document: &Table) -> bool
    ensures { result ≡ is_second (table_view document.now) }
{
    is_number(number_at(document, "version"), 2)
}

// Whether a key is one of these.
fn is_one_of(keys: &[&str], key: &str) -> bool
    ensures { result ≡ list_any (λ k. bytes_eq k key.now) (map (λ k. k.now) keys.now) }
{
    keys.contains(&key)
}

// Whether a key is one of a service of these keys; of one whose word isn't known, whether each service has it.
fn is_of_keys(keys: Option<&[&str]>, key: &str) -> bool
    ensures { result ≡ is_of_keys (option_map (λ ks. map (λ k. k.now) ks.now) keys.entry) key.now }
{
    match keys {
        Some(keys) => is_one_of(keys, key),
        None => key == "slave" || key == "do",
    }
}

// The keys of a service, where its word of `do` is known.
fn service_keys(service: &Table) -> Option<&'static [&'static str]>
    ensures { option_map (λ ks. map (λ k. k.now) ks.now) result ≡ service_keys (table_view service.now) }
{
    match text_at(service, "do") {
        Some(action) => keys_of(action),
        None => None,
    }
}

/// Whether a table may have a key of its kind.
pub fn is_asked(site: &Site, key: &str) -> bool
    ensures { result ≡ is_asked (table_view site.now.document.now) site.now.place (table_view site.now.table.now) key.now }
{
    match site.place {
        Place::Slave(_) => key != "pace" || is_second(site.document),
        Place::Service(_) => is_of_keys(service_keys(site.table), key),
        _ => true,
    }
}

/// The keys that a table may have.
pub fn known_keys(alloc: Global, site: &Site) -> Result<Vec<&'static str>, AllocError> {
    let mut keys = Vec::new(alloc);
    for row in rows_of(site.kind()) {
        if is_asked(site, row.key) {
            keys.push(row.key)?;
        }
    }
    Ok(keys)
}
