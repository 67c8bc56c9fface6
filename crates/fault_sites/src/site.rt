ghost use Rattle.std.specs.Prelude.{◌≡◌, option_copied, option_map, IfOk, IfSome};
ghost use Rattle.toml.specs.View.{items_view, table_view};
ghost use Rattle.fault_sites.specs.Values.{text_at, number_at, items_at, is_text, is_number};
ghost use Rattle.fault_sites.specs.Places.{path_of, members_at, kind_of};

use crate::paths::path_of;
use ec_fields::NoMemory;
use fault_texts::Kind;
use scenario_keys::{Place, find};
use std::alloc::Global;
use toml::{Table, Value};
use toml_places::{Step, value_at};

/// A table of a scenario.
#[derive(Clone, Copy)]
pub struct Site<'a> {
    /// The whole document.
    pub document: &'a Table,
    /// The table.
    pub table: &'a Table,
    /// Where it stands.
    pub place: Place,
}

/// The items of a key's list; none where it has no list.
pub fn items_at<'a>(table: &'a Table, key: &str) -> &'a [Value]
    ensures { items_view result.now ≡ items_at key.now (table_view table.now) }
{
    match find(table, key) {
        Some(value) => match value.as_array() {
            Some(items) => items.as_slice(),
            None => &[],
        },
        None => &[],
    }
}

/// A table of a key's list, by its number from 0.
pub fn item<'a>(table: &'a Table, key: &str, number: u32) -> Option<&'a Table> {
    items_at(table, key).get(number as usize)?.as_table()
}

/// The text of a key.
pub fn text_at<'a>(table: &'a Table, key: &str) -> Option<&'a str>
    ensures { option_copied result ≡ text_at key.now (table_view table.now) }
{
    match find(table, key) {
        Some(value) => value.as_str(),
        None => None,
    }
}

/// The whole number of a key.
pub fn number_at(table: &Table, key: &str) -> Option<i64>
    ensures { result ≡ number_at key.now (table_view table.now) }
{
    match find(table, key) {
        Some(value) => value.as_integer(),
        None => None,
    }
}

/// Whether a text that may be there is this one.
pub fn is_text(text: Option<&str>, word: &str) -> bool
    ensures { result ≡ is_text (option_copied text.entry) word.now }
{
    match text {
        Some(text) => text == word,
        None => false,
    }
}

/// Whether a number that may be there is this one.
pub fn is_number(number: Option<i64>, other: i64) -> bool
    ensures { result ≡ is_number number other }
{
    match number {
        Some(number) => number == other,
        None => false,
    }
}

// The table to which a path leads.
fn table_at<'a>(document: &'a Table, path: &[Step]) -> Option<&'a Table>
    ensures { option_map (λ t. table_view t.now) result ≡ members_at (table_view document.now) path.now }
{
    match path {
        [] => Some(document),
        [_, ..] => match value_at(document, path) {
            Some(value) => value.as_table(),
            None => None,
        },
    }
}

impl<'a> Site<'a> {
    /// The table at a place, where it is one.
    pub fn at(
        alloc: Global,
        document: &'a Table,
        place: Place,
    ) -> Result<Option<Site<'a>>, NoMemory>
        ensures table { IfOk result (λ o. option_map (λ s. table_view s.table.now) o ≡ members_at (table_view document.now) (path_of place)) }
        ensures same { IfOk result (λ o. IfSome o (λ s. (s.place ≡ place) × (table_view s.document.now ≡ table_view document.now))) }
    {
        let path = path_of(alloc, place)?;
        match table_at(document, path.as_slice()) {
            Some(table) => Ok(Some(Site {
                document,
                table,
                place,
            })),
            None => Ok(None),
        }
    }

    /// What the table is of.
    pub fn kind(&self) -> Kind
        ensures { result ≡ kind_of self.now.place }
    {
        match self.place {
            Place::Top => Kind::Top,
            Place::Slave(_) => Kind::Slave,
            Place::Object(_, _) => Kind::Object,
            Place::Entry(_, _, _) => Kind::Entry,
            Place::File(_, _) => Kind::File,
            Place::Idn(_, _) => Kind::Idn,
            Place::Service(_) => Kind::Service,
            Place::Host(_) => Kind::Host,
        }
    }

    /// The table of the slave in which it stands.
    pub fn slave(&self) -> Option<&'a Table> {
        match self.place {
            Place::Slave(slave) => item(self.document, "slave", slave),
            Place::Object(slave, _) => item(self.document, "slave", slave),
            Place::Entry(slave, _, _) => item(self.document, "slave", slave),
            Place::File(slave, _) => item(self.document, "slave", slave),
            Place::Idn(slave, _) => item(self.document, "slave", slave),
            _ => None,
        }
    }

    /// Its number in its list, from 0.
    pub fn number(&self) -> u32 {
        match self.place {
            Place::Top => 0,
            Place::Slave(slave) => slave,
            Place::Object(_, object) => object,
            Place::Entry(_, _, entry) => entry,
            Place::File(_, file) => file,
            Place::Idn(_, idn) => idn,
            Place::Service(service) => service,
            Place::Host(packet) => packet,
        }
    }
}
