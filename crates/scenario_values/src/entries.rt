ghost use Rattle.std.specs.Prelude.{◌≡◌, ◌≤◌, ◌==◌, ◌||◌, map, length, IfOk, All, None, true};
ghost use Rattle.toml.specs.View.{table_view};
ghost use Rattle.segment_plan.specs.of_object_dictionary.Entries.{is_text, size_of_kind, is_entry, bound_refusal};
ghost use Rattle.segment_plan.specs.Sound.{is_kind, IsEntry};
ghost use Rattle.scenario_keys.specs.Reading.{Gives};
ghost use Rattle.scenario_values.specs.Entries.{is_wanted, kind_at, string_sizes_at, number_sizes_at, entry_sizes_at, no_bound_at, bound_at, are_bounds, bounds_at, bounded, entry_of, kind_behind, entries_of};

use crate::octets::needed_octets;
use ec_fields::Rows;
use object_dictionary::{EntrySpec, is_string, size_of_kind};
use scenario_keys::{
    Place, Rule, Stop, label_or_none, needed_integer, needed_sizes, no_number, no_pair,
    number_or_none, only_known, put, unless,
};
use std::alloc::Global;
use toml::Table;

/// The object code of an array.
const ARRAY: u8 = 8;

fn is_kind(kind: u64) -> bool
    ensures { result ≡ is_kind kind }
{
    (1 <= kind && kind <= 7) || kind == 9 || kind == 10 || kind == 21 || kind == 27
}

fn is_wanted(before: Option<u16>, kind: u64) -> bool
    ensures { result ≡ is_wanted before kind }
{
    match before {
        None => true,
        Some(before) => kind == u64::from(before),
    }
}

fn entry_kind(table: &Table, before: Option<u16>, place: Place) -> Result<u16, Stop>
    ensures gives { Gives (λ n. n) result (kind_at before place (table_view table.now)) }
    ensures within { IfOk result (λ n. is_kind n ≡ true) }
{
    let kind = needed_integer(table, "type", 0, 0xFFFF, place)?;
    let taken = is_kind(kind) && is_wanted(before, kind);
    unless(taken, Rule::OutOfRange, place)?;
    Ok(kind as u16)
}

fn string_sizes(table: &Table, place: Place) -> Result<(u32, u32), Stop>
    ensures gives { Gives (λ p. p) result (string_sizes_at place (table_view table.now)) }
    ensures within { IfOk result (λ p. (1 ≤ p.0) × (p.0 ≤ p.1) × (p.1 ≤ 8000)) }
{
    let (least, most) = needed_sizes(table, "size", 1, 8000, place)?;
    Ok((least as u32, most as u32))
}

fn number_sizes(table: &Table, kind: u16, place: Place) -> Result<(u32, u32), Stop>
    ensures gives { Gives (λ p. p) result (number_sizes_at kind place (table_view table.now)) }
    ensures within { IfOk result (λ p. (p.0 ≡ size_of_kind kind) × (p.1 ≡ size_of_kind kind)) }
{
    no_pair(table, "size", place)?;
    let size = size_of_kind(kind);
    Ok((size, size))
}

fn entry_sizes(table: &Table, kind: u16, place: Place) -> Result<(u32, u32), Stop>
    ensures gives { Gives (λ p. p) result (entry_sizes_at kind place (table_view table.now)) }
    ensures within { IfOk result (λ p. (1 ≤ p.0) × (p.0 ≤ p.1) × (p.1 ≤ 8000)) }
    ensures fixed { IfOk result (λ p. (is_text kind || p.1 == size_of_kind kind) ≡ true) }
{
    if is_string(kind) {
        string_sizes(table, place)
    } else {
        number_sizes(table, kind, place)
    }
}

fn no_bound(table: &Table, key: &str, place: Place) -> Result<Option<i128>, Stop>
    ensures { Gives (λ n. n) result (no_bound_at key.now place (table_view table.now)) }
{
    no_number(table, key, place)?;
    Ok(None)
}

fn bound(table: &Table, key: &str, kind: u16, place: Place) -> Result<Option<i128>, Stop>
    ensures { Gives (λ n. n) result (bound_at key.now kind place (table_view table.now)) }
{
    if is_string(kind) {
        no_bound(table, key, place)
    } else {
        number_or_none(table, key, place)
    }
}

fn are_bounds(min: Option<i128>, max: Option<i128>) -> bool
    ensures { result ≡ are_bounds min max }
{
    match (min, max) {
        (Some(least), Some(most)) => least <= most,
        (Some(_), None) => true,
        (None, _) => true,
    }
}

type Bounds = (Option<i128>, Option<i128>);

fn bounds(table: &Table, kind: u16, place: Place) -> Result<Bounds, Stop>
    ensures { Gives (λ p. p) result (bounds_at kind place (table_view table.now)) }
{
    let min = bound(table, "min", kind, place)?;
    let max = bound(table, "max", kind, place)?;
    unless(are_bounds(min, max), Rule::OutOfRange, place)?;
    Ok((min, max))
}

fn bounded(entry: EntrySpec, place: Place) -> Result<EntrySpec, Stop>
    requires { is_entry entry ≡ true }
    ensures gives { Gives (λ e. e) result (bounded place entry) }
    ensures within { IfOk result (λ e. (e ≡ entry) × (bound_refusal e e.value ≡ None)) }
{
    unless(entry.refuses_value().is_none(), Rule::OutOfRange, place)?;
    Ok(entry)
}

#[tactic(auto, unfolding(crate::specs::Entries::entry_of))]
fn entry(alloc: Global, table: &Table, before: Option<u16>, place: Place) -> Result<EntrySpec, Stop>
    ensures gives { Gives (λ e. e) result (entry_of before place (table_view table.now)) }
    ensures sound { IfOk result IsEntry }
{
    let known = &["type", "access", "size", "min", "max", "name", "value"];
    only_known(table, known, place)?;
    let kind = entry_kind(table, before, place)?;
    let access = needed_integer(table, "access", 0, 1023, place)?;
    let (least, most) = entry_sizes(table, kind, place)?;
    let (min, max) = bounds(table, kind, place)?;
    let name = label_or_none(alloc, table, "name", place)?;
    let value = needed_octets(alloc, table, "value", least as usize, most as usize, place)?;
    let entry = EntrySpec {
        kind,
        access: access as u16,
        least,
        most,
        min,
        max,
        name,
        value,
    };
    bounded(entry, place)
}

/// The type that the entry behind this one has to have.
fn kind_behind(code: u8, entry: &EntrySpec) -> Option<u16>
    ensures { result ≡ kind_behind code entry.now }
{
    if code == ARRAY {
        Some(entry.kind)
    } else {
        None
    }
}

/// The entries of an object, in an array all of one type.
pub(crate) fn entries(
    alloc: Global,
    tables: &[&Table],
    slave: u32,
    object: u32,
    code: u8,
) -> Result<Rows<EntrySpec>, Stop>
    requires { length tables.now ≤ 254 }
    ensures gives { Gives (λ es. es) result (entries_of slave object code (map (λ t. table_view t.now) tables.now)) }
    ensures many { IfOk result (λ es. length es ≡ length tables.now) }
    ensures sound { IfOk result (All IsEntry) }
{
    let mut rows = Rows::new(alloc);
    let mut before = None;
    for (i, table) in tables.iter().enumerate() {
        let row = entry(alloc, table, before, Place::Entry(slave, object, i as u32))?;
        before = kind_behind(code, &row);
        put(&mut rows, row)?;
    }
    Ok(rows)
}
