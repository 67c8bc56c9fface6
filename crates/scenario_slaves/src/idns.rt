ghost use Rattle.std.specs.Prelude.{◌≡◌, ◌≤◌, [], map, length, IfOk, All, true};
ghost use Rattle.std.specs.List.{list_any};
ghost use Rattle.toml.specs.View.{table_view};
ghost use Rattle.scenario_values.specs.of_segment_plan.Sound.{has_key, is_new_idn, are_new_idns, IsIdn};
ghost use Rattle.scenario_values.specs.of_scenario_keys.Reading.{Gives};
ghost use Rattle.scenario_slaves.specs.Idns.{drive_at, idn_of, idns_of};

use ec_fields::Rows;
use idn_table::IdnSpec;
use scenario_keys::{
    Place, Rule, Stop, bool_or_false, integer_or, needed_integer, needed_sizes, only_known, put,
    some_label, unless,
};
use scenario_values::{bounded_value, bounds};
use std::alloc::Global;
use toml::Table;

/// The keys of an IDN.
const KEYS: &[&str] = &[
    "number",
    "drive",
    "attribute",
    "label",
    "unit",
    "size",
    "min",
    "max",
    "writable",
    "value",
];

fn has_idn(before: &[IdnSpec], drive: u8, number: u16) -> bool
    ensures { result ≡ list_any (has_key drive number) before.now }
{
    before
        .iter()
        .any(|idn| idn.drive == drive && idn.number == number)
}

fn is_new_idn(before: &[IdnSpec], drive: u8, number: u16) -> bool
    ensures { result ≡ is_new_idn before.now drive number }
{
    !has_idn(before, drive, number)
}

/// A drive at which no IDN before has the number.
fn new_drive(table: &Table, before: &[IdnSpec], number: u16, place: Place) -> Result<u8, Stop>
    ensures gives { Gives (λ n. n) result (drive_at before.now number place (table_view table.now)) }
    ensures within { IfOk result (λ n. n ≤ 7) }
    ensures new { IfOk result (λ n. is_new_idn before.now n number ≡ true) }
{
    let drive = needed_integer(table, "drive", 0, 7, place)? as u8;
    unless(is_new_idn(before, drive, number), Rule::OutOfRange, place)?;
    Ok(drive)
}

#[tactic(auto, unfolding(crate::specs::Idns::idn_of))]
fn idn(alloc: Global, table: &Table, before: &[IdnSpec], place: Place) -> Result<IdnSpec, Stop>
    ensures gives { Gives (λ i. i) result (idn_of before.now place (table_view table.now)) }
    ensures sound { IfOk result IsIdn }
    ensures new { IfOk result (λ i. is_new_idn before.now i.drive i.number ≡ true) }
{
    only_known(table, KEYS, place)?;
    let number = needed_integer(table, "number", 0, 0xFFFF, place)? as u16;
    let drive = new_drive(table, before, number, place)?;
    let attribute = integer_or(table, "attribute", 0, 0, 0xFFFF_FFFF, place)?;
    let label = some_label(alloc, table, "label", place)?;
    let unit = some_label(alloc, table, "unit", place)?;
    let (least, most) = needed_sizes(table, "size", 1, 4096, place)?;
    let (min, max) = bounds(table, least, most, place)?;
    let writable = bool_or_false(table, "writable", place)?;
    let value = bounded_value(alloc, table, (least, most), (min, max), place)?;
    Ok(IdnSpec {
        drive,
        number,
        attribute: attribute as u32,
        label,
        unit,
        least: least as u32,
        most: most as u32,
        min,
        max,
        writable,
        value,
    })
}

/// The IDNs of a slave, each drive and number once.
pub(crate) fn idns(alloc: Global, tables: &[&Table], slave: u32) -> Result<Rows<IdnSpec>, Stop>
    requires { length tables.now ≤ 256 }
    ensures gives { Gives (λ is. is) result (idns_of slave (map (λ t. table_view t.now) tables.now)) }
    ensures many { IfOk result (λ is. length is ≡ length tables.now) }
    ensures sound { IfOk result (All IsIdn) }
    ensures once { IfOk result (λ is. are_new_idns [] is ≡ true) }
{
    let mut rows = Rows::new(alloc);
    for (i, table) in tables.iter().enumerate() {
        let row = idn(alloc, table, rows.as_slice(), Place::Idn(slave, i as u32))?;
        put(&mut rows, row)?;
    }
    Ok(rows)
}
