ghost use Rattle.std.specs.Prelude.{◌≡◌, ◌≤◌, ◌<◌, map, length, IfOk, IfSome, All, true, IsTrue};
ghost use Rattle.toml.specs.View.{table_view};
ghost use Rattle.segment_plan.specs.of_object_dictionary.Sound.{is_object, is_rising};
ghost use Rattle.scenario_keys.specs.Reading.{Gives};
ghost use Rattle.scenario_values.specs.Objects.{code_of, code_at, is_index, index_at, is_many, entry_tables_at, sized, object_of, objects_of};
ghost use Rattle.segment_plan.specs.Sound.{IsEntry, is_code, kept, IsObject, indexes};

use crate::entries::entries;
use crate::tables::needed_tables;
use ec_fields::Rows;
use object_dictionary::are_small;
use scenario_keys::{
    Place, Rule, Stop, label_or_none, needed_integer, needed_text, only_known, put, refused, unless,
};
use segment_plan::ObjectSpec;
use std::alloc::Global;
use toml::Table;

/// The object code of a variable.
const VARIABLE: u8 = 7;
/// The profile's object for emergencies.
const EMERGENCY: u64 = 0x2F00;
/// The profile's object for packets.
const PACKET: u64 = 0x2F01;

fn object_code(kind: &str) -> Option<u8>
    ensures gives { result ≡ code_of kind.now }
    ensures within { IfSome result (λ n. is_code n ≡ true) }
{
    if kind == "variable" {
        Some(7)
    } else if kind == "array" {
        Some(8)
    } else if kind == "record" {
        Some(9)
    } else {
        None
    }
}

fn needed_code(table: &Table, place: Place) -> Result<u8, Stop>
    ensures gives { Gives (λ n. n) result (code_at place (table_view table.now)) }
    ensures within { IfOk result (λ n. is_code n ≡ true) }
{
    match object_code(needed_text(table, "kind", place)?) {
        Some(code) => Ok(code),
        None => Err(refused(Rule::OutOfRange, place)),
    }
}

/// Whether objects of a scenario may have this index behind one with the index `before`.
fn is_index_after(before: u64, index: u64) -> bool
    ensures { result ≡ is_index before index }
{
    before < index && index != EMERGENCY && index != PACKET
}

fn rising_index(table: &Table, before: u16, place: Place) -> Result<u16, Stop>
    ensures gives { Gives (λ n. n) result (index_at before place (table_view table.now)) }
    ensures within { IfOk result (λ n. (1 ≤ n) × (n ≤ 0xFFFF) × IsTrue (is_index before n)) }
{
    let index = needed_integer(table, "index", 1, 0xFFFF, place)?;
    unless(
        is_index_after(u64::from(before), index),
        Rule::OutOfRange,
        place,
    )?;
    Ok(index as u16)
}

/// Whether an object of this code may have so many entries.
fn is_many(code: u8, count: usize) -> bool
    ensures gives { result ≡ is_many code count }
    ensures some { result ≡ true → 1 ≤ count }
    ensures one { result ≡ true → code ≡ 7 → count ≤ 1 }
{
    if code == VARIABLE {
        count == 1
    } else {
        1 <= count
    }
}

fn entry_tables(alloc: Global, table: &Table, code: u8, place: Place) -> Result<Vec<&Table>, Stop>
    ensures gives { Gives (λ ts. map (λ t. table_view t.now) ts.items) result (entry_tables_at code place (table_view table.now)) }
    ensures within { IfOk result (λ ts. (1 ≤ length ts.items) × (length ts.items ≤ 254)) }
    ensures one { IfOk result (λ ts. code ≡ 7 → length ts.items ≤ 1) }
{
    let tables = needed_tables(alloc, table, "entry", 254, place)?;
    unless(is_many(code, tables.len()), Rule::OutOfRange, place)?;
    Ok(tables)
}

#[tactic(auto, using(crate::proofs::SoundObjects::object_sound))]
fn sized(object: ObjectSpec, place: Place) -> Result<ObjectSpec, Stop>
    requires some { 1 ≤ length object.entries }
    requires few { length object.entries ≤ 254 }
    requires one { object.code ≡ 7 → length object.entries ≤ 1 }
    requires name { length object.name ≤ 40 }
    requires small { All IsEntry object.entries }
    ensures gives { Gives (λ o. o) result (sized place object) }
    ensures same { IfOk result (λ o. o ≡ object) }
    ensures sound { IfOk result (λ o. is_object (kept o) ≡ true) }
{
    let small = are_small(object.entries.as_slice());
    unless(small, Rule::TooMany, place)?;
    Ok(object)
}

#[tactic(auto, unfolding(crate::specs::Objects::object_of))]
fn object(
    alloc: Global,
    table: &Table,
    slave: u32,
    number: u32,
    before: u16,
) -> Result<ObjectSpec, Stop>
    ensures gives { Gives (λ o. o) result (object_of slave number before (table_view table.now)) }
    ensures sound { IfOk result IsObject }
    ensures rising { IfOk result (λ o. before < o.index) }
{
    let place = Place::Object(slave, number);
    only_known(table, &["index", "kind", "name", "entry"], place)?;
    let index = rising_index(table, before, place)?;
    let code = needed_code(table, place)?;
    let name = label_or_none(alloc, table, "name", place)?;
    let tables = entry_tables(alloc, table, code, place)?;
    let entries = entries(alloc, tables.as_slice(), slave, number, code)?;
    let object = ObjectSpec {
        index,
        code,
        name,
        entries,
    };
    sized(object, place)
}

/// The objects of a slave, their indexes rising.
pub fn objects(alloc: Global, tables: &[&Table], slave: u32) -> Result<Rows<ObjectSpec>, Stop>
    requires { length tables.now ≤ 256 }
    ensures gives { Gives (λ os. os) result (objects_of slave (map (λ t. table_view t.now) tables.now)) }
    ensures many { IfOk result (λ os. length os ≡ length tables.now) }
    ensures sound { IfOk result (All IsObject) }
    ensures rising { IfOk result (λ os. is_rising (indexes os) ≡ true) }
{
    let mut rows = Rows::new(alloc);
    let mut before = 0;
    for (i, table) in tables.iter().enumerate() {
        let row = object(alloc, table, slave, i as u32, before)?;
        before = row.index;
        put(&mut rows, row)?;
    }
    Ok(rows)
}
