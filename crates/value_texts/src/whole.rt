ghost use Rattle.std.specs.Prelude.{◌≡◌, ◌≤◌, ◌++◌, OnOk, length};
ghost use Rattle.value_texts.specs.Whole.{fits, item, values_text, counted, items_text, whole_in, whole_text};

use crate::names::object_in;
use crate::texts::{add_octets, behind_comma, cut_at};
use crate::types::{add_number, add_plain, read_as};
use ec_fields::{NoMemory, Octets, u16_at};
use object_dictionary::EntrySpec;
use segment_plan::{ObjectSpec, SlaveSpec};
use std::alloc::Global;

/// The object code of a variable, which has no complete access.
const VARIABLE: u8 = 7;

// Whether so many octets are those of entries that all have fixed sizes.
fn fits(entries: &[EntrySpec], size: usize) -> bool
    ensures { result ≡ fits entries.now size }
{
    let mut left = size;
    for entry in entries {
        if entry.least != entry.most || left < entry.most as usize {
            return false;
        }
        left -= entry.most as usize;
    }
    left == 0
}

// The values of entries that stand one behind the other, each with a comma ahead.
fn add_values(
    alloc: Global,
    line: &mut Octets,
    entries: &[EntrySpec],
    octets: &[u8],
) -> Result<(), NoMemory>
    ensures { OnOk result (line.new ≡ line.old ++ values_text entries.now octets.now) }
{
    let mut left = octets;
    for entry in entries {
        let (value, behind) = cut_at(left, entry.most as usize);
        add_item(alloc, line, entry.kind, value)?;
        left = behind;
    }
    Ok(())
}

// A value without its type, with a comma ahead.
#[tactic(auto, unfolding(crate::specs::Whole::item))]
fn add_item(alloc: Global, line: &mut Octets, kind: u16, octets: &[u8]) -> Result<(), NoMemory>
    ensures { OnOk result (line.new ≡ line.old ++ item kind octets.now) }
{
    line.add(b", ")?;
    add_plain(alloc, line, read_as(kind, octets), octets)?;
    Ok(())
}

// The number of entries, and their values.
#[tactic(auto, unfolding(crate::specs::Whole::counted))]
fn add_counted(
    alloc: Global,
    line: &mut Octets,
    entries: &[EntrySpec],
    octets: &[u8],
) -> Result<(), NoMemory>
    requires { 2 ≤ length octets.now }
    ensures { OnOk result (line.new ≡ line.old ++ counted entries.now octets.now) }
{
    line.add(b"count ")?;
    add_number(alloc, line, u64::from(u16_at(octets, 0)))?;
    add_values(alloc, line, entries, &octets[2..])?;
    Ok(())
}

// The values of entries alone.
#[tactic(auto, unfolding(crate::specs::Whole::items_text))]
fn add_items(
    alloc: Global,
    line: &mut Octets,
    entries: &[EntrySpec],
    octets: &[u8],
) -> Result<(), NoMemory>
    ensures { OnOk result (line.new ≡ line.old ++ items_text entries.now octets.now) }
{
    let mut items = Octets::new(alloc);
    add_values(alloc, &mut items, entries, octets)?;
    line.add(behind_comma(items.bytes()))?;
    Ok(())
}

// An array or record by complete access.
#[tactic(auto, unfolding(crate::specs::Whole::whole_in))]
fn add_whole_in(
    alloc: Global,
    line: &mut Octets,
    object: &ObjectSpec,
    from: u8,
    octets: &[u8],
) -> Result<(), NoMemory>
    ensures { OnOk result (line.new ≡ line.old ++ whole_in object.now from octets.now) }
{
    let entries = object.entries.as_slice();
    if object.code == VARIABLE {
        add_octets(alloc, line, octets)
    } else if from == 0 && 2 <= octets.len() && fits(entries, octets.len() - 2) {
        add_counted(alloc, line, entries, octets)
    } else if from == 1 && fits(entries, octets.len()) {
        add_items(alloc, line, entries, octets)
    } else {
        add_octets(alloc, line, octets)
    }
}

/// The values of an object by complete access from subindex 0 or 1 on, where all its entries have fixed sizes and the octets are as many;
/// else the octets. From subindex 0 on the number of entries goes ahead.
#[tactic(auto, unfolding(crate::specs::Whole::whole_text))]
pub fn add_whole(
    alloc: Global,
    line: &mut Octets,
    slave: &SlaveSpec,
    index: u16,
    from: u8,
    octets: &[u8],
) -> Result<(), NoMemory>
    ensures { OnOk result (line.new ≡ line.old ++ whole_text slave.now index from octets.now) }
{
    match object_in(slave, index) {
        Some(object) => add_whole_in(alloc, line, object, from, octets),
        None => add_octets(alloc, line, octets),
    }
}
