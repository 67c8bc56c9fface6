ghost use Rattle.std.specs.Prelude.{◌≡◌, ◌++◌, OnOk, IfOk};
ghost use Rattle.std.specs.Option.{option_copied};
ghost use Rattle.value_texts.specs.Names.{object_in, own_name, is_count, place_of, entry_of, object_name, name_in, own_entry, entry_name, own_kind, kind_in, kind_at, gap, joined, in_quotes, object_text, names_text};

use crate::texts::add_quoted;
use ec_fields::{NoMemory, Octets};
use object_dictionary::EntrySpec;
use segment_plan::{ObjectSpec, SlaveSpec};
use std::alloc::Global;

/// The slave's own object whose download emits an emergency.
const EMERGENCY: u16 = 0x2F00;

/// And the one whose download emits a packet, of a slave that serves EoE.
const PACKET: u16 = 0x2F01;

/// The object code of a variable.
const VARIABLE: u8 = 7;

/// The data types of a number of entries and of what the own objects take.
const UNSIGNED8: u16 = 5;

const OCTET_STRING: u16 = 10;

/// The object of a slave's plan that has an index.
pub(crate) fn object_in(slave: &SlaveSpec, index: u16) -> Option<&ObjectSpec>
    ensures { option_copied result ≡ object_in slave.now index }
{
    slave
        .objects
        .as_slice()
        .iter()
        .find(|object| object.index == index)
}

// The name of an object of the slave's own, empty where it is none.
#[tactic(auto, unfolding(crate::specs::Names::own_name))]
fn own_name(slave: &SlaveSpec, index: u16) -> &'static [u8]
    ensures { result.now ≡ own_name slave.now index }
{
    if slave.coe && index == EMERGENCY {
        b"Emergency"
    } else if slave.coe && slave.eoe && index == PACKET {
        b"Packet"
    } else {
        b""
    }
}

// Whether a subindex is that of the number of entries.
fn is_count(object: &ObjectSpec, sub: u8) -> bool
    ensures { result ≡ is_count object.now sub }
{
    object.code != VARIABLE && sub == 0
}

// Where the entry of a subindex stands that isn't the number of entries.
fn place_of(object: &ObjectSpec, sub: u8) -> usize
    ensures { result ≡ place_of object.now sub }
{
    if object.code == VARIABLE {
        sub as usize
    } else {
        (sub as usize).saturating_sub(1)
    }
}

fn entry_of(object: &ObjectSpec, sub: u8) -> Option<&EntrySpec>
    ensures { option_copied result ≡ entry_of object.now sub }
{
    object.entries.get(place_of(object, sub))
}

/// The name of an object, empty where it has none.
#[tactic(auto, unfolding(crate::specs::Names::object_name))]
fn object_name(slave: &SlaveSpec, index: u16) -> &[u8]
    ensures { result.now ≡ object_name slave.now index }
{
    match object_in(slave, index) {
        Some(object) => object.name.bytes(),
        None => own_name(slave, index),
    }
}

// The name of an entry of an object of the plan, empty where it has none.
#[tactic(auto, unfolding(crate::specs::Names::name_in))]
fn name_in(object: &ObjectSpec, sub: u8) -> &[u8]
    ensures { result.now ≡ name_in object.now sub }
{
    if is_count(object, sub) {
        return b"count";
    }
    match entry_of(object, sub) {
        Some(entry) => entry.name.bytes(),
        None => b"",
    }
}

// The name of an entry of an object of the slave's own.
#[tactic(auto, unfolding(crate::specs::Names::own_entry))]
fn own_entry(slave: &SlaveSpec, index: u16, sub: u8) -> &'static [u8]
    ensures { result.now ≡ own_entry slave.now index sub }
{
    if !own_name(slave, index).is_empty() && sub == 0 {
        b"count"
    } else {
        b""
    }
}

/// The name of an entry, empty where it has none.
#[tactic(auto, unfolding(crate::specs::Names::entry_name))]
fn entry_name(slave: &SlaveSpec, index: u16, sub: u8) -> &[u8]
    ensures { result.now ≡ entry_name slave.now index sub }
{
    match object_in(slave, index) {
        Some(object) => name_in(object, sub),
        None => own_entry(slave, index, sub),
    }
}

// The data type of an entry of an object of the slave's own: the number of its entries, or what its download emits.
#[tactic(auto, unfolding(crate::specs::Names::own_kind))]
fn own_kind(slave: &SlaveSpec, index: u16, sub: u8) -> Option<u16>
    ensures { result ≡ own_kind slave.now index sub }
{
    if own_name(slave, index).is_empty() {
        None
    } else if sub == 0 {
        Some(UNSIGNED8)
    } else if sub == 1 {
        Some(OCTET_STRING)
    } else {
        None
    }
}

// The data type of an entry of an object of the plan.
#[tactic(auto, unfolding(crate::specs::Names::kind_in))]
fn kind_in(object: &ObjectSpec, sub: u8) -> Option<u16>
    ensures { result ≡ kind_in object.now sub }
{
    if is_count(object, sub) {
        return Some(UNSIGNED8);
    }
    match entry_of(object, sub) {
        Some(entry) => Some(entry.kind),
        None => None,
    }
}

/// The data type of the entry of an index and subindex in a slave's plan, None where it has no such entry.
#[tactic(auto, unfolding(crate::specs::Names::kind_at))]
pub fn kind_at(slave: &SlaveSpec, index: u16, sub: u8) -> Option<u16>
    ensures { result ≡ kind_at slave.now index sub }
{
    match object_in(slave, index) {
        Some(object) => kind_in(object, sub),
        None => own_kind(slave, index, sub),
    }
}

// A blank between two names that are there.
#[tactic(auto, unfolding(crate::specs::Names::gap))]
fn gap(name: &[u8], other: &[u8]) -> &'static [u8]
    ensures { result.now ≡ gap name.now other.now }
{
    if name.is_empty() || other.is_empty() {
        b""
    } else {
        b" "
    }
}

// Two names with a blank between them where both are there.
#[tactic(auto, unfolding(crate::specs::Names::joined))]
fn joined(alloc: Global, name: &[u8], other: &[u8]) -> Result<Octets, NoMemory>
    ensures { IfOk result (λ both. both ≡ joined name.now other.now) }
{
    let mut both = Octets::copy_of(alloc, name)?;
    both.add(gap(name, other))?;
    both.add(other)?;
    Ok(both)
}

// A name in quotes behind a blank, where there is one.
#[tactic(auto, unfolding(crate::specs::Names::in_quotes))]
fn add_name(alloc: Global, line: &mut Octets, name: &[u8]) -> Result<(), NoMemory>
    ensures { OnOk result (line.new ≡ line.old ++ in_quotes name.now) }
{
    if name.is_empty() {
        return Ok(());
    }
    line.add(b" ")?;
    add_quoted(alloc, line, name)?;
    Ok(())
}

/// The name of an object in quotes behind a blank, where it has one.
#[tactic(auto, unfolding(crate::specs::Names::object_text))]
pub fn add_object_name(
    alloc: Global,
    line: &mut Octets,
    slave: &SlaveSpec,
    index: u16,
) -> Result<(), NoMemory>
    ensures { OnOk result (line.new ≡ line.old ++ object_text slave.now index) }
{
    add_name(alloc, line, object_name(slave, index))
}

/// The names of an object and its entry in quotes behind a blank, where one of them is there.
#[tactic(auto, unfolding(crate::specs::Names::names_text))]
pub fn add_names(
    alloc: Global,
    line: &mut Octets,
    slave: &SlaveSpec,
    index: u16,
    sub: u8,
) -> Result<(), NoMemory>
    ensures { OnOk result (line.new ≡ line.old ++ names_text slave.now index sub) }
{
    let both = joined(
        alloc,
        object_name(slave, index),
        entry_name(slave, index, sub),
    )?;
    add_name(alloc, line, both.bytes())
}
