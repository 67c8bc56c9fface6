ghost use Rattle.std.specs.Prelude.{◌≡◌, ◌≤◌, ◌++◌, OnOk, length};
ghost use Rattle.std.specs.Option.{option_copied};
ghost use Rattle.value_texts.specs.Idns.{idn_in, element_word, element_text, is_number, has_number, number_text, attribute_text, idn_text};

use crate::texts::{add_octets, add_text};
use crate::types::add_number;
use byteorder::{ByteOrder, LittleEndian};
use ec_fields::{NoMemory, Octets, u32_at};
use idn_table::IdnSpec;
use segment_plan::SlaveSpec;
use std::alloc::Global;

// An element of an IDN by its flag (ETG.1000.6, section 5.10), empty where the flags are not one.
fn element_word(elements: u8) -> &'static str
    ensures { result.now ≡ element_word elements }
{
    match elements {
        0x01 => "state",
        0x02 => "name",
        0x04 => "attribute",
        0x08 => "unit",
        0x10 => "minimum",
        0x20 => "maximum",
        0x40 => "value",
        _ => "",
    }
}

/// An element of an IDN in words, or the flags where they are not one.
#[tactic(auto, unfolding(crate::specs::Idns::element_text))]
pub fn add_element(alloc: Global, line: &mut Octets, elements: u8) -> Result<(), NoMemory>
    ensures { OnOk result (line.new ≡ line.old ++ element_text elements) }
{
    let word = element_word(elements);
    if !word.is_empty() {
        return line.add(word.as_bytes());
    }
    let flags = format!(in alloc; "elements 0x{elements:02x}")?;
    line.add(flags.as_bytes())?;
    Ok(())
}

// The IDN of a slave's plan that has a drive and a number.
fn idn_in(slave: &SlaveSpec, drive: u8, number: u16) -> Option<&IdnSpec>
    ensures { option_copied result ≡ idn_in slave.now drive number }
{
    slave
        .idns
        .as_slice()
        .iter()
        .find(|idn| idn.drive == drive && idn.number == number)
}

// Whether so many octets are a number of an IDN: one size of up to 8 octets, which they have.
fn is_number(idn: &IdnSpec, size: usize) -> bool
    ensures { result ≡ is_number idn.now size }
{
    idn.least == idn.most && idn.most as usize == size && 1 <= size && size <= 8
}

fn has_number(slave: &SlaveSpec, drive: u8, number: u16, size: usize) -> bool
    ensures number { result ≡ has_number slave.now drive number size }
{
    match idn_in(slave, drive, number) {
        Some(idn) => is_number(idn, size),
        None => false,
    }
}

// A value or bound: a number where its size is fixed and has so many octets.
#[tactic(auto, unfolding(crate::specs::Idns::number_text))]
fn add_bound(
    alloc: Global,
    line: &mut Octets,
    is_number: bool,
    octets: &[u8],
) -> Result<(), NoMemory>
    ensures { OnOk result (line.new ≡ line.old ++ number_text is_number octets.now) }
{
    if is_number && 1 <= octets.len() && octets.len() <= 8 {
        add_number(alloc, line, LittleEndian::read_uint(octets, octets.len()))
    } else {
        add_octets(alloc, line, octets)
    }
}

#[tactic(auto, unfolding(crate::specs::Idns::attribute_text))]
fn add_attribute(alloc: Global, line: &mut Octets, octets: &[u8]) -> Result<(), NoMemory>
    ensures { OnOk result (line.new ≡ line.old ++ attribute_text octets.now) }
{
    if octets.len() != 4 {
        return add_octets(alloc, line, octets);
    }
    let attribute = u32_at(octets, 0);
    let text = format!(in alloc; "0x{attribute:08x}")?;
    line.add(text.as_bytes())?;
    Ok(())
}

/// An element of an IDN: name and unit as texts, the attribute in hexadecimal digits, value and bounds as a number where the plan gives
/// the IDN one size of up to 8 octets; else the octets.
#[tactic(auto, unfolding(crate::specs::Idns::idn_text))]
pub fn add_idn_value(
    alloc: Global,
    line: &mut Octets,
    slave: &SlaveSpec,
    drive: u8,
    number: u16,
    elements: u8,
    octets: &[u8],
) -> Result<(), NoMemory>
    ensures { OnOk result (line.new ≡ line.old ++ idn_text slave.now drive number elements octets.now) }
{
    match elements {
        0x02 | 0x08 => add_text(alloc, line, octets),
        0x04 => add_attribute(alloc, line, octets),
        0x10 | 0x20 | 0x40 => {
            let is_number = has_number(slave, drive, number, octets.len());
            add_bound(alloc, line, is_number, octets)
        }
        _ => add_octets(alloc, line, octets),
    }
}
