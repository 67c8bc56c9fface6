ghost use Rattle.std.specs.Prelude.{◌≡◌, ◌≤◌, ◌<◌, ◌++◌, OnOk, IfOk, length};
ghost use Rattle.service_texts.specs.Emergencies.{class_at, class_of, bit_word, has_bit, bit_item, bits_below, register_text, code_text, number_text, head_text, whole_text, emergency_text};

use code_texts::emergency_class;
use ec_fields::{NoMemory, Octets, u16_at};
use std::alloc::Global;
use value_texts::{add_octets, behind_comma};

/// The octets of an emergency: code, error register and five of the device's own.
const SIZE: usize = 8;

// The class of a high octet, empty where it has none.
#[tactic(auto, unfolding(crate::specs::Emergencies::class_at))]
fn class_at(alloc: Global, octet: u8) -> Result<&'static str, NoMemory>
    ensures { IfOk result (λ class. class.now ≡ class_at octet) }
{
    let digits = format!(in alloc; "{octet:02x}")?;
    emergency_class(alloc, digits.as_str())
}

// The class of a code by its high octet, or else by that one's high digit.
#[tactic(auto, unfolding(crate::specs::Emergencies::class_of))]
fn class_of(alloc: Global, octet: u8) -> Result<&'static str, NoMemory>
    ensures { IfOk result (λ class. class.now ≡ class_of octet) }
{
    let own = class_at(alloc, octet)?;
    if !own.is_empty() {
        return Ok(own);
    }
    let wider = class_at(alloc, octet / 16 * 16)?;
    if !wider.is_empty() {
        return Ok(wider);
    }
    Ok("unknown class")
}

// The word of a bit of the error register, from the lowest on (CiA 301, object 1001).
fn bit_word(bit: usize) -> &'static str
    ensures { result.now ≡ bit_word bit }
{
    match bit {
        0 => "generic",
        1 => "current",
        2 => "voltage",
        3 => "temperature",
        4 => "communication",
        5 => "device profile",
        6 => "reserved",
        _ => "manufacturer",
    }
}

fn has_bit(register: u8, bit: usize) -> bool
    requires { bit < 8 }
    ensures { result ≡ has_bit register bit }
{
    (register >> bit) % 2 == 1
}

// A bit of the error register with a comma ahead, where it is set.
#[tactic(auto, unfolding(crate::specs::Emergencies::bit_item))]
fn add_bit(line: &mut Octets, register: u8, bit: usize) -> Result<(), NoMemory>
    requires { bit < 8 }
    ensures { OnOk result (line.new ≡ line.old ++ bit_item register bit) }
{
    if !has_bit(register, bit) {
        return Ok(());
    }
    line.add(b", ")?;
    line.add(bit_word(bit).as_bytes())?;
    Ok(())
}

#[tactic(auto, unfolding(crate::specs::Emergencies::bits_below))]
fn add_bits(line: &mut Octets, register: u8) -> Result<(), NoMemory>
    ensures { OnOk result (line.new ≡ line.old ++ bits_below register 8) }
{
    for bit in 0..8 {
        add_bit(line, register, bit)?;
    }
    Ok(())
}

// The error register in words.
#[tactic(auto, unfolding(crate::specs::Emergencies::register_text))]
fn add_register(alloc: Global, line: &mut Octets, register: u8) -> Result<(), NoMemory>
    ensures { OnOk result (line.new ≡ line.old ++ register_text register) }
{
    if register == 0 {
        return line.add(b"clear");
    }
    let mut bits = Octets::new(alloc);
    add_bits(&mut bits, register)?;
    line.add(behind_comma(bits.bytes()))?;
    Ok(())
}

#[tactic(auto, unfolding(crate::specs::Emergencies::code_text))]
fn add_code(alloc: Global, line: &mut Octets, code: u16) -> Result<(), NoMemory>
    ensures { OnOk result (line.new ≡ line.old ++ code_text code) }
{
    let text = format!(in alloc; "emergency {code:04x}: ")?;
    line.add(text.as_bytes())?;
    Ok(())
}

#[tactic(auto, unfolding(crate::specs::Emergencies::number_text))]
fn add_number(alloc: Global, line: &mut Octets, register: u8) -> Result<(), NoMemory>
    ensures { OnOk result (line.new ≡ line.old ++ number_text register) }
{
    let text = format!(in alloc; "{register:02x}: ")?;
    line.add(text.as_bytes())?;
    Ok(())
}

fn add_head(alloc: Global, line: &mut Octets, code: u16, register: u8) -> Result<(), NoMemory>
    ensures { OnOk result (line.new ≡ line.old ++ head_text code register) }
{
    let class = class_of(alloc, (code / 256) as u8)?;
    add_code(alloc, line, code)?;
    line.add(class.as_bytes())?;
    line.add(b"; error register ")?;
    add_number(alloc, line, register)?;
    add_register(alloc, line, register)?;
    Ok(())
}

#[tactic(auto, unfolding(crate::specs::Emergencies::whole_text))]
fn add_whole(alloc: Global, line: &mut Octets, octets: &[u8]) -> Result<(), NoMemory>
    requires { 8 ≤ length octets.now }
    ensures { OnOk result (line.new ≡ line.old ++ whole_text octets.now) }
{
    add_head(alloc, line, u16_at(octets, 0), octets[2])?;
    line.add(b"; ")?;
    add_octets(alloc, line, &octets[3..])?;
    Ok(())
}

/// An emergency by its class and its error register: `emergency 8130: communication; error register 11: generic, communication; octets 0000000000`. Of
/// fewer octets than one has, the octets.
#[tactic(auto, unfolding(crate::specs::Emergencies::emergency_text))]
pub fn add_emergency(alloc: Global, line: &mut Octets, octets: &[u8]) -> Result<(), NoMemory>
    ensures { OnOk result (line.new ≡ line.old ++ emergency_text octets.now) }
{
    if octets.len() < SIZE {
        add_octets(alloc, line, octets)
    } else {
        add_whole(alloc, line, octets)
    }
}
