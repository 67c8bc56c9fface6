ghost use Rattle.std.specs.Prelude.{◌≡◌, ◌≤◌, ◌++◌, OnOk, length};
ghost use Rattle.value_texts.specs.Infos.{code_word, code_text, greatest, object_in_words, object_info_text, rights, entry_in_words, entry_info_text};

use crate::texts::{add_octets, add_text};
use crate::types::add_type;
use ec_fields::{NoMemory, Octets, u16_at};
use std::alloc::Global;

/// The octets of an object's description ahead of its name: index, data type, greatest subindex and object code.
const OBJECT: usize = 6;

/// Those of an entry's: index, subindex, value info, data type, bit length and access.
const ENTRY: usize = 10;

// An object code in words, empty where it has none.
fn code_word(code: u8) -> &'static str
    ensures { result.now ≡ code_word code }
{
    match code {
        7 => "variable",
        8 => "array",
        9 => "record",
        _ => "",
    }
}

#[tactic(auto, unfolding(crate::specs::Infos::code_text))]
fn add_code(alloc: Global, line: &mut Octets, code: u8) -> Result<(), NoMemory>
    ensures { OnOk result (line.new ≡ line.old ++ code_text code) }
{
    let word = code_word(code);
    if !word.is_empty() {
        return line.add(word.as_bytes());
    }
    let number = format!(in alloc; "object code {code}")?;
    line.add(number.as_bytes())?;
    Ok(())
}

// How far the subindexes go, and what stands behind it.
#[tactic(auto, unfolding(crate::specs::Infos::greatest))]
fn add_greatest(alloc: Global, line: &mut Octets, sub: u8) -> Result<(), NoMemory>
    ensures { OnOk result (line.new ≡ line.old ++ greatest sub) }
{
    let text = format!(in alloc; ", greatest subindex {sub}, first type ")?;
    line.add(text.as_bytes())?;
    Ok(())
}

#[tactic(auto, unfolding(crate::specs::Infos::object_in_words))]
fn add_object(alloc: Global, line: &mut Octets, octets: &[u8]) -> Result<(), NoMemory>
    requires { 6 ≤ length octets.now }
    ensures { OnOk result (line.new ≡ line.old ++ object_in_words octets.now) }
{
    add_code(alloc, line, octets[5])?;
    line.add(b" ")?;
    add_text(alloc, line, &octets[OBJECT..])?;
    add_greatest(alloc, line, octets[4])?;
    add_type(alloc, line, u16_at(octets, 2))?;
    Ok(())
}

/// What is told of an object (ETG.1000.6, section 5.6.3): `record "Note", greatest subindex 2, first type BOOLEAN`.
#[tactic(auto, unfolding(crate::specs::Infos::object_info_text))]
pub fn add_object_info(alloc: Global, line: &mut Octets, octets: &[u8]) -> Result<(), NoMemory>
    ensures { OnOk result (line.new ≡ line.old ++ object_info_text octets.now) }
{
    if octets.len() < OBJECT {
        add_octets(alloc, line, octets)
    } else {
        add_object(alloc, line, octets)
    }
}

// The bits of an entry, and its access rights.
#[tactic(auto, unfolding(crate::specs::Infos::rights))]
fn add_rights(alloc: Global, line: &mut Octets, bits: u16, access: u16) -> Result<(), NoMemory>
    ensures { OnOk result (line.new ≡ line.old ++ rights bits access) }
{
    let text = format!(in alloc; ", {bits} bits, access {access}")?;
    line.add(text.as_bytes())?;
    Ok(())
}

#[tactic(auto, unfolding(crate::specs::Infos::entry_in_words))]
fn add_entry(alloc: Global, line: &mut Octets, octets: &[u8]) -> Result<(), NoMemory>
    requires { 10 ≤ length octets.now }
    ensures { OnOk result (line.new ≡ line.old ++ entry_in_words octets.now) }
{
    add_type(alloc, line, u16_at(octets, 4))?;
    line.add(b" ")?;
    add_text(alloc, line, &octets[ENTRY..])?;
    add_rights(alloc, line, u16_at(octets, 6), u16_at(octets, 8))?;
    Ok(())
}

/// What is told of an entry: `BOOLEAN "", 8 bits, access 7`.
#[tactic(auto, unfolding(crate::specs::Infos::entry_info_text))]
pub fn add_entry_info(alloc: Global, line: &mut Octets, octets: &[u8]) -> Result<(), NoMemory>
    ensures { OnOk result (line.new ≡ line.old ++ entry_info_text octets.now) }
{
    if octets.len() < ENTRY {
        add_octets(alloc, line, octets)
    } else {
        add_entry(alloc, line, octets)
    }
}
