ghost use Rattle.std.specs.Prelude.{◌≡◌, ◌++◌, IfOk, OnOk};
ghost use Rattle.entry_lines.specs.Values.{entry_text, least_text, range_text, values_text, typed, wanted, bad_what_line, bad_value_line};

use ec_fields::{NoMemory, Octets};
use entry_words::{below, most};
use std::alloc::Global;
use value_texts::{add_quoted, add_type};

/// The line of a word that asks for neither an entry nor a file.
#[tactic(auto, unfolding(crate::specs::Values::bad_what_line))]
pub fn bad_what(alloc: Global, word: &str) -> Result<Octets, NoMemory>
    ensures { IfOk result (λ line. line ≡ bad_what_line word.now) }
{
    let mut line = Octets::new(alloc);
    add_quoted(alloc, &mut line, word.as_bytes())?;
    line.add(b" is neither an entry, 2100:01 in hexadecimal digits, nor file:NAME\n")?;
    Ok(line)
}

// An entry by its index and subindex.
fn add_entry(alloc: Global, line: &mut Octets, index: u16, sub: u8) -> Result<(), NoMemory>
    ensures { OnOk result (line.new ≡ line.old ++ entry_text index sub) }
{
    let digits = format!(in alloc; "{index:04x}:{sub:02x}")?;
    line.add(digits.as_bytes())?;
    Ok(())
}

// The least number of a data type.
#[tactic(auto, unfolding(crate::specs::Values::least_text))]
fn add_least(alloc: Global, line: &mut Octets, kind: u16) -> Result<(), NoMemory>
    ensures { OnOk result (line.new ≡ line.old ++ least_text kind) }
{
    let below = below(kind);
    if below == 0 {
        return line.add(b"0");
    }
    let digits = format!(in alloc; "-{below}")?;
    line.add(digits.as_bytes())?;
    Ok(())
}

// The numbers of a data type.
#[tactic(auto, unfolding(crate::specs::Values::range_text))]
fn add_range(alloc: Global, line: &mut Octets, kind: u16) -> Result<(), NoMemory>
    ensures { OnOk result (line.new ≡ line.old ++ range_text kind) }
{
    let most = most(kind);
    let end = format!(in alloc; " to {most} (or hexadecimal, 0x..)")?;
    line.add(b"a number from ")?;
    add_least(alloc, line, kind)?;
    line.add(end.as_bytes())?;
    Ok(())
}

// The values of a data type.
#[tactic(auto, unfolding(crate::specs::Values::values_text))]
fn add_values(alloc: Global, line: &mut Octets, kind: u16) -> Result<(), NoMemory>
    ensures { OnOk result (line.new ≡ line.old ++ values_text kind) }
{
    match kind {
        1 => line.add(b"true or false"),
        9 => line.add(b"a text of 1 to 8000 octets"),
        10 => line.add(b"pairs of hexadecimal digits, 1 to 8000 octets"),
        _ => add_range(alloc, line, kind),
    }
}

// A data type and its values.
#[tactic(auto, unfolding(crate::specs::Values::typed))]
fn add_typed(alloc: Global, line: &mut Octets, kind: u16) -> Result<(), NoMemory>
    ensures { OnOk result (line.new ≡ line.old ++ typed kind) }
{
    add_type(alloc, line, kind)?;
    line.add(b", ")?;
    add_values(alloc, line, kind)?;
    Ok(())
}

// What an entry wants, by its data type.
#[tactic(auto, unfolding(crate::specs::Values::wanted))]
fn add_wanted(alloc: Global, line: &mut Octets, kind: Option<u16>) -> Result<(), NoMemory>
    ensures { OnOk result (line.new ≡ line.old ++ wanted kind) }
{
    match kind {
        Some(kind) => add_typed(alloc, line, kind),
        None => line.add(b"hex: and the octets, since the scenario has no such entry"),
    }
}

/// The line of a value that isn't what an entry of this data type wants, or of none that the plan has.
#[tactic(auto, unfolding(crate::specs::Values::bad_value_line))]
pub fn bad_value(
    alloc: Global,
    index: u16,
    sub: u8,
    kind: Option<u16>,
    word: &str,
) -> Result<Octets, NoMemory>
    ensures { IfOk result (λ line. line ≡ bad_value_line index sub kind word.now) }
{
    let mut line = Octets::copy_of(alloc, b"the value ")?;
    add_quoted(alloc, &mut line, word.as_bytes())?;
    line.add(b" isn't what ")?;
    add_entry(alloc, &mut line, index, sub)?;
    line.add(b" wants: ")?;
    add_wanted(alloc, &mut line, kind)?;
    line.add(b"\n")?;
    Ok(line)
}
