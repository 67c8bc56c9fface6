ghost use Rattle.std.specs.Prelude.{◌≡◌, ◌++◌, OnOk};
ghost use Rattle.value_texts.specs.Values.{typed, value_text};

use crate::texts::add_octets;
use crate::types::{add_note, add_plain, read_as};
use ec_fields::{NoMemory, Octets};
use std::alloc::Global;

// A value of a data type, with the type where it doesn't show it.
#[tactic(auto, unfolding(crate::specs::Values::typed))]
fn add_typed(alloc: Global, line: &mut Octets, kind: u16, octets: &[u8]) -> Result<(), NoMemory>
    ensures { OnOk result (line.new ≡ line.old ++ typed kind octets.now) }
{
    let reading = read_as(kind, octets);
    add_plain(alloc, line, reading, octets)?;
    add_note(alloc, line, reading, kind)?;
    Ok(())
}

/// A value by its data type, where that is known and has so many octets: a number as `1000 (UNSIGNED16)`, a BOOLEAN as `true (BOOLEAN)`, a
/// VISIBLE_STRING as a text in quotes; else its octets.
#[tactic(auto, unfolding(crate::specs::Values::value_text))]
pub fn add_value(
    alloc: Global,
    line: &mut Octets,
    kind: Option<u16>,
    octets: &[u8],
) -> Result<(), NoMemory>
    ensures { OnOk result (line.new ≡ line.old ++ value_text kind octets.now) }
{
    match kind {
        Some(kind) => add_typed(alloc, line, kind, octets),
        None => add_octets(alloc, line, octets),
    }
}
