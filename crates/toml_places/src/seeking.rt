ghost use Rattle.std.specs.Prelude.{◌≡◌, ℕ, ◌-◌, ◌<◌, ◌≤◌, length, slice_index, take, Some, true, false, IfOk, IfSome};
ghost use Rattle.toml_places.specs.Seeking.{told, Turns};

use crate::document::document_in;
use crate::path::{Step, value_at};
use ec_fields::NoMemory;
use std::alloc::Global;

/// What is sought in a text: from some place on, the front of the text has it.
#[derive(Clone, Copy)]
pub(crate) enum Sought<'a> {
    /// The value at a path.
    Value(&'a [Step]),
    /// That it is no document.
    Fault,
}

/// Whether the front of a text has what is sought; none where it is no document, and so has no values.
pub(crate) fn told(alloc: Global, sought: Sought, front: &[u8]) -> Result<Option<bool>, NoMemory>
    ensures { IfOk result (λ b. b ≡ told sought.entry front.now) }
{
    let table = document_in(alloc, front)?;
    match sought {
        Sought::Fault => Ok(Some(table.is_none())),
        Sought::Value(path) => match table {
            Some(table) => Ok(Some(value_at(&table, path).is_some())),
            None => Ok(None),
        },
    }
}

/// The number of the block with which the front of a text comes to have what is sought, by halving. Up to the first of the places it isn't
/// there, and up to the last it is. None where a front is no document.
pub(crate) fn halved(
    alloc: Global,
    text: &[u8],
    places: &[usize],
    sought: Sought,
) -> Result<Option<usize>, NoMemory>
    requires many { 1 < length places.now }
    requires within { (k : ℕ) → k < length places.now → slice_index places.now k ≤ length text.now }
    requires before { told sought (take (slice_index places.now 0) text.now) ≡ Some false }
    requires behind { told sought (take (slice_index places.now (length places.now - 1)) text.now) ≡ Some true }
    ensures { IfOk result (λ o. IfSome o (Turns text.now places.now sought.entry)) }
{
    let mut low = 0;
    let mut high = places.len() - 1;
    while high - low > 1 {
        let middle = low + (high - low) / 2;
        match told(alloc, sought, &text[..places[middle]])? {
            Some(true) => high = middle,
            Some(false) => low = middle,
            None => return Ok(None),
        }
    }
    Ok(Some(low))
}
