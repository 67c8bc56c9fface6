ghost use Rattle.std.specs.Prelude.{◌≡◌, IfOk, IfSome};
ghost use Rattle.toml_places.specs.Cutting.{AreBlocks, IsCut};
ghost use Rattle.toml_places.specs.Places.{IsTurn, IsSpot, IsWrong};

use crate::cutting::{Blocks, blocks_of, is_document};
use crate::items::line_in;
use crate::path::Step;
use crate::seeking::{Sought, halved, told};
use ec_fields::NoMemory;
use std::alloc::Global;
use std::str;

/// Where a path stands in a text: places of octets, counted from 0.
#[derive(Clone, Copy)]
pub struct Spot {
    /// Where the block begins with which the text comes to have the path.
    pub from: usize,
    /// Where that block ends.
    pub to: usize,
    /// Where the line of the path begins.
    pub line: usize,
}

/// What is wrong with octets that are no document.
#[derive(Clone, Copy)]
pub enum Wrong {
    /// They are no text of UTF-8, from this octet on.
    Octet { at: usize },
    /// The line that begins here begins no block up to a place, which is as far as was looked.
    Line { from: usize, seen: usize },
    /// This block is a document by itself, and none behind the blocks before it.
    Block { from: usize, to: usize },
}

// The block with which the front of a text comes to have what is sought.
fn turn(
    alloc: Global,
    text: &[u8],
    blocks: &Blocks,
    sought: Sought,
) -> Result<Option<(usize, usize)>, NoMemory>
    requires { AreBlocks text.now blocks.now.places blocks.now.end }
    ensures { IfOk result (λ o. IfSome o (λ block. IsTurn text.now sought.entry block.0 block.1)) }
{
    let places = blocks.places.as_slice();
    if places.len() < 2 {
        return Ok(None);
    }
    let Some(false) = told(alloc, sought, &text[..places[0]])? else {
        return Ok(None);
    };
    let Some(true) = told(alloc, sought, &text[..places[places.len() - 1]])? else {
        return Ok(None);
    };
    match halved(alloc, text, places, sought)? {
        Some(at) => Ok(Some((places[at], places[at + 1]))),
        None => Ok(None),
    }
}

/// Where a path stands in a text that was cut into blocks; none where it wasn't cut to its end, or doesn't have the path.
pub fn spot_of(
    alloc: Global,
    text: &[u8],
    blocks: &Blocks,
    path: &[Step],
) -> Result<Option<Spot>, NoMemory>
    requires { IsCut text.now blocks.now }
    ensures { IfOk result (λ o. IfSome o (IsSpot text.now path.now)) }
{
    if blocks.end < text.len() {
        return Ok(None);
    }
    match turn(alloc, text, blocks, Sought::Value(path))? {
        Some((from, to)) => {
            let line = line_in(alloc, &text[from..to], path)?;
            Ok(Some(Spot {
                from,
                to,
                line: from + line,
            }))
        }
        None => Ok(None),
    }
}

// What is wrong with a text that is no document.
fn wrong_text(alloc: Global, text: &[u8]) -> Result<Option<Wrong>, NoMemory>
    ensures { IfOk result (λ o. IfSome o (IsWrong text.now)) }
{
    let blocks = blocks_of(alloc, text)?;
    if is_document(alloc, &text[..blocks.end])? {
        return Ok(Some(Wrong::Line {
            from: blocks.end,
            seen: blocks.seen,
        }));
    }
    match turn(alloc, text, &blocks, Sought::Fault)? {
        Some((from, to)) => Ok(Some(Wrong::Block { from, to })),
        None => Ok(None),
    }
}

/// What is wrong with octets that are no document, where it is found.
pub fn wrong_in(alloc: Global, octets: &[u8]) -> Result<Option<Wrong>, NoMemory>
    ensures { IfOk result (λ o. IfSome o (IsWrong octets.now)) }
{
    match str::from_utf8(octets) {
        Ok(_) => wrong_text(alloc, octets),
        Err(error) => Ok(Some(Wrong::Octet {
            at: error.valid_up_to(),
        })),
    }
}
