ghost use Rattle.std.specs.Prelude.{◌≡◌, ◌≤◌, length, IfOk, IfSome, IfNone, option_copied};
ghost use Rattle.toml_places.specs.Items.{is_listed, own_path, is_closed, IsItemLine, HasNoItem, IsLineIn};

use crate::document::document_in;
use crate::lines::line_end;
use crate::path::{Step, value_at};
use crate::seeking::{Sought, told};
use ec_fields::{NoMemory, Octets};
use std::alloc::Global;

// Whether a path leads through a list.
fn is_listed(path: &[Step]) -> bool
    ensures { result ≡ is_listed path.now }
{
    path.iter().any(|step| matches!(step, Step::Item(_)))
}

// The end of a path that a block has by itself: what stands ahead of it leads to the block's table.
fn own_path<'a>(
    alloc: Global,
    block: &[u8],
    path: &'a [Step],
) -> Result<Option<&'a [Step]>, NoMemory>
    ensures { IfOk result (λ o. option_copied o ≡ own_path block.now path.now) }
{
    let Some(table) = document_in(alloc, block)? else {
        return Ok(None);
    };
    let mut own = path;
    while let [_, behind @ ..] = own {
        if value_at(&table, own).is_some() {
            return Ok(Some(own));
        }
        own = behind;
    }
    Ok(None)
}

// Whether the first lines of a block are a document that has a path, where a line `]` follows them.
fn is_closed(alloc: Global, front: &[u8], path: &[Step]) -> Result<bool, NoMemory>
    ensures { IfOk result (λ b. b ≡ is_closed path.now front.now) }
{
    let mut closed = Octets::copy_of(alloc, front)?;
    closed.add(b"]")?;
    let has = told(alloc, Sought::Value(path), closed.bytes())?;
    Ok(has.unwrap_or(false))
}

// Where the first line of a block begins with which the list of a path is long enough to have it.
fn item_line(alloc: Global, block: &[u8], path: &[Step]) -> Result<Option<usize>, NoMemory>
    ensures found { IfOk result (λ o. IfSome o (IsItemLine block.now path.now)) }
    ensures none { IfOk result (λ o. IfNone o (HasNoItem block.now path.now)) }
{
    let mut from = 0;
    while from < block.len() {
        let end = line_end(block, from);
        if is_closed(alloc, &block[..end], path)? {
            return Ok(Some(from));
        }
        from = end;
    }
    Ok(None)
}

/// Where the line of a path begins in its block: the block's first one, or the one of an item where the path leads through a list over
/// several lines.
pub(crate) fn line_in(alloc: Global, block: &[u8], path: &[Step]) -> Result<usize, NoMemory>
    ensures line { IfOk result (IsLineIn block.now path.now) }
    ensures within { IfOk result (λ line. line ≤ length block.now) }
{
    match own_path(alloc, block, path)? {
        Some(own) if is_listed(own) => Ok(item_line(alloc, block, own)?.unwrap_or(0)),
        _ => Ok(0),
    }
}
