ghost use Rattle.std.specs.Prelude.{◌≡◌, ◌+◌, ◌≤◌, List, ℕ, ◌++◌, length, drop, Ok, IfOk};
ghost use Rattle.capture_blocks.specs.Block.{Block, IsBlock, block_text, size_of, least_of, magic_in, order_in, block_read};

use crate::order::{Order, u32_in};

/// The type of a section header.
pub const SECTION: u32 = 0x0a0d_0d0a;

/// The type of an interface description.
pub const INTERFACE: u32 = 1;

/// The type of the obsolete packet block.
pub const OLD_PACKET: u32 = 2;

/// The type of the simple packet block.
pub const SIMPLE_PACKET: u32 = 3;

/// The type of interface statistics.
pub const STATISTICS: u32 = 5;

/// The type of the enhanced packet block.
pub const PACKET: u32 = 6;

const MAGIC: u32 = 0x1a2b_3c4d;

/// How many octets a block has besides its body.
const BESIDE_BODY: usize = 12;

/// A block that was read: its byte order, its type, and how many octets it has with its two lengths. Its
/// body stands from octet 8 on and ends 4 before its end.
#[derive(Clone, Copy)]
pub struct BlockAt {
    pub order: Order,
    pub kind: u32,
    pub size: usize,
}

/// Why octets begin with no block.
#[derive(Clone, Copy)]
pub enum BlockFault {
    /// Fewer than 12 octets are left, or fewer than the block's length.
    Cut,
    /// A section header without the byte order magic; a length that is no multiple of 4 or below the least
    /// of its type; a second length that differs. The first two come before a cut by the length.
    Damaged,
}

// The fewest octets of a block, by its type.
fn least(kind: u32) -> u32
    ensures least { result ≡ least_of kind }
    ensures head { 12 ≤ result }
{
    match kind {
        SECTION => 28,
        INTERFACE => 20,
        OLD_PACKET => 32,
        SIMPLE_PACKET => 16,
        STATISTICS => 24,
        PACKET => 32,
        _ => 12,
    }
}

/// The byte order that a section header tells in its octets 8 to 11, `None` without the magic number.
pub fn section_order(bytes: &[u8]) -> Option<Order>
    requires { 12 ≤ length bytes.now }
    ensures { result ≡ magic_in bytes.now }
{
    if u32_in(Order::LowFirst, bytes, 8) == MAGIC {
        Some(Order::LowFirst)
    } else if u32_in(Order::HighFirst, bytes, 8) == MAGIC {
        Some(Order::HighFirst)
    } else {
        None
    }
}

// The byte order of a block of this type behind one of the byte order `before`.
fn order_at(before: Order, kind: u32, bytes: &[u8]) -> Option<Order>
    requires { 12 ≤ length bytes.now }
    ensures { result ≡ order_in before kind bytes.now }
{
    if kind == SECTION {
        section_order(bytes)
    } else {
        Some(before)
    }
}

// What the octets read as, by the reader's own rule.
fn read_plain(before: Order, bytes: &[u8]) -> Result<BlockAt, BlockFault>
    ensures { result ≡ block_read before bytes.now }
{
    if bytes.len() < BESIDE_BODY {
        return Err(BlockFault::Cut);
    }
    let kind = u32_in(before, bytes, 0);
    let Some(order) = order_at(before, kind, bytes) else {
        return Err(BlockFault::Damaged);
    };
    let size = u32_in(order, bytes, 4);
    if size % 4 != 0 || size < least(kind) {
        return Err(BlockFault::Damaged);
    }
    let size = size as usize;
    if bytes.len() < size {
        return Err(BlockFault::Cut);
    }
    if u32_in(order, bytes, size - 4) as usize != size {
        return Err(BlockFault::Damaged);
    }
    Ok(BlockAt { order, kind, size })
}

/// Reads the block that begins octets of a pcapng file, behind a block of the byte order `before` (at the
/// file's begin any). The octets behind it are ignored.
pub fn read_block(before: Order, bytes: &[u8]) -> Result<BlockAt, BlockFault>
    ensures found { IfOk result (λ at. (b : Block) × IsBlock before b × (bytes.now ≡ block_text b ++ drop at.size bytes.now) × (at ≡ record { order = b.order; kind = b.kind; size = size_of b })) }
    ensures only { (b : Block) (behind : List ℕ) → IsBlock before b → bytes.now ≡ block_text b ++ behind → result ≡ Ok (record { order = b.order; kind = b.kind; size = size_of b }) }
    ensures exact { result ≡ block_read before bytes.now }
{
    read_plain(before, bytes)
}
