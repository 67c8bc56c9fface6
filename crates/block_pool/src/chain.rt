ghost use Rattle.std.specs.Prelude.{◌≡◌, ◌+◌, ◌-◌, ◌*◌, ◌/◌, ◌<◌, ◌≤◌, [], ◌++◌, length, map, take, drop, min, All, IfOk, vec_len, vec_capacity, true, false};
ghost use Rattle.block_pool.specs.Blocks.{items_of, octets_of, IsEmpty, IsPacked};

use arrayvec::ArrayVec;
use ec_fields::{NoMemory, append};
use std::alloc::Global;
use std::marker::Model;

/// The octets of a block.
pub const BLOCK: usize = 128;

/// One block, filled from its head.
pub type Block = ArrayVec<u8, 128>;

// An empty block with these octets.
fn filled(block: Box<Block>, part: &[u8]) -> Box<Block>
    requires empty { items_of block ≡ [] }
    requires fits { length part.now ≤ 128 }
    ensures { items_of result ≡ part.now }
{
    let mut block = block;
    match block.try_extend_from_slice(part) {
        Ok(()) => block,
        Err(_) => unreachable!(),
    }
}

// The octets of a block from a place on.
fn rest_of(block: &Box<Block>, from: usize) -> &[u8]
    requires { from < length (items_of block.now) }
    ensures { result.now ≡ drop from (items_of block.now) }
{
    &block.as_slice()[from..]
}

// The octets of the block that holds a place, from that place on.
fn piece_of(blocks: &[Box<Block>], place: usize) -> &[u8]
    requires packed { IsPacked (map items_of blocks.now) }
    requires within { place < length (octets_of blocks.now) }
    ensures some { 0 < length result.now }
    ensures part { result.now ≡ take (length result.now) (drop place (octets_of blocks.now)) }
{
    let block = &blocks[place / BLOCK];
    rest_of(block, place % BLOCK)
}

// A part is written from a place on; all other octets stay.
fn put_part(into: &mut [u8], from: usize, part: &[u8])
    requires { from + length part.now ≤ length into.old }
    ensures { into.new ≡ take from into.old ++ (part.now ++ drop (from + length part.now) into.old) }
{
    into[from..from + part.len()].copy_from_slice(part);
}

// The last block takes what it has room for.
fn fill_last(blocks: &mut [Box<Block>], part: &[u8])
    requires packed { IsPacked (map items_of blocks.old) }
    requires some { 0 < length blocks.old }
    requires fits { length (octets_of blocks.old) + length part.now ≤ 128 * length blocks.old }
    ensures octets { octets_of blocks.new ≡ octets_of blocks.old ++ part.now }
    ensures packed { IsPacked (map items_of blocks.new) }
{
    let last = blocks.len() - 1;
    let block = &mut blocks[last];
    match block.try_extend_from_slice(part) {
        Ok(()) => {}
        Err(_) => unreachable!(),
    }
}

// All blocks become free and empty.
fn free_all(blocks: &mut Vec<Box<Block>>, free: &mut Vec<Box<Block>>)
    requires room { vec_len free.old + vec_len blocks.old ≤ vec_capacity free.old }
    requires empty { All IsEmpty free.old.items }
    ensures none { blocks.new.items ≡ [] }
    ensures freed { vec_len free.new ≡ vec_len free.old + vec_len blocks.old }
    ensures cleared { All IsEmpty free.new.items }
    ensures room { vec_capacity blocks.old ≤ vec_capacity blocks.new }
    ensures kept { vec_capacity free.old ≤ vec_capacity free.new }
{
    while let Some(mut block) = blocks.pop() {
        block.clear();
        free.push(block).unwrap();
    }
}

/// A place for one chain: whether a chain is live there, and the blocks that it has.
#[derive(Drop)]
pub struct Chain {
    live: bool,
    blocks: Vec<Box<Block>>,
    len: usize,
    room: usize,
}

impl Model for Chain {
    ghost use Rattle.std.specs.Prelude.{length};
    ghost use Rattle.block_pool.specs.Chained.{Chained};

    ghost Value = { Chained };

    ghost use Rattle.block_pool.specs.Blocks.{octets_of, IsChain};

    ghost view = { λ c. record { live = c.live; octets = octets_of c.blocks.items; blocks = length c.blocks.items; room = c.room } };

    ghost invariant = { λ c. IsChain c.live c.blocks c.len c.room };
}

impl Chain {
    /// A place with room for so many blocks, at which no chain is live.
    pub fn new(alloc: Global, room: usize) -> Result<Chain, NoMemory>
        requires { room < 4294967296 }
        ensures { IfOk result (λ c. c ≡ record { live = false; octets = []; blocks = 0; room = room }) }
    {
        let blocks = Vec::with_capacity(alloc, room)?;
        Ok(Chain {
            live: false,
            blocks,
            len: 0,
            room,
        })
    }

    /// Whether a chain is live here.
    pub fn is_live(&self) -> bool
        ensures { result ≡ self.now.live }
    {
        self.live
    }

    /// An empty chain is live here from now on.
    pub fn open(&mut self)
        requires { self.old.live ≡ false }
        ensures opened { self.new ≡ record self.old { live = true; octets = []; blocks = 0 } }
        ensures none { self.old.blocks ≡ 0 }
    {
        self.live = true;
    }

    /// How many octets the chain has; it has just the blocks that they need.
    pub fn len(&self) -> usize
        ensures len { result ≡ length self.now.octets }
        ensures blocks { self.now.blocks ≡ (length self.now.octets + 127) / 128 }
        ensures room { self.now.blocks ≤ self.now.room }
    {
        self.len
    }

    /// How many octets the last block still takes.
    pub fn spare(&self) -> usize
        ensures spare { length self.now.octets + result ≡ 128 * self.now.blocks }
        ensures few { result < 128 }
    {
        self.blocks.as_slice().len() * BLOCK - self.len
    }

    /// Appends what the last block still takes.
    pub fn fill(&mut self, part: &[u8])
        requires { length self.old.octets + length part.now ≤ 128 * self.old.blocks }
        ensures { self.new ≡ record self.old { octets = self.old.octets ++ part.now } }
    {
        if part.is_empty() {
            return;
        }
        fill_last(self.blocks.as_mut_slice(), part);
        self.len += part.len();
    }

    /// Appends a block with the octets of `part`; all blocks before are full.
    pub fn grow(&mut self, block: Box<Block>, part: &[u8])
        requires live { self.old.live ≡ true }
        requires empty { IsEmpty block }
        requires full { length self.old.octets ≡ 128 * self.old.blocks }
        requires some { 1 ≤ length part.now }
        requires fits { length part.now ≤ 128 }
        requires room { self.old.blocks < self.old.room }
        ensures { self.new ≡ record self.old { octets = self.old.octets ++ part.now; blocks = self.old.blocks + 1 } }
    {
        self.blocks.push(filled(block, part)).unwrap();
        self.len += part.len();
    }

    // The octets of the block that holds a place, from that place on.
    fn piece(&self, place: usize) -> &[u8]
        requires { place < length self.now.octets }
        ensures some { 0 < length result.now }
        ensures part { result.now ≡ take (length result.now) (drop place self.now.octets) }
    {
        piece_of(self.blocks.as_slice(), place)
    }

    /// Copies the octets from a place on, as many as there are and fit, and says how many.
    pub fn read_at(&self, at: usize, into: &mut [u8]) -> usize
        ensures count { result ≡ min (length self.now.octets - at) (length into.old) }
        ensures copied { into.new ≡ take result (drop at self.now.octets) ++ drop result into.old }
    {
        let count = self.len().saturating_sub(at).min(into.len());
        let mut done = 0;
        while done < count {
            let piece = self.piece(at + done);
            let some = piece.len().min(count - done);
            put_part(into, done, &piece[..some]);
            done += some;
        }
        count
    }

    /// Appends the octets from a place on, at most so many, block by block.
    pub fn append_to<const CAP: usize>(&self, at: usize, most: usize, into: &mut ArrayVec<u8, CAP>)
        requires { length into.old.items + most ≤ CAP }
        ensures { into.new.items ≡ into.old.items ++ take most (drop at self.now.octets) }
    {
        let count = self.len().saturating_sub(at).min(most);
        let mut done = 0;
        while done < count {
            let piece = self.piece(at + done);
            let some = piece.len().min(count - done);
            append(into, &piece[..some]);
            done += some;
        }
    }

    /// Ends the chain: its blocks become free and empty.
    pub fn close(&mut self, free: &mut Vec<Box<Block>>)
        requires room { vec_len free.old + self.old.blocks ≤ vec_capacity free.old }
        requires empty { All IsEmpty free.old.items }
        ensures closed { self.new ≡ record self.old { live = false; octets = []; blocks = 0 } }
        ensures count { self.old.blocks ≡ (length self.old.octets + 127) / 128 }
        ensures freed { vec_len free.new ≡ vec_len free.old + self.old.blocks }
        ensures cleared { All IsEmpty free.new.items }
        ensures kept { vec_capacity free.old ≤ vec_capacity free.new }
    {
        free_all(&mut self.blocks, free);
        self.live = false;
        self.len = 0;
    }
}
