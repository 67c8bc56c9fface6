ghost use Rattle.std.specs.Prelude.{◌≡◌, ◌≢◌, ◌+◌, ◌-◌, ◌*◌, ◌/◌, ◌<◌, ◌≤◌, ◌↔◌, [], ◌++◌, length, take, drop, min, replicate, slice_set, slice_index_or, ℕ, IfOk, IfSome, IfNone, All, vec_capacity, vec_len, true, false, IsErr, IsNone, OnOk, OnErr, Some, None};
ghost use Rattle.block_pool.specs.Blocks.{IsEmpty};
ghost use Rattle.block_pool.specs.Chained.{Chained};
ghost use Rattle.block_pool.specs.Region.{IsLive, AllLive, Begins, Appends, Closes, chain_of, blocks_for};

use crate::chain::{BLOCK, Block, Chain};
use arrayvec::ArrayVec;
use ec_fields::NoMemory;
use std::alloc::Global;
use std::marker::Model;

/// No block is free for the octets.
#[derive(Clone, Copy)]
pub struct PoolFull;

/// A chain of one pool. It is made by `begin` alone, and `close` ends it.
#[derive(Drop)]
pub struct ChainId {
    place: usize,
}

impl Model for ChainId {
    ghost use Rattle.std.specs.Prelude.{ℕ};

    ghost Value = { ℕ };

    ghost view = { λ id. id.place };
}

/// A region of blocks of 128 octets. Chains of blocks keep octet lists; a chain of `n` octets has
/// `ceil(n / 128)` blocks. After `new` no call takes memory.
#[derive(Drop)]
pub struct Pool {
    free: Vec<Box<Block>>,
    chains: Vec<Chain>,
    blocks: usize,
}

impl Model for Pool {
    ghost use Rattle.std.specs.Prelude.{length};
    ghost use Rattle.block_pool.specs.Region.{Region};

    ghost Value = { Region };

    ghost use Rattle.block_pool.specs.Pool.{chains_of, IsPool};

    ghost view = { λ p. record { chains = chains_of p.chains.items; free = length p.free.items } };

    ghost invariant = { λ p. IsPool p.free p.chains.items p.blocks };
}

fn free_blocks(alloc: Global, blocks: usize) -> Result<Vec<Box<Block>>, NoMemory>
    ensures count { IfOk result (λ free. length free.items ≡ blocks) }
    ensures empty { IfOk result (λ free. All IsEmpty free.items) }
    ensures room { IfOk result (λ free. blocks ≤ vec_capacity free) }
{
    let mut free = Vec::with_capacity(alloc, blocks)?;
    for _ in 0..blocks {
        free.push(Box::new(alloc, ArrayVec::new())?)?;
    }
    Ok(free)
}

fn closed_chains(alloc: Global, blocks: usize, chains: usize) -> Result<Vec<Chain>, NoMemory>
    requires { blocks < 4294967296 }
    ensures { IfOk result (λ made. made.items ≡ replicate chains (record { live = false; octets = []; blocks = 0; room = blocks })) }
{
    let mut made = Vec::new(alloc);
    for _ in 0..chains {
        made.push(Chain::new(alloc, blocks)?)?;
    }
    Ok(made)
}

// The first place at which no chain is live.
fn free_place(chains: &[Chain]) -> Option<usize>
    ensures found { IfSome result (λ place. (place < length chains.now) × ((d : Chained) → (slice_index_or chains.now place d).live ≡ false)) }
    ensures none { IfNone result ((place : ℕ) (d : Chained) → place < length chains.now → (slice_index_or chains.now place d).live ≡ true) }
{
    for (place, chain) in chains.iter().enumerate() {
        if !chain.is_live() {
            return Some(place);
        }
    }
    None
}

// A free block goes to the chain, with these octets.
fn add_block(chain: &mut Chain, free: &mut Vec<Box<Block>>, part: &[u8])
    requires live { chain.old.live ≡ true }
    requires empty { All IsEmpty free.old.items }
    requires some_free { 0 < length free.old.items }
    requires full { length chain.old.octets ≡ 128 * chain.old.blocks }
    requires some { 1 ≤ length part.now }
    requires fits { length part.now ≤ 128 }
    requires room { chain.old.blocks < chain.old.room }
    ensures chain { chain.new ≡ record chain.old { octets = chain.old.octets ++ part.now; blocks = chain.old.blocks + 1 } }
    ensures count { length free.new.items + 1 ≡ length free.old.items }
    ensures empty { All IsEmpty free.new.items }
    ensures kept { vec_capacity free.old ≤ vec_capacity free.new }
{
    match free.pop() {
        Some(block) => chain.grow(block, part),
        None => unreachable!(),
    }
}

// Octets go into what the last block still takes and then into blocks of their own.
fn extend(chain: &mut Chain, free: &mut Vec<Box<Block>>, bytes: &[u8])
    requires live { chain.old.live ≡ true }
    requires empty { All IsEmpty free.old.items }
    requires room { chain.old.blocks + length free.old.items ≤ chain.old.room }
    requires fits { length chain.old.octets + length bytes.now ≤ 128 * (chain.old.blocks + length free.old.items) }
    ensures octets { chain.new.octets ≡ chain.old.octets ++ bytes.now }
    ensures live { chain.new.live ≡ true }
    ensures room { chain.new.room ≡ chain.old.room }
    ensures blocks { chain.new.blocks + length free.new.items ≡ chain.old.blocks + length free.old.items }
    ensures within { length chain.new.octets ≤ 128 * chain.new.blocks }
    ensures needed { 128 * chain.new.blocks ≤ length chain.new.octets + 127 }
    ensures empty { All IsEmpty free.new.items }
    ensures kept { vec_capacity free.old ≤ vec_capacity free.new }
{
    let head = chain.spare().min(bytes.len());
    chain.fill(&bytes[..head]);
    let mut done = head;
    while done < bytes.len() {
        let end = bytes.len().min(done + BLOCK);
        add_block(chain, free, &bytes[done..end]);
        done = end;
    }
}

impl Pool {
    /// A region of so many blocks, all free, with places for so many chains.
    pub fn new(alloc: Global, blocks: u32, chains: u32) -> Result<Pool, NoMemory>
        ensures { IfOk result (λ pool. pool ≡ record { chains = replicate chains None; free = blocks }) }
    {
        let blocks = blocks as usize;
        Ok(Pool {
            free: free_blocks(alloc, blocks)?,
            chains: closed_chains(alloc, blocks, chains as usize)?,
            blocks,
        })
    }

    /// An empty chain; `None` exactly where a chain is live at each place. No block is taken.
    pub fn begin(&mut self) -> Option<ChainId>
        ensures begun { IfSome result (λ id. Begins self.old id self.new) }
        ensures full { IfNone result (AllLive self.old) }
        ensures none { IfNone result (self.new ≡ self.old) }
    {
        match free_place(self.chains.as_slice()) {
            None => None,
            Some(place) => {
                self.chains[place].open();
                Some(ChainId { place })
            }
        }
    }

    /// Appends the octets to a chain that is live in this pool. `PoolFull` exactly where the further
    /// blocks exceed the free ones, and then nothing changed.
    pub fn append(&mut self, id: &ChainId, bytes: &[u8]) -> Result<(), PoolFull>
        requires { IsLive self.old id.now }
        ensures full { IsErr result ↔ (self.old.free + blocks_for (length (chain_of self.old id.now)) < blocks_for (length (chain_of self.old id.now) + length bytes.now)) }
        ensures ok { OnOk result (Appends self.old id.now bytes.now self.new) }
        ensures err { OnErr result (self.new ≡ self.old) }
    {
        let chain = &mut self.chains[id.place];
        let blocks = chain.len().div_ceil(BLOCK);
        if (chain.len() + bytes.len()).div_ceil(BLOCK) - blocks > self.free.len() {
            return Err(PoolFull);
        }
        extend(chain, &mut self.free, bytes);
        Ok(())
    }

    /// Copies the octets of a chain that is live in this pool from a place on, as many as there are
    /// and fit `into`, and says how many; 0 behind the chain's end. It costs the octets copied.
    pub fn read_at(&self, id: &ChainId, at: usize, into: &mut [u8]) -> usize
        requires { IsLive self.now id.now }
        ensures count { result ≡ min (length (chain_of self.now id.now) - at) (length into.old) }
        ensures copied { into.new ≡ take result (drop at (chain_of self.now id.now)) ++ drop result into.old }
    {
        self.chains[id.place].read_at(at, into)
    }

    /// Appends to a buffer the octets of a chain that is live in this pool, from a place on and at
    /// most so many. It costs the octets appended.
    pub fn append_to<const CAP: usize>(
        &self,
        id: &ChainId,
        at: usize,
        most: usize,
        into: &mut ArrayVec<u8, CAP>,
    )
        requires live { IsLive self.now id.now }
        requires fits { length into.old.items + most ≤ CAP }
        ensures { into.new.items ≡ into.old.items ++ take most (drop at (chain_of self.now id.now)) }
    {
        self.chains[id.place].append_to(at, most, into);
    }

    /// Ends a chain that is live in this pool; its blocks are free at once.
    pub fn close(&mut self, id: ChainId)
        requires { IsLive self.old id }
        ensures { Closes self.old id self.new }
    {
        self.chains[id.place].close(&mut self.free);
    }

    /// How many octets a chain that is live in this pool has.
    pub fn len(&self, id: &ChainId) -> usize
        requires { IsLive self.now id.now }
        ensures { result ≡ length (chain_of self.now id.now) }
    {
        self.chains[id.place].len()
    }

    /// How many blocks are free.
    pub fn free(&self) -> u32
        ensures { result ≡ self.now.free }
    {
        self.free.as_slice().len() as u32
    }
}
