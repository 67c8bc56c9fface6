ghost use Rattle.std.specs.Prelude.{◌≡◌, ℕ, ◌+◌, ◌≤◌, [], ◌++◌, length, take, drop, Option, Some, None};
ghost use Rattle.block_pool.specs.Region.{chain_of};
ghost use Rattle.coe_values.specs.Chains.{octets_at, IsSound, AreChains, Holds};

use arrayvec::ArrayVec;
use block_pool::{ChainId, Pool};

// The chain is no more; its blocks are free at once.
fn end(pool: &mut Pool, chain: &mut Option<ChainId>)
    requires { (other : Option ℕ) × AreChains pool.old chain.old other }
    ensures none { chain.new ≡ None }
    ensures ended { (other : Option ℕ) → AreChains pool.old chain.old other → Holds pool.old [] pool.new None other }
{
    if let Some(id) = chain.take() {
        pool.close(id);
    }
}

// An empty chain. There is a place for it, since one of the two isn't begun.
fn begin(pool: &mut Pool) -> ChainId
    requires { (other : Option ℕ) × AreChains pool.old None other }
    ensures { (other : Option ℕ) → AreChains pool.old None other → Holds pool.old [] pool.new (Some result) other }
{
    match pool.begin() {
        Some(id) => id,
        None => unreachable!(),
    }
}

// Octets behind those of the chain. They fit: each chain has 128 blocks at most.
fn extend(pool: &mut Pool, id: &ChainId, bytes: &[u8])
    requires held { (other : Option ℕ) × AreChains pool.old (Some id.now) other }
    requires short { length (chain_of pool.old id.now) + length bytes.now ≤ 16384 }
    ensures { (other : Option ℕ) → AreChains pool.old (Some id.now) other → Holds pool.old (chain_of pool.old id.now ++ bytes.now) pool.new (Some id.now) other }
{
    pool.append(id, bytes).unwrap();
}

/// These octets in place of those of the chain.
pub fn renew(pool: &mut Pool, chain: &mut Option<ChainId>, bytes: &[u8])
    requires held { (other : Option ℕ) × AreChains pool.old chain.old other }
    requires short { length bytes.now ≤ 16384 }
    ensures { (other : Option ℕ) → AreChains pool.old chain.old other → Holds pool.old bytes.now pool.new chain.new other }
{
    end(pool, chain);
    let id = begin(pool);
    extend(pool, &id, bytes);
    *chain = Some(id);
}

/// Octets behind those of the chain.
pub fn append(pool: &mut Pool, chain: &mut Option<ChainId>, bytes: &[u8])
    requires held { (other : Option ℕ) × AreChains pool.old chain.old other }
    requires short { length (octets_at pool.old chain.old) + length bytes.now ≤ 16384 }
    ensures { (other : Option ℕ) → AreChains pool.old chain.old other → Holds pool.old (octets_at pool.old chain.old ++ bytes.now) pool.new chain.new other }
{
    match chain {
        None => renew(pool, chain, bytes),
        Some(id) => extend(pool, id, bytes),
    }
}

/// How many octets the chain has.
pub fn len(pool: &Pool, chain: &Option<ChainId>) -> usize
    requires { IsSound pool.now chain.now }
    ensures { result ≡ length (octets_at pool.now chain.now) }
{
    match chain {
        None => 0,
        Some(id) => pool.len(id),
    }
}

/// Appends to a buffer the octets of a chain from a place on, at most so many.
pub fn append_to<const CAP: usize>(
    pool: &Pool,
    chain: &Option<ChainId>,
    at: usize,
    most: usize,
    into: &mut ArrayVec<u8, CAP>,
)
    requires sound { IsSound pool.now chain.now }
    requires fits { length into.old.items + most ≤ CAP }
    ensures { into.new.items ≡ into.old.items ++ take most (drop at (octets_at pool.now chain.now)) }
{
    match chain {
        None => {}
        Some(id) => pool.append_to(id, at, most, into),
    }
}
