ghost use Rattle.std.specs.Prelude.{◌≡◌, ◌+◌, ◌-◌, ◌≤◌, [], ◌++◌, length, take, drop, IfOk};
ghost use Rattle.coe_values.specs.Slots.{octets_in, put};

use crate::chains;
use arrayvec::ArrayVec;
use block_pool::{ChainId, Pool};
use ec_fields::{NoMemory, Transfer};
use std::alloc::Global;
use std::marker::Model;

/// The blocks of two values of 16,384 octets.
const BLOCKS: u32 = 256;

/// One of the two values.
#[derive(Clone, Copy)]
pub enum Slot {
    /// The value of the SDO transfer in hand, whichever way it goes.
    Value,
    /// The answer of an information service. No SDO transfer is ended by one, so both are kept at once.
    Told,
}

/// The two values of a CoE server, each of at most 16,384 octets, as chains of one region. No call but `new` takes memory.
#[derive(Drop)]
pub struct Values {
    pool: Pool,
    value: Option<ChainId>,
    told: Option<ChainId>,
}

impl Model for Values {
    ghost use Rattle.coe_values.specs.Kept.{Kept};

    ghost Value = { Kept };

    ghost use Rattle.coe_values.specs.Chains.{octets_at, AreChains};

    ghost view = { λ v. record { value = octets_at v.pool v.value; told = octets_at v.pool v.told } };

    ghost invariant = { λ v. AreChains v.pool v.value v.told };
}

impl Values {
    /// Two empty values.
    pub fn new(alloc: Global) -> Result<Values, NoMemory>
        ensures { IfOk result (λ values. values ≡ record { value = []; told = [] }) }
    {
        let pool = Pool::new(alloc, BLOCKS, 2)?;
        Ok(Values {
            pool,
            value: None,
            told: None,
        })
    }

    /// Begins a value anew with these octets; the blocks of the old one are free at once.
    pub fn begin(&mut self, slot: Slot, bytes: &[u8])
        requires { length bytes.now ≤ 16384 }
        ensures { self.new ≡ put slot bytes.now self.old }
    {
        match slot {
            Slot::Value => chains::renew(&mut self.pool, &mut self.value, bytes),
            Slot::Told => chains::renew(&mut self.pool, &mut self.told, bytes),
        }
    }

    /// Appends octets to a value. They always fit, since each value has 128 blocks of its own.
    pub fn append(&mut self, slot: Slot, bytes: &[u8])
        requires { length (octets_in slot self.old) + length bytes.now ≤ 16384 }
        ensures { self.new ≡ put slot (octets_in slot self.old ++ bytes.now) self.old }
    {
        match slot {
            Slot::Value => chains::append(&mut self.pool, &mut self.value, bytes),
            Slot::Told => chains::append(&mut self.pool, &mut self.told, bytes),
        }
    }

    /// How many octets a value has.
    pub fn len(&self, slot: Slot) -> usize
        ensures len { result ≡ length (octets_in slot self.now) }
        ensures short { result ≤ 16384 }
    {
        match slot {
            Slot::Value => chains::len(&self.pool, &self.value),
            Slot::Told => chains::len(&self.pool, &self.told),
        }
    }

    /// The octets of a value from a place on, at most so many. It costs the octets copied, and not the way to their place.
    pub fn part<const CAP: usize>(&self, slot: Slot, at: usize, most: usize) -> ArrayVec<u8, CAP>
        requires { most ≤ CAP }
        ensures { result.items ≡ take most (drop at (octets_in slot self.now)) }
    {
        let mut octets = ArrayVec::new();
        self.append_to(slot, at, most, &mut octets);
        octets
    }

    /// Appends to a buffer the octets of a value from a place on, at most so many. It costs the octets appended.
    pub fn append_to<const CAP: usize>(
        &self,
        slot: Slot,
        at: usize,
        most: usize,
        into: &mut ArrayVec<u8, CAP>,
    )
        requires { length into.old.items + most ≤ CAP }
        ensures { into.new.items ≡ into.old.items ++ take most (drop at (octets_in slot self.now)) }
    {
        match slot {
            Slot::Value => chains::append_to(&self.pool, &self.value, at, most, into),
            Slot::Told => chains::append_to(&self.pool, &self.told, at, most, into),
        }
    }

    /// The octets of a value from a place on, all of them.
    pub fn rest<const CAP: usize>(&self, slot: Slot, at: usize) -> ArrayVec<u8, CAP>
        requires { length (octets_in slot self.now) - at ≤ CAP }
        ensures { result.items ≡ drop at (octets_in slot self.now) }
    {
        self.part(slot, at, CAP)
    }

    /// Copies a whole value into a list, in place of what it has, a block of the pool at a time.
    pub fn copy_to(&self, slot: Slot, into: &mut Transfer)
        requires { 16384 ≤ into.old.limit }
        ensures octets { into.new.octets ≡ octets_in slot self.now }
        ensures limit { into.new.limit ≡ into.old.limit }
    {
        into.clear();
        let len = self.len(slot);
        let mut done = 0;
        while done < len {
            let piece: ArrayVec<u8, 128> = self.part(slot, done, 128);
            let _fits = into.add(piece.as_slice());
            done += piece.len();
        }
    }
}
