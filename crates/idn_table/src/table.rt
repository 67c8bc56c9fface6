ghost use Rattle.std.specs.Prelude.{◌≡◌, ◌≤◌, [], true, false, length, IsTrue, ◌↔◌, IfOk, OnOk, OnErr, None};
ghost use Rattle.std.specs.List.{position_or_len};
ghost use Rattle.std.specs.Map.{keys_of};
ghost use Rattle.protocol_models.specs.Elements.{target};
ghost use Rattle.idn_table.specs.Idns.{key_of, idn_of, is_idn, is_below, are_idns, placed, idn_at, write_code_at, read_at, write_at, Reads, Stores};

use crate::codes::{NO_ELEMENT, NO_IDN};
use crate::element::element_of;
use crate::idn::Idn;
use crate::spec::IdnSpec;
use ec_fields::{NoMemory, Transfer};
use indexmap::IndexMap;
use std::alloc::Global;
use std::marker::Model;

/// The IDNs of a slave, in rising order of drive and number. The room for each value is taken when its IDN is inserted.
#[derive(Drop)]
pub struct IdnTable {
    alloc: Global,
    idns: IndexMap<(u8, u16), Idn>,
}

impl Model for IdnTable {
    ghost use Rattle.std.specs.Prelude.{◌≡◌, true};
    ghost use Rattle.idn_table.specs.Idns.{Table, are_idns};

    ghost Value = { Table };

    ghost view = { λ t. t.idns.entries };

    ghost invariant = { λ t. are_idns t.idns.entries ≡ true };
}

// Whether an IDN stands ahead of another: by drive, then by number.
fn is_ahead(key: (u8, u16), other: (u8, u16)) -> bool
    ensures { result ≡ is_below key other }
{
    key.0 < other.0 || key.0 == other.0 && key.1 < other.1
}

// Where the first IDN is that a key stands ahead of.
fn place_above(idns: &IndexMap<(u8, u16), Idn>, key: (u8, u16)) -> usize
    ensures { result ≡ position_or_len (is_below key) (keys_of idns.now.entries) }
{
    for at in 0..idns.len() {
        if let Some((other, _)) = idns.get_index(at) {
            if is_ahead(key, *other) {
                return at;
            }
        }
    }
    idns.len()
}

impl IdnTable {
    /// A table without IDNs.
    pub fn new(alloc: Global) -> Result<IdnTable, NoMemory>
        ensures { IfOk result (λ t. t ≡ []) }
    {
        let idns = IndexMap::with_capacity(alloc, 0)?;
        Ok(IdnTable { alloc, idns })
    }

    /// Adds an IDN with its value, at its place among drives and numbers. After `NoMemory` the table is as before.
    pub fn insert(&mut self, spec: &IdnSpec) -> Result<(), NoMemory>
        requires is { is_idn (idn_of spec.now) ≡ true }
        requires fresh { idn_at self.old (target spec.now.drive spec.now.number 0) ≡ None }
        ensures added { OnOk result (self.new ≡ placed (key_of spec.now) (idn_of spec.now) self.old) }
        ensures err { OnErr result (self.new ≡ self.old) }
    {
        let idn = Idn::new(self.alloc, spec)?;
        let key = (spec.drive, spec.number);
        let place = place_above(&self.idns, key);
        self.idns.shift_insert(place, key, idn)?;
        Ok(())
    }

    /// Whether the drive has an IDN of this number.
    pub fn has(&self, drive: u8, number: u16) -> bool
        ensures { result ≡ false ↔ (idn_at self.now (target drive number 0) ≡ None) }
    {
        match self.idns.get(&(drive, number)) {
            Some(_) => true,
            None => false,
        }
    }

    /// How many IDNs there are.
    pub fn len(&self) -> usize
        ensures count { result ≡ length self.now }
        ensures sound { are_idns self.now ≡ true }
    {
        self.idns.len()
    }

    /// Whether there are none.
    pub fn is_empty(&self) -> bool
        ensures { IsTrue result ↔ (self.now ≡ []) }
    {
        self.idns.is_empty()
    }

    /// Reads the octets of an element in place of what `into` has. `Some` is the code that refuses it, the first that applies; then `into` is
    /// empty (ETG.1000.6, "SoE error codes").
    pub fn read_element(
        &self,
        drive: u8,
        idn: u16,
        elements: u8,
        into: &mut Transfer,
    ) -> Option<u16>
        requires { 16384 ≤ into.old.limit }
        ensures value { Reads (read_at self.now (target drive idn elements)) result into.new.octets }
        ensures limit { into.new.limit ≡ into.old.limit }
        ensures sound { are_idns self.now ≡ true }
    {
        into.clear();
        match self.idns.get(&(drive, idn)) {
            None => Some(NO_IDN),
            Some(kept) => match element_of(elements) {
                None => Some(NO_ELEMENT),
                Some(element) => kept.read(element, into),
            },
        }
    }

    // The code that refuses a write, the first that applies.
    fn write_code(&self, drive: u8, idn: u16, elements: u8, bytes: &[u8]) -> Option<u16>
        ensures { result ≡ write_code_at (idn_at self.now (target drive idn elements)) (target drive idn elements) bytes.now }
    {
        match self.idns.get(&(drive, idn)) {
            None => Some(NO_IDN),
            Some(kept) => match element_of(elements) {
                None => Some(NO_ELEMENT),
                Some(element) => kept.write_code(element, bytes),
            },
        }
    }

    /// Writes the octets of an element; only the value may be written. `Some` is the code that refuses it, the first that applies; then nothing
    /// changed (ETG.1000.6, "SoE error codes").
    pub fn write_element(&mut self, drive: u8, idn: u16, elements: u8, bytes: &[u8]) -> Option<u16>
        ensures stores { Stores (write_at self.old (target drive idn elements) bytes.now) result self.old self.new }
        ensures sound { are_idns self.old ≡ true }
    {
        if let Some(code) = self.write_code(drive, idn, elements, bytes) {
            return Some(code);
        }
        if let Some(kept) = self.idns.get_mut(&(drive, idn)) {
            kept.store(bytes);
        }
        None
    }
}
