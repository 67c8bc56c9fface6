ghost use Rattle.std.specs.Prelude.{◌≡◌, ◌≤◌, ◌<◌, ◌==◌, length, None, true, false, IfOk};
ghost use Rattle.ec_fields.specs.Fields.{bits_of};
ghost use Rattle.object_dictionary.specs.Entries.{is_text, number_in, exceeds, falls_below, state_bit, size_refusal, is_entry, read_refusal, write_refusal, check_entry, number_refusal, value_refusal, bound_refusal, with_value, download_entry, Stores};

use crate::kinds::is_string;
use crate::refusals::{
    ABOVE_MAXIMUM, BELOW_MINIMUM, NOT_IN_STATE, NOT_READABLE, NOT_WRITABLE, TOO_LONG, TOO_SHORT,
};
use byteorder::{ByteOrder, LittleEndian};
use ec_fields::{NoMemory, Octets, Transfer, bits};
use std::alloc::Global;
use std::marker::Model;

/// One entry of an object: what it may hold and what it holds (ETG.1000.6, section 5.6.7).
#[derive(Drop)]
pub struct EntrySpec {
    /// The data type: 1 BOOLEAN, 2 to 4 INTEGER8, 16 and 32, 5 to 7 UNSIGNED8, 16 and 32,
    /// 9 VISIBLE_STRING, 10 OCTET_STRING, 21 INTEGER64, 27 UNSIGNED64.
    pub kind: u16,
    /// Bits 0 to 2 are read access and bits 3 to 5 write access, each in PreOp, SafeOp and Op; bits
    /// 6 to 9 say in which lists of objects the entry counts. 0 to 1,023.
    pub access: u16,
    /// The least size of the value in octets, 1 to 8,000.
    pub least: u32,
    /// The greatest size of the value in octets, 1 to 8,000.
    pub most: u32,
    /// The least number that the entry may hold, where one is given.
    pub min: Option<i128>,
    /// The greatest number that the entry may hold, where one is given.
    pub max: Option<i128>,
    /// The name, 0 to 40 characters from 0x20 to 0x7E.
    pub name: Octets,
    /// The value, `least` to `most` octets, numbers with the lowest octet first.
    pub value: Octets,
}

/// An entry that is kept: its value has the memory of its greatest size, so that no download takes any.
#[derive(Drop)]
pub(crate) struct Entry {
    pub(crate) kind: u16,
    pub(crate) access: u16,
    pub(crate) least: u32,
    pub(crate) most: u32,
    pub(crate) min: Option<i128>,
    pub(crate) max: Option<i128>,
    pub(crate) name: Octets,
    pub(crate) value: Transfer,
}

impl Model for Entry {
    ghost use Rattle.std.specs.Prelude.{◌≡◌, true};
    ghost use Rattle.object_dictionary.specs.Entries.{is_entry};
    ghost use Rattle.object_dictionary.specs.declared.entry.EntrySpec.{EntrySpec};

    ghost Value = { EntrySpec };

    ghost view = { λ e. record { kind = e.kind; access = e.access; least = e.least; most = e.most; min = e.min; max = e.max; name = e.name; value = e.value.octets } };

    ghost invariant = { λ e. (e.value.limit ≡ e.most) × (is_entry (record { kind = e.kind; access = e.access; least = e.least; most = e.most; min = e.min; max = e.max; name = e.name; value = e.value.octets }) ≡ true) };
}

// The number that the octets of a value stand for.
fn number_in(kind: u16, bytes: &[u8]) -> i128
    requires some { 1 ≤ length bytes.now }
    requires few { length bytes.now ≤ 8 }
    ensures { result ≡ number_in kind bytes.now }
{
    if kind == 2 || kind == 3 || kind == 4 || kind == 21 {
        LittleEndian::read_int(bytes, bytes.len()) as i128
    } else {
        LittleEndian::read_uint(bytes, bytes.len()) as i128
    }
}

fn exceeds(number: i128, most: Option<i128>) -> bool
    ensures { result ≡ exceeds number most }
{
    match most {
        None => false,
        Some(most) => number > most,
    }
}

fn falls_below(number: i128, least: Option<i128>) -> bool
    ensures { result ≡ falls_below number least }
{
    match least {
        None => false,
        Some(least) => number < least,
    }
}

fn bit_of_state(al: u8) -> u32
    ensures value { result ≡ state_bit al }
    ensures within { result ≤ 2 }
{
    match al {
        2 => 0,
        4 => 1,
        _ => 2,
    }
}

fn refuses_number(kind: u16, min: Option<i128>, max: Option<i128>, number: i128) -> Option<u32>
    ensures { result ≡ number_refusal kind min max number }
{
    if exceeds(number, max) || (kind == 1 && number > 1) {
        Some(ABOVE_MAXIMUM)
    } else if falls_below(number, min) {
        Some(BELOW_MINIMUM)
    } else {
        None
    }
}

/// Why a value of this type that has its size is refused by these bounds.
pub(crate) fn refuses_value(
    kind: u16,
    min: Option<i128>,
    max: Option<i128>,
    bytes: &[u8],
) -> Option<u32>
    requires some { 1 ≤ length bytes.now }
    requires few { is_text kind ≡ false → length bytes.now ≤ 8 }
    ensures { result ≡ value_refusal kind min max bytes.now }
{
    if is_string(kind) {
        return None;
    }
    refuses_number(kind, min, max, number_in(kind, bytes))
}

/// Why a value of this size is refused where one of `least` to `most` octets is wanted.
pub(crate) fn refuses_size(least: usize, most: usize, size: usize) -> Option<u32>
    ensures { result ≡ size_refusal least most size }
{
    if size > most {
        Some(TOO_LONG)
    } else if size < least {
        Some(TOO_SHORT)
    } else {
        None
    }
}

impl Entry {
    /// An entry of this kind, with memory for its greatest value.
    pub(crate) fn copy_of(alloc: Global, spec: &EntrySpec) -> Result<Entry, NoMemory>
        requires { is_entry spec.now ≡ true }
        ensures { IfOk result (λ e. e ≡ spec.now) }
    {
        let name = Octets::copy_of(alloc, spec.name.bytes())?;
        let mut value = Transfer::new(alloc, spec.most as usize)?;
        let _fits = value.add(spec.value.bytes());
        Ok(Entry {
            kind: spec.kind,
            access: spec.access,
            least: spec.least,
            most: spec.most,
            min: spec.min,
            max: spec.max,
            name,
            value,
        })
    }

    /// Why the entry can't be read at this AL state.
    pub(crate) fn refuses_read(&self, al: u8) -> Option<u32>
        ensures { result ≡ read_refusal al self.now }
    {
        if bits(self.access, 0, 3) == 0 {
            Some(NOT_READABLE)
        } else if bits(self.access, bit_of_state(al), 1) == 0 {
            Some(NOT_IN_STATE)
        } else {
            None
        }
    }

    /// Why the entry can't be written at this AL state.
    pub(crate) fn refuses_write(&self, al: u8) -> Option<u32>
        ensures { result ≡ write_refusal al self.now }
    {
        if bits(self.access, 3, 3) == 0 {
            Some(NOT_WRITABLE)
        } else if bits(self.access, 3 + bit_of_state(al), 1) == 0 {
            Some(NOT_IN_STATE)
        } else {
            None
        }
    }

    /// Why a download is refused by its size alone.
    pub(crate) fn check(&self, size: usize, al: u8) -> Option<u32>
        ensures code { result ≡ check_entry al self.now size }
        ensures small { result ≡ None → size ≤ 8000 }
    {
        match self.refuses_write(al) {
            Some(code) => Some(code),
            None => refuses_size(self.least as usize, self.most as usize, size),
        }
    }

    /// Why a value is refused that has its size.
    pub(crate) fn refuses_value(&self, bytes: &[u8]) -> Option<u32>
        requires some { 1 ≤ length bytes.now }
        requires fits { length bytes.now ≤ self.now.most }
        ensures { result ≡ bound_refusal self.now bytes.now }
    {
        refuses_value(self.kind, self.min, self.max, bytes)
    }

    /// Holds another value.
    pub(crate) fn hold(&mut self, bytes: &[u8])
        requires least { self.old.least ≤ length bytes.now }
        requires most { length bytes.now ≤ self.old.most }
        ensures { self.new ≡ with_value self.old bytes.now }
    {
        self.value.clear();
        let _fits = self.value.add(bytes);
    }

    /// Writes the entry; after `Some` nothing changed.
    pub(crate) fn download(&mut self, bytes: &[u8], al: u8) -> Option<u32>
        ensures { Stores (download_entry al self.old bytes.now) result self.old self.new }
    {
        let _least = self.least;
        if let Some(code) = self.check(bytes.len(), al) {
            return Some(code);
        }
        if let Some(code) = self.refuses_value(bytes) {
            return Some(code);
        }
        self.hold(bytes);
        None
    }

    /// The greatest size of the value.
    pub(crate) fn most(&self) -> usize
        ensures value { result ≡ self.now.most }
        ensures some { 1 ≤ result }
        ensures few { result ≤ 8000 }
        ensures sound { is_entry self.now ≡ true }
    {
        self.most as usize
    }

    /// The data type.
    pub(crate) fn kind(&self) -> u16
        ensures { result ≡ self.now.kind }
    {
        self.kind
    }

    /// The access rights.
    pub(crate) fn access(&self) -> u16
        ensures { result ≡ self.now.access }
    {
        self.access
    }

    /// The name.
    pub(crate) fn name(&self) -> &[u8]
        ensures value { result.now ≡ self.now.name }
        ensures short { length self.now.name ≤ 40 }
    {
        self.name.bytes()
    }

    /// Whether the value has one size.
    pub(crate) fn is_fixed(&self) -> bool
        ensures { result ≡ (self.now.least == self.now.most) }
    {
        self.least == self.most
    }

    /// Whether a bit of the access is set.
    pub(crate) fn has_bit(&self, bit: u32) -> bool
        requires { bit < 16 }
        ensures { result ≡ (bits_of self.now.access bit 1 == 1) }
    {
        bits(self.access, bit, 1) == 1
    }

    /// The octets of the value.
    pub(crate) fn bytes(&self) -> &[u8]
        ensures value { result.now ≡ self.now.value }
        ensures within { length self.now.value ≤ self.now.most }
        ensures few { length self.now.value ≤ 8000 }
        ensures some { 1 ≤ length self.now.value }
    {
        self.value.bytes()
    }
}
