ghost use Rattle.std.specs.Prelude.{◌≡◌, ◌≤◌, ℕ, List, [], true, length, IfOk, Some, None};
ghost use Rattle.idn_table.specs.Idns.{idn_of, is_idn, is_bound, Reads, there, bound_octets, element_read, is_under, is_over, value_code, write_code};

use crate::codes::{
    ATTRIBUTE_READ_ONLY, MAXIMUM_READ_ONLY, MINIMUM_READ_ONLY, NAME_READ_ONLY, NO_ELEMENT,
    NO_MAXIMUM, NO_MINIMUM, NO_NAME, NO_UNIT, UNIT_READ_ONLY, VALUE_READ_ONLY, VALUE_TOO_LARGE,
    VALUE_TOO_LONG, VALUE_TOO_SHORT, VALUE_TOO_SMALL,
};
use crate::element::Element;
use crate::spec::IdnSpec;
use byteorder::{ByteOrder, LittleEndian};
use ec_fields::{NoMemory, Octets, Transfer};
use std::alloc::Global;
use std::marker::Model;

/// An IDN as it is kept. The room for its greatest value was taken when it was made.
#[derive(Drop)]
pub struct Idn {
    attribute: u32,
    label: Option<Octets>,
    unit: Option<Octets>,
    least: u32,
    most: u32,
    min: Option<u64>,
    max: Option<u64>,
    writable: bool,
    value: Transfer,
}

impl Model for Idn {
    ghost use Rattle.std.specs.Prelude.{◌≡◌, true};
    ghost use Rattle.idn_table.specs.Idns.{Kept, is_idn};

    ghost Value = { Kept };

    ghost view = { λ i. record { attribute = i.attribute; label = i.label; unit = i.unit; least = i.least; most = i.most; min = i.min; max = i.max; writable = i.writable; value = i.value.octets } };

    ghost invariant = { λ i. (i.value.limit ≡ i.most) × (is_idn (record { attribute = i.attribute; label = i.label; unit = i.unit; least = i.least; most = i.most; min = i.min; max = i.max; writable = i.writable; value = i.value.octets }) ≡ true) };
}

// A copy of octets that may be missing.
fn copied(alloc: Global, octets: &Option<Octets>) -> Result<Option<Octets>, NoMemory>
    ensures { IfOk result (λ o. o ≡ octets.now) }
{
    match octets {
        Some(octets) => Ok(Some(Octets::copy_of(alloc, octets.bytes())?)),
        None => Ok(None),
    }
}

// Tells the octets in an empty list.
fn put(into: &mut Transfer, bytes: &[u8]) -> Option<u16>
    requires empty { into.old.octets ≡ [] }
    requires fits { length bytes.now ≤ into.old.limit }
    ensures told { into.new.octets ≡ bytes.now }
    ensures limit { into.new.limit ≡ into.old.limit }
    ensures done { result ≡ None }
{
    let _fits = into.add(bytes);
    None
}

// Tells octets that may be missing, or refuses by this code.
fn put_there(into: &mut Transfer, code: u16, octets: &Option<Octets>) -> Option<u16>
    requires empty { into.old.octets ≡ [] }
    requires fits { (bytes : List ℕ) → octets.now ≡ Some bytes → length bytes ≤ into.old.limit }
    ensures value { Reads (there code octets.now) result into.new.octets }
    ensures limit { into.new.limit ≡ into.old.limit }
{
    match octets {
        Some(octets) => put(into, octets.bytes()),
        None => Some(code),
    }
}

impl Idn {
    pub(crate) fn new(alloc: Global, spec: &IdnSpec) -> Result<Idn, NoMemory>
        requires { is_idn (idn_of spec.now) ≡ true }
        ensures { IfOk result (λ i. i ≡ idn_of spec.now) }
    {
        let label = copied(alloc, &spec.label)?;
        let unit = copied(alloc, &spec.unit)?;
        let mut value = Transfer::new(alloc, spec.most as usize)?;
        let _fits = value.add(spec.value.bytes());
        Ok(Idn {
            attribute: spec.attribute,
            label,
            unit,
            least: spec.least,
            most: spec.most,
            min: spec.min,
            max: spec.max,
            writable: spec.writable,
            value,
        })
    }

    // A bound in as many octets as the value has.
    fn read_bound(&self, bound: Option<u64>, code: u16, into: &mut Transfer) -> Option<u16>
        requires is { is_bound self.now bound ≡ true }
        requires empty { into.old.octets ≡ [] }
        requires room { 16384 ≤ into.old.limit }
        ensures value { Reads (there code (bound_octets self.now bound)) result into.new.octets }
        ensures limit { into.new.limit ≡ into.old.limit }
    {
        match bound {
            Some(number) => {
                let len = self.value.bytes().len();
                let mut octets = [0; 8];
                LittleEndian::write_uint(&mut octets, number, len);
                put(into, &octets[..len])
            }
            None => Some(code),
        }
    }

    /// Tells an element in an empty list, or refuses it by its code.
    pub(crate) fn read(&self, element: Element, into: &mut Transfer) -> Option<u16>
        requires empty { into.old.octets ≡ [] }
        requires room { 16384 ≤ into.old.limit }
        ensures value { Reads (element_read self.now element) result into.new.octets }
        ensures limit { into.new.limit ≡ into.old.limit }
    {
        match element {
            Element::State => put(into, &[0, 0]),
            Element::Name => put_there(into, NO_NAME, &self.label),
            Element::Attribute => put(into, &self.attribute.to_le_bytes()),
            Element::Unit => put_there(into, NO_UNIT, &self.unit),
            Element::Minimum => self.read_bound(self.min, NO_MINIMUM, into),
            Element::Maximum => self.read_bound(self.max, NO_MAXIMUM, into),
            Element::Value => put(into, self.value.bytes()),
        }
    }

    // Whether a value of the right length is below the minimum.
    fn is_under(&self, bytes: &[u8]) -> bool
        requires least { self.now.least ≤ length bytes.now }
        requires most { length bytes.now ≤ self.now.most }
        ensures { result ≡ is_under self.now bytes.now }
    {
        match self.min {
            Some(min) => LittleEndian::read_uint(bytes, bytes.len()) < min,
            None => false,
        }
    }

    // Whether a value of the right length is above the maximum.
    fn is_over(&self, bytes: &[u8]) -> bool
        requires least { self.now.least ≤ length bytes.now }
        requires most { length bytes.now ≤ self.now.most }
        ensures { result ≡ is_over self.now bytes.now }
    {
        match self.max {
            Some(max) => max < LittleEndian::read_uint(bytes, bytes.len()),
            None => false,
        }
    }

    // The code that refuses a value, the first that applies.
    fn value_code(&self, bytes: &[u8]) -> Option<u16>
        ensures { result ≡ value_code self.now bytes.now }
    {
        if !self.writable {
            return Some(VALUE_READ_ONLY);
        }
        if bytes.len() < self.least as usize {
            return Some(VALUE_TOO_SHORT);
        }
        if bytes.len() > self.most as usize {
            return Some(VALUE_TOO_LONG);
        }
        if self.is_under(bytes) {
            return Some(VALUE_TOO_SMALL);
        }
        if self.is_over(bytes) {
            return Some(VALUE_TOO_LARGE);
        }
        None
    }

    /// The code that refuses a write of this element.
    pub(crate) fn write_code(&self, element: Element, bytes: &[u8]) -> Option<u16>
        ensures { result ≡ write_code self.now element bytes.now }
    {
        // A field is named so that the proof has what holds of the fields.
        let _ = &self.most;
        match element {
            Element::State => Some(NO_ELEMENT),
            Element::Name => Some(NAME_READ_ONLY),
            Element::Attribute => Some(ATTRIBUTE_READ_ONLY),
            Element::Unit => Some(UNIT_READ_ONLY),
            Element::Minimum => Some(MINIMUM_READ_ONLY),
            Element::Maximum => Some(MAXIMUM_READ_ONLY),
            Element::Value => self.value_code(bytes),
        }
    }

    /// Stores a value that nothing refuses.
    pub(crate) fn store(&mut self, bytes: &[u8])
        requires { value_code self.old bytes.now ≡ None }
        ensures { self.new ≡ record self.old { value = bytes.now } }
    {
        self.value.clear();
        let _fits = self.value.add(bytes);
    }
}
