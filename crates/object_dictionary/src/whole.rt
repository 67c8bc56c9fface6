ghost use Rattle.std.specs.Prelude.{◌≡◌, ◌≤◌, ◌+◌, ◌==◌, ◌++◌, [], true, length, None};
ghost use Rattle.object_dictionary.specs.Entries.{Stores, Reads, read_refusal, write_refusal};
ghost use Rattle.object_dictionary.specs.Dictionary.{with_entries};
ghost use Rattle.object_dictionary.specs.Whole.{are_fixed, is_whole, first_refusal, sizes, ahead, whole_size, check_whole, count_refusal, values_refusal, with_values, whole_refusal, download_whole, values_in, count_octets, upload_whole};
ghost use Rattle.object_dictionary.specs.Sound.{is_object};

use crate::entry::{Entry, refuses_size};
use crate::object::Object;
use crate::refusals::{ABOVE_MAXIMUM, BELOW_MINIMUM, NOT_SUPPORTED};
use ec_fields::{Transfer, u16_at};

/// Appends octets that fit.
pub(crate) fn put(into: &mut Transfer, bytes: &[u8])
    requires { length into.old.octets + length bytes.now ≤ into.old.limit }
    ensures octets { into.new.octets ≡ into.old.octets ++ bytes.now }
    ensures limit { into.new.limit ≡ into.old.limit }
{
    let _fits = into.add(bytes);
}

// How many octets stand ahead of the entries: their number, as 16 bits, from subindex 0.
fn ahead(from: u8) -> usize
    ensures { result ≡ ahead from }
{
    if from == 0 { 2 } else { 0 }
}

// Whether all entries have fixed sizes.
fn are_fixed(entries: &[Entry]) -> bool
    ensures { result ≡ are_fixed entries.now }
{
    entries.iter().all(|entry| entry.is_fixed())
}

impl Object {
    // Whether the object can be read and written by complete access.
    fn is_whole(&self, from: u8) -> bool
        ensures { result ≡ is_whole self.now from }
    {
        from < 2 && !self.is_variable() && are_fixed(self.entries.as_slice())
    }

    fn refuses_write(&self, al: u8) -> Option<u32>
        ensures { result ≡ first_refusal (write_refusal al) self.now.entries }
    {
        for entry in self.entries.as_slice() {
            if let Some(code) = entry.refuses_write(al) {
                return Some(code);
            }
        }
        None
    }

    fn refuses_read(&self, al: u8) -> Option<u32>
        ensures { result ≡ first_refusal (read_refusal al) self.now.entries }
    {
        for entry in self.entries.as_slice() {
            if let Some(code) = entry.refuses_read(al) {
                return Some(code);
            }
        }
        None
    }

    // The greatest sizes of the entries, together.
    fn sizes(&self) -> usize
        requires { sizes self.now.entries ≤ 16000 }
        ensures { result ≡ sizes self.now.entries }
    {
        let mut total = 0;
        for entry in self.entries.as_slice() {
            total += entry.most();
        }
        total
    }

    /// Why a download by complete access is refused by its size alone.
    pub(crate) fn check_all(&self, from: u8, size: usize, al: u8) -> Option<u32>
        requires { sizes self.now.entries ≤ 16000 }
        ensures code { result ≡ check_whole al self.now from size }
        ensures small { result ≡ None → size ≤ 16384 }
    {
        if !self.is_whole(from) {
            return Some(NOT_SUPPORTED);
        }
        if let Some(code) = self.refuses_write(al) {
            return Some(code);
        }
        let whole = ahead(from) + self.sizes();
        refuses_size(whole, whole, size)
    }

    // The number of entries that is written has to be the one that stands.
    fn refuses_count(&self, from: u8, bytes: &[u8]) -> Option<u32>
        requires { ahead from ≤ length bytes.now }
        ensures { result ≡ count_refusal self.now from bytes.now }
    {
        if from != 0 {
            return None;
        }
        let count = u16_at(bytes, 0) as usize;
        if count > self.entries.len() {
            Some(ABOVE_MAXIMUM)
        } else if count < self.entries.len() {
            Some(BELOW_MINIMUM)
        } else {
            None
        }
    }

    // The first refusal of values that stand one behind the other.
    fn refuses_values(&self, bytes: &[u8]) -> Option<u32>
        requires { length bytes.now ≡ sizes self.now.entries }
        ensures { result ≡ values_refusal self.now.entries bytes.now }
    {
        let mut rest = bytes;
        for entry in self.entries.as_slice() {
            let most = entry.most();
            if let Some(code) = entry.refuses_value(&rest[..most]) {
                return Some(code);
            }
            rest = &rest[most..];
        }
        None
    }

    // Holds values that stand one behind the other.
    fn hold_all(&mut self, bytes: &[u8])
        requires fixed { are_fixed self.old.entries ≡ true }
        requires size { length bytes.now ≡ sizes self.old.entries }
        ensures { self.new ≡ with_entries self.old (with_values self.old.entries bytes.now) }
    {
        let mut rest = bytes;
        for at in 0..self.entries.len() {
            let entry = self.entries.at_mut(at);
            let most = entry.most();
            entry.hold(&rest[..most]);
            rest = &rest[most..];
        }
    }

    /// Writes all entries by complete access; after `Some` nothing changed.
    pub(crate) fn download_all(&mut self, from: u8, bytes: &[u8], al: u8) -> Option<u32>
        requires { sizes self.old.entries ≤ 16000 }
        ensures { Stores (download_whole al self.old from bytes.now) result self.old self.new }
    {
        if let Some(code) = self.check_all(from, bytes.len(), al) {
            return Some(code);
        }
        if let Some(code) = self.refuses_count(from, bytes) {
            return Some(code);
        }
        let values = &bytes[ahead(from)..];
        if let Some(code) = self.refuses_values(values) {
            return Some(code);
        }
        self.hold_all(values);
        None
    }

    // Appends the values of all entries.
    fn put_values(&self, into: &mut Transfer)
        requires few { sizes self.now.entries ≤ 16000 }
        requires room { length into.old.octets + sizes self.now.entries ≤ into.old.limit }
        ensures octets { into.new.octets ≡ into.old.octets ++ values_in self.now.entries }
        ensures limit { into.new.limit ≡ into.old.limit }
    {
        for entry in self.entries.as_slice() {
            put(into, entry.bytes());
        }
    }

    /// Reads all entries by complete access into a list, whose octets go; it is empty after `Some`.
    pub(crate) fn upload_all(&self, from: u8, al: u8, into: &mut Transfer) -> Option<u32>
        requires few { sizes self.now.entries ≤ 16000 }
        requires count { length self.now.entries ≤ 254 }
        requires room { 16384 ≤ into.old.limit }
        ensures value { Reads (upload_whole al self.now from) result into.new.octets }
        ensures limit { into.new.limit ≡ into.old.limit }
    {
        into.clear();
        if !self.is_whole(from) {
            return Some(NOT_SUPPORTED);
        }
        if let Some(code) = self.refuses_read(al) {
            return Some(code);
        }
        if from == 0 {
            put(into, &[self.entries.len() as u8, 0]);
        }
        self.put_values(into);
        None
    }
}
