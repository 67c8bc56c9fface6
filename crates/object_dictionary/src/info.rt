ghost use Rattle.std.specs.Prelude.{◌≡◌, ◌≤◌, ◌<◌, ◌+◌, ◌*◌, ◌++◌, List, true, length, map, count_by, IfSome};
ghost use Rattle.std.specs.Map.{values_of};
ghost use Rattle.byteorder.specs.Endian.{little_bytes};
ghost use Rattle.object_dictionary.specs.Entries.{Reads};
ghost use Rattle.object_dictionary.specs.Information.{has_bit, is_in_list, greatest_sub, first_kind, described, entry_octets, entry_described};

use crate::entry::Entry;
use crate::object::Object;
use crate::refusals::NO_SUBINDEX;
use crate::whole::put;
use ec_fields::{Transfer, put_u16};

/// Appends a number as 16 bits.
pub(crate) fn put_number(into: &mut Transfer, number: u16)
    requires { length into.old.octets + 2 ≤ into.old.limit }
    ensures octets { into.new.octets ≡ into.old.octets ++ little_bytes 2 number }
    ensures limit { into.new.limit ≡ into.old.limit }
{
    let mut field = [0; 2];
    put_u16(&mut field, 0, number);
    put(into, &field);
}

// What is told of an entry.
#[derive(Drop)]
struct Told<'a> {
    kind: u16,
    most: u32,
    access: u16,
    name: &'a [u8],
}

// Appends the description of an entry. Its value info is 0, and its bit length is that of its greatest size.
fn put_entry(into: &mut Transfer, index: u16, sub: u8, told: Told)
    requires room { length into.old.octets + 10 + length told.name.now ≤ into.old.limit }
    requires most { told.most ≤ 8000 }
    ensures octets { into.new.octets ≡ into.old.octets ++ entry_octets index sub told.entry.kind told.entry.most told.entry.access told.entry.name.now }
    ensures limit { into.new.limit ≡ into.old.limit }
{
    put_number(into, index);
    put(into, &[sub, 0]);
    put_number(into, told.kind);
    put_number(into, (8 * told.most) as u16);
    put_number(into, told.access);
    put(into, told.name);
}

fn has_bit(entries: &[Entry], bit: u32) -> bool
    requires { bit < 16 }
    ensures { result ≡ has_bit bit entries.now }
{
    entries.iter().any(|entry| entry.has_bit(bit))
}

impl Object {
    /// Whether the object is in a list: all are in list 1, and those with an entry that has access bit 6 to 9 in the lists 2 to 5.
    pub(crate) fn is_in_list(&self, kind: u16) -> bool
        requires { kind ≤ 5 }
        ensures { result ≡ is_in_list kind self.now }
    {
        let bit = kind as u32 + 4;
        kind == 1 || has_bit(self.entries.as_slice(), bit)
    }

    // The type of the first entry.
    fn first_kind(&self) -> u16
        ensures { result ≡ first_kind self.now.entries }
    {
        match self.entries.as_slice().first() {
            None => 0,
            Some(entry) => entry.kind(),
        }
    }

    fn greatest_sub(&self) -> u8
        requires { length self.now.entries ≤ 254 }
        ensures { result ≡ greatest_sub self.now }
    {
        if self.is_variable() {
            0
        } else {
            self.entries.len() as u8
        }
    }

    /// Appends the description of the object.
    pub(crate) fn describe(&self, index: u16, into: &mut Transfer)
        requires entries { length self.now.entries ≤ 254 }
        requires room { length into.old.octets + 6 + length self.now.name ≤ into.old.limit }
        ensures octets { into.new.octets ≡ into.old.octets ++ described index self.now }
        ensures limit { into.new.limit ≡ into.old.limit }
    {
        put_number(into, index);
        put_number(into, self.first_kind());
        put(into, &[self.greatest_sub(), self.code]);
        put(into, self.name.bytes());
    }

    /// The description of an entry, in place of what a list has; it is empty after `Some`.
    pub(crate) fn describe_entry(&self, index: u16, sub: u8, into: &mut Transfer) -> Option<u32>
        requires { 16384 ≤ into.old.limit }
        ensures value { Reads (entry_described index self.now sub) result into.new.octets }
        ensures limit { into.new.limit ≡ into.old.limit }
    {
        into.clear();
        if self.is_count(sub) {
            let count = Told {
                kind: 5,
                most: 1,
                access: 7,
                name: b"count",
            };
            put_entry(into, index, 0, count);
            return None;
        }
        match self.entry(sub) {
            None => Some(NO_SUBINDEX),
            Some(entry) => {
                let told = Told {
                    kind: entry.kind(),
                    most: entry.most() as u32,
                    access: entry.access(),
                    name: entry.name(),
                };
                put_entry(into, index, sub, told);
                None
            }
        }
    }
}
