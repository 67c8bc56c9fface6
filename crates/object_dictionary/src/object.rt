ghost use Rattle.std.specs.Prelude.{◌≡◌, ◌≤◌, ◌<◌, [], true, length, None, IfOk};
ghost use Rattle.std.specs.Option.{option_copied};
ghost use Rattle.object_dictionary.specs.Entries.{Stores, Reads};
ghost use Rattle.object_dictionary.specs.Dictionary.{is_variable, is_count, entry_place, entry_at, check_object, download_object, upload_object};
ghost use Rattle.object_dictionary.specs.Sound.{are_entries};

use crate::entry::{Entry, EntrySpec};
use crate::refusals::{NO_SUBINDEX, NOT_WRITABLE};
use crate::whole::put;
use ec_fields::{NoMemory, Octets, Rows, Transfer};
use std::alloc::Global;

/// An object that is kept, but for its index (ETG.1000.6, section 5.6.7).
#[derive(Drop)]
pub(crate) struct Object {
    /// The object code: 7 variable, 8 array, 9 record.
    pub(crate) code: u8,
    /// The name, 0 to 40 characters.
    pub(crate) name: Octets,
    /// The one entry of a variable, or the entries of an array or record from subindex 1 on.
    pub(crate) entries: Rows<Entry>,
}

/// Entries of these kinds, with memory for their greatest values.
pub(crate) fn copies_of(alloc: Global, specs: &[EntrySpec]) -> Result<Rows<Entry>, NoMemory>
    requires { are_entries specs.now ≡ true }
    ensures { IfOk result (λ entries. entries ≡ specs.now) }
{
    let mut entries = Rows::new(alloc);
    for spec in specs {
        let entry = Entry::copy_of(alloc, spec)?;
        if entries.push(entry).is_err() {
            return Err(NoMemory);
        }
    }
    Ok(entries)
}

impl Object {
    /// Whether the object is a variable, whose one entry has subindex 0.
    pub(crate) fn is_variable(&self) -> bool
        ensures { result ≡ is_variable self.now }
    {
        self.code == 7
    }

    /// Whether a subindex is that of the number of entries.
    pub(crate) fn is_count(&self, sub: u8) -> bool
        ensures { result ≡ is_count self.now sub }
    {
        !self.is_variable() && sub == 0
    }

    // Where the entry of a subindex is that isn't the number of entries.
    fn place_of(&self, sub: u8) -> usize
        ensures { result ≡ entry_place self.now sub }
    {
        let sub = sub as usize;
        if self.is_variable() || sub == 0 {
            sub
        } else {
            sub - 1
        }
    }

    /// The entry of a subindex that isn't the number of entries.
    pub(crate) fn entry(&self, sub: u8) -> Option<&Entry>
        ensures { option_copied result ≡ entry_at self.now sub }
    {
        self.entries.get(self.place_of(sub))
    }

    /// Why a download is refused by its size alone.
    pub(crate) fn check(&self, sub: u8, size: usize, al: u8) -> Option<u32>
        ensures code { result ≡ check_object al self.now sub size }
        ensures small { result ≡ None → size ≤ 8000 }
    {
        if self.is_count(sub) {
            return Some(NOT_WRITABLE);
        }
        match self.entry(sub) {
            None => Some(NO_SUBINDEX),
            Some(entry) => entry.check(size, al),
        }
    }

    /// Writes an entry; after `Some` nothing changed.
    pub(crate) fn download(&mut self, sub: u8, bytes: &[u8], al: u8) -> Option<u32>
        ensures { Stores (download_object al self.old sub bytes.now) result self.old self.new }
    {
        if self.is_count(sub) {
            return Some(NOT_WRITABLE);
        }
        let place = self.place_of(sub);
        if place >= self.entries.len() {
            return Some(NO_SUBINDEX);
        }
        self.entries.at_mut(place).download(bytes, al)
    }

    /// Appends the value of an entry to a list that is empty; it stays so after `Some`.
    pub(crate) fn upload(&self, sub: u8, al: u8, into: &mut Transfer) -> Option<u32>
        requires room { 16384 ≤ into.old.limit }
        requires empty { into.old.octets ≡ [] }
        requires count { length self.now.entries ≤ 254 }
        ensures value { Reads (upload_object al self.now sub) result into.new.octets }
        ensures limit { into.new.limit ≡ into.old.limit }
    {
        if self.is_count(sub) {
            put(into, &[self.entries.len() as u8]);
            return None;
        }
        match self.entry(sub) {
            None => Some(NO_SUBINDEX),
            Some(entry) => {
                if let Some(code) = entry.refuses_read(al) {
                    return Some(code);
                }
                put(into, entry.bytes());
                None
            }
        }
    }
}
