ghost use Rattle.std.specs.Prelude.{◌≡◌, ◌≤◌, ◌<◌, ◌+◌, [], ◌∷◌, ◌++◌, nat_lt, true, length, None, is_some, IfOk, OnOk, OnErr};
ghost use Rattle.std.specs.List.{position_or_len};
ghost use Rattle.std.specs.Map.{keys_of};
ghost use Rattle.object_dictionary.specs.Entries.{Stores, Reads};
ghost use Rattle.object_dictionary.specs.Dictionary.{object_of, check_download, download, upload};
ghost use Rattle.object_dictionary.specs.Whole.{check_download_all, download_all, upload_all};
ghost use Rattle.object_dictionary.specs.Information.{list_count, list_octets, list_info, object_info, entry_info, info, is_question};
ghost use Rattle.object_dictionary.specs.Sound.{is_object, is_emitter, is_table, placed, own_table, emitter_object, emitter_entry};

use crate::entry::EntrySpec;
use crate::info::put_number;
use crate::object::{Object, copies_of};
use crate::refusals::{NO_OBJECT, NOT_SUPPORTED};
use crate::service::SdoService;
use ec_fields::{NoMemory, Octets, Rows, Transfer};
use indexmap::IndexMap;
use std::alloc::Global;
use std::marker::Model;

/// The object dictionary of one slave: objects by their indexes, in rising order. After `insert` no call takes memory.
#[derive(Drop)]
pub struct Objects {
    alloc: Global,
    table: IndexMap<u16, Object>,
}

impl Model for Objects {
    ghost use Rattle.std.specs.Prelude.{◌≡◌, true};
    ghost use Rattle.object_dictionary.specs.Dictionary.{Table};
    ghost use Rattle.object_dictionary.specs.Sound.{is_table};

    ghost Value = { Table };

    ghost view = { λ o. o.table.entries };

    ghost invariant = { λ o. is_table o.table.entries ≡ true };
}

// Where the first object with a greater index is.
fn place_above(table: &IndexMap<u16, Object>, index: u16) -> usize
    ensures { result ≡ position_or_len (nat_lt index) (keys_of table.now.entries) }
{
    for at in 0..table.len() {
        if let Some((key, _)) = table.get_index(at) {
            if index < *key {
                return at;
            }
        }
    }
    table.len()
}

// The one entry of an object of the profile.
fn emitter_entries(alloc: Global, zeros: &[u8], most: u32) -> Result<Rows<EntrySpec>, NoMemory>
    requires { length zeros.now ≤ 14 }
    ensures { IfOk result (λ rows. rows ≡ emitter_entry zeros.now most ∷ []) }
{
    let mut entries = Rows::new(alloc);
    let value = Octets::copy_of(alloc, zeros)?;
    let entry = EntrySpec {
        kind: 10,
        access: 0x38,
        least: zeros.len() as u32,
        most,
        min: None,
        max: None,
        name: Octets::new(alloc),
        value,
    };
    match entries.push(entry) {
        Ok(()) => Ok(entries),
        Err(_) => Err(NoMemory),
    }
}

impl Objects {
    /// The profile's own objects: 0x2F00, whose download emits an emergency, and with EoE 0x2F01, whose download emits a packet.
    pub fn new(alloc: Global, eoe: bool) -> Result<Objects, NoMemory>
        ensures { IfOk result (λ objects. objects ≡ own_table eoe) }
    {
        let mut objects = Objects {
            alloc,
            table: IndexMap::new(alloc),
        };
        objects.insert_emitter(0x2F00, b"Emergency", &[0; 8], 8)?;
        if eoe {
            objects.insert_emitter(0x2F01, b"Packet", &[0; 14], 1514)?;
        }
        Ok(objects)
    }

    // An object of the profile: an array of one OCTET_STRING that can be written alone.
    fn insert_emitter(
        &mut self,
        index: u16,
        name: &[u8],
        zeros: &[u8],
        most: u32,
    ) -> Result<(), NoMemory>
        requires absent { object_of self.old index ≡ None }
        requires few { length self.old < 258 }
        requires size { length zeros.now ≤ 14 }
        requires object { is_object (emitter_object name.now zeros.now most) ≡ true }
        requires emitter { is_emitter index (emitter_object name.now zeros.now most) ≡ true }
        ensures { OnOk result (self.new ≡ placed index (emitter_object name.now zeros.now most) self.old) }
    {
        let entries = emitter_entries(self.alloc, zeros, most)?;
        let name = Octets::copy_of(self.alloc, name)?;
        self.insert(index, 8, name, entries)
    }

    /// Adds an object, at its place among the indexes. It takes the memory of the greatest value of each entry. After `NoMemory` the objects
    /// are as before.
    pub fn insert(
        &mut self,
        index: u16,
        code: u8,
        name: Octets,
        entries: Rows<EntrySpec>,
    ) -> Result<(), NoMemory>
        requires absent { object_of self.old index ≡ None }
        requires few { length self.old < 258 }
        requires object { is_object (record { code = code; name = name; entries = entries }) ≡ true }
        requires emitter { is_emitter index (record { code = code; name = name; entries = entries }) ≡ true }
        ensures placed { OnOk result (self.new ≡ placed index (record { code = code; name = name; entries = entries }) self.old) }
        ensures err { OnErr result (self.new ≡ self.old) }
    {
        let entries = copies_of(self.alloc, entries.as_slice())?;
        let object = Object {
            code,
            name,
            entries,
        };
        let place = place_above(&self.table, index);
        self.table.shift_insert(place, index, object)?;
        Ok(())
    }

    /// Whether there is an object of this index.
    pub fn has(&self, index: u16) -> bool
        ensures { result ≡ is_some (object_of self.now index) }
    {
        self.table.contains_key(&index)
    }

    /// How many objects there are.
    pub fn len(&self) -> usize
        ensures count { result ≡ length self.now }
        ensures sound { is_table self.now ≡ true }
    {
        self.table.len()
    }

    /// Why a download of a value of this size to an entry is refused by its size alone: the first abort code that stands before those on the
    /// value itself (CiA 301, "SDO abort codes").
    pub fn check_download(&self, index: u16, sub: u8, size: u32, al: u8) -> Option<u32>
        ensures code { result ≡ check_download al self.now index sub size }
        ensures small { result ≡ None → size ≤ 16384 }
    {
        match self.table.get(&index) {
            None => Some(NO_OBJECT),
            Some(object) => object.check(sub, size as usize, al),
        }
    }

    /// The same for a download of all entries by complete access, from subindex 0 or 1 on.
    pub fn check_download_all(&self, index: u16, from: u8, size: u32, al: u8) -> Option<u32>
        ensures code { result ≡ check_download_all al self.now index from size }
        ensures small { result ≡ None → size ≤ 16384 }
    {
        match self.table.get(&index) {
            None => Some(NO_OBJECT),
            Some(object) => object.check_all(from, size as usize, al),
        }
    }

    /// Writes an entry, or answers the abort code; then nothing changed. It takes no memory.
    pub fn download(&mut self, index: u16, sub: u8, bytes: &[u8], al: u8) -> Option<u32>
        ensures stores { Stores (download al self.old index sub bytes.now) result self.old self.new }
        ensures sound { is_table self.old ≡ true }
    {
        download_in(&mut self.table, index, sub, bytes, al)
    }

    /// Writes all entries of an array or record by complete access, from subindex 0 or 1 on, or answers the abort code; then nothing changed.
    /// All checks come before the first write.
    pub fn download_all(&mut self, index: u16, from: u8, bytes: &[u8], al: u8) -> Option<u32>
        ensures stores { Stores (download_all al self.old index from bytes.now) result self.old self.new }
        ensures sound { is_table self.old ≡ true }
    {
        download_all_in(&mut self.table, index, from, bytes, al)
    }

    /// Reads the value of an entry in place of what the list has, or answers the abort code; then the list is empty.
    pub fn upload(&self, index: u16, sub: u8, al: u8, into: &mut Transfer) -> Option<u32>
        requires { 16384 ≤ into.old.limit }
        ensures value { Reads (upload al self.now index sub) result into.new.octets }
        ensures limit { into.new.limit ≡ into.old.limit }
    {
        into.clear();
        match self.table.get(&index) {
            None => Some(NO_OBJECT),
            Some(object) => object.upload(sub, al, into),
        }
    }

    /// Reads all entries by complete access, as one value: from subindex 0 their number in 16 bits and the entries, from 1 the entries alone.
    pub fn upload_all(&self, index: u16, from: u8, al: u8, into: &mut Transfer) -> Option<u32>
        requires { 16384 ≤ into.old.limit }
        ensures value { Reads (upload_all al self.now index from) result into.new.octets }
        ensures limit { into.new.limit ≡ into.old.limit }
    {
        into.clear();
        match self.table.get(&index) {
            None => Some(NO_OBJECT),
            Some(object) => object.upload_all(from, al, into),
        }
    }

    // How many objects a list has.
    fn list_len(&self, kind: u16) -> u16
        requires { kind ≤ 5 }
        ensures { result ≡ list_count kind self.now }
    {
        // What the type keeps of its table is wanted in the proof: reading it brings it there.
        let _ = &self.table;
        self.table
            .values()
            .filter(|object| object.is_in_list(kind))
            .count() as u16
    }

    // Appends the indexes of a list.
    fn put_list(&self, kind: u16, into: &mut Transfer)
        requires kind { kind ≤ 5 }
        requires room { length into.old.octets + 600 ≤ into.old.limit }
        ensures octets { into.new.octets ≡ into.old.octets ++ list_octets kind self.now }
        ensures limit { into.new.limit ≡ into.old.limit }
    {
        // What the type keeps of its table is wanted in the proof: reading it brings it there.
        let _ = &self.table;
        for at in 0..self.table.len() {
            if let Some((index, object)) = self.table.get_index(at) {
                if object.is_in_list(kind) {
                    put_number(into, *index);
                }
            }
        }
    }

    fn list_info(&self, kind: u16, into: &mut Transfer) -> Option<u32>
        requires { 16384 ≤ into.old.limit }
        ensures value { Reads (list_info self.now kind) result into.new.octets }
        ensures limit { into.new.limit ≡ into.old.limit }
    {
        into.clear();
        if kind > 5 {
            return Some(NOT_SUPPORTED);
        }
        put_number(into, kind);
        if kind == 0 {
            put_number(into, self.list_len(1));
            put_number(into, self.list_len(2));
            put_number(into, self.list_len(3));
            put_number(into, self.list_len(4));
            put_number(into, self.list_len(5));
        } else {
            self.put_list(kind, into);
        }
        None
    }

    fn object_info(&self, index: u16, into: &mut Transfer) -> Option<u32>
        requires { 16384 ≤ into.old.limit }
        ensures value { Reads (object_info self.now index) result into.new.octets }
        ensures limit { into.new.limit ≡ into.old.limit }
    {
        into.clear();
        match self.table.get(&index) {
            None => Some(NO_OBJECT),
            Some(object) => {
                object.describe(index, into);
                None
            }
        }
    }

    fn entry_info(&self, index: u16, sub: u8, into: &mut Transfer) -> Option<u32>
        requires { 16384 ≤ into.old.limit }
        ensures value { Reads (entry_info self.now index sub) result into.new.octets }
        ensures limit { into.new.limit ≡ into.old.limit }
    {
        into.clear();
        match self.table.get(&index) {
            None => Some(NO_OBJECT),
            Some(object) => object.describe_entry(index, sub, into),
        }
    }

    /// Tells of the objects what an information service asks, in place of what the list has: the octets behind the header of its answer. After
    /// an abort code the list is empty (ETG.1000.6, "SDO Information").
    pub fn info(&self, service: &SdoService, into: &mut Transfer) -> Option<u32>
        requires limit { 16384 ≤ into.old.limit }
        requires question { is_question service.now ≡ true }
        ensures value { Reads (info self.now service.now) result into.new.octets }
        ensures limit { into.new.limit ≡ into.old.limit }
    {
        match service {
            SdoService::List { kind } => self.list_info(*kind, into),
            SdoService::ObjectInfo { index } => self.object_info(*index, into),
            SdoService::EntryInfo {
                index,
                sub,
                info: _,
            } => self.entry_info(*index, *sub, into),
            SdoService::Download {
                index: _,
                sub: _,
                bytes: _,
            }
            | SdoService::DownloadAll {
                index: _,
                from: _,
                bytes: _,
            }
            | SdoService::Upload { index: _, sub: _ }
            | SdoService::UploadAll { index: _, from: _ } => unreachable!(),
        }
    }
}

fn download_in(
    table: &mut IndexMap<u16, Object>,
    index: u16,
    sub: u8,
    bytes: &[u8],
    al: u8,
) -> Option<u32>
    ensures { Stores (download al table.old.entries index sub bytes.now) result table.old.entries table.new.entries }
{
    match table.get_mut(&index) {
        None => Some(NO_OBJECT),
        Some(object) => object.download(sub, bytes, al),
    }
}

fn download_all_in(
    table: &mut IndexMap<u16, Object>,
    index: u16,
    from: u8,
    bytes: &[u8],
    al: u8,
) -> Option<u32>
    requires { is_table table.old.entries ≡ true }
    ensures { Stores (download_all al table.old.entries index from bytes.now) result table.old.entries table.new.entries }
{
    match table.get_mut(&index) {
        None => Some(NO_OBJECT),
        Some(object) => object.download_all(from, bytes, al),
    }
}
