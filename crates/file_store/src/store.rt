ghost use Rattle.std.specs.Prelude.{◌≡◌, ◌+◌, ◌-◌, ◌<◌, ◌≤◌, ◌↔◌, true, [], ◌∷◌, ◌++◌, length, take, drop, min, find, is_some, IfOk, IfSome, IfNone, OnOk, OnErr, IsErr, Some, None};
ghost use Rattle.block_pool.specs.Region.{blocks_for};
ghost use Rattle.file_store.specs.Files.{Filed, Kept, file_of, free_of, is_valid, allowed, busy_of, get, put, is_named, refused_by};
ghost use Rattle.file_store.specs.Store.{IsPlaceOf, has_name};
ghost use Rattle.file_store.specs.Stored.{Stored, Part, HasPart, part_name, part_octets, free_now};

use crate::file::{File, FileSpec, NOT_FOUND, Name, Version};
use arrayvec::ArrayVec;
use block_pool::{Pool, PoolFull};
use ec_fields::{NoMemory, buffer_of};
use std::alloc::Global;
use std::marker::Model;
use std::mem;

/// How many files there may be.
const FILES: u32 = 32;

/// FoE error codes (ETG.1000.6, "FoE error codes").
const ACCESS_DENIED: u32 = 0x8002;

const BOOTSTRAP_ONLY: u32 = 0x8008;

const NOT_IN_BOOTSTRAP: u32 = 0x8009;

/// AL state Bootstrap (ETG.1000.6, "AL status").
const BOOTSTRAP: u8 = 3;

/// The files of a slave. Each is a chain of one region of blocks of 128 octets, and so is a version that isn't committed. After `new` and
/// `insert` no call takes memory.
#[derive(Drop)]
pub struct Store {
    pool: Pool,
    files: Vec<File>,
    part: Option<Version>,
}

impl Model for Store {
    ghost use Rattle.file_store.specs.Stored.{Stored};

    ghost Value = { Stored };

    ghost use Rattle.file_store.specs.Store.{stored_of, IsStore};

    ghost view = { λ s. stored_of s.pool s.files.items s.part };

    ghost invariant = { λ s. IsStore s.pool s.files.items s.part };
}

// The place of the file of this name.
fn place_of(files: &[File], name: &[u8]) -> Option<usize>
    ensures found { IfSome result (IsPlaceOf name.now files.now) }
    ensures none { IfNone result (find (has_name name.now) files.now ≡ None) }
{
    for (place, file) in files.iter().enumerate() {
        if file.spec.name.as_slice() == name {
            return Some(place);
        }
    }
    None
}

// The FoE code by which a file refuses.
fn refused_by(spec: &FileSpec, pass: u32, write: bool, al: u8) -> Option<u32>
    ensures { result ≡ refused_by spec.now pass write al }
{
    if spec.boot && al != BOOTSTRAP {
        return Some(BOOTSTRAP_ONLY);
    }
    if !spec.boot && al == BOOTSTRAP {
        return Some(NOT_IN_BOOTSTRAP);
    }
    if pass != spec.pass {
        return Some(ACCESS_DENIED);
    }
    let right = if write { spec.write } else { spec.read };
    if right { None } else { Some(ACCESS_DENIED) }
}

impl Store {
    /// A store of so many blocks, without a file. There are 1,024 at most, since no file transfer takes more than 131,072 octets.
    pub fn new(alloc: Global, blocks: u32) -> Result<Store, NoMemory>
        requires { blocks ≤ 1024 }
        ensures { IfOk result (λ store. store ≡ record { kept = record { files = []; blocks = blocks }; part = None }) }
    {
        let pool = Pool::new(alloc, blocks, FILES + 1)?;
        Ok(Store {
            pool,
            files: Vec::new(alloc),
            part: None,
        })
    }

    /// Adds a file with these octets, which fit the free blocks. It is busy 15 times at most, its name isn't there, and fewer than 32 files
    /// are. After `NoMemory` nothing changed.
    pub fn insert(&mut self, spec: FileSpec, bytes: &[u8]) -> Result<(), NoMemory>
        requires absent { file_of self.old.kept spec.name.items ≡ None }
        requires few { length self.old.kept.files < 32 }
        requires busy { spec.busy ≤ 15 }
        requires fits { blocks_for (length bytes.now) ≤ free_now self.old }
        ensures ok { OnOk result (self.new ≡ record self.old { kept = record self.old.kept { files = self.old.kept.files ++ (record { spec = spec; octets = bytes.now }) ∷ [] } }) }
        ensures err { OnErr result (self.new ≡ self.old) }
    {
        self.files.reserve(1)?;
        match self.pool.begin() {
            None => unreachable!(),
            Some(chain) => {
                self.pool.append(&chain, bytes).unwrap();
                self.files.push(File { spec, chain }).unwrap();
                Ok(())
            }
        }
    }

    /// The FoE code that refuses the file of this name to a request to read or write it with this password, at this AL state; `None` where
    /// it is allowed. In their order: 8001 no such name, 8008 a boot file outside Bootstrap, 8009 another one in Bootstrap, 8002 a wrong
    /// password or no such right (ETG.1000.6, "FoE error codes").
    pub fn allowed(&self, name: &[u8], pass: u32, write: bool, al: u8) -> Option<u32>
        ensures code { result ≡ allowed self.now.kept name.now pass write al }
        ensures there { IfNone result (is_some (file_of self.now.kept name.now) ≡ true) }
        ensures valid { is_valid self.now.kept ≡ true }
    {
        match place_of(self.files.as_slice(), name) {
            None => Some(NOT_FOUND),
            Some(place) => {
                let file = &self.files[place];
                refused_by(&file.spec, pass, write, al)
            }
        }
    }

    /// Begins a new version of the file of this name, which is there. A version that wasn't committed is dropped.
    pub fn begin(&mut self, name: &[u8])
        requires { is_some (file_of self.old.kept name.now) ≡ true }
        ensures { self.new ≡ record self.old { part = Some (record { name = name.now; octets = [] }) } }
    {
        self.drop_part();
        match place_of(self.files.as_slice(), name) {
            None => unreachable!(),
            Some(place) => {
                let file = &self.files[place];
                let name = buffer_of(file.spec.name.as_slice());
                self.begin_chain(name);
            }
        }
    }

    // A new chain for a version of the file of this name, where no version is begun.
    fn begin_chain(&mut self, name: Name)
        requires none { self.old.part ≡ None }
        requires there { is_some (file_of self.old.kept name.items) ≡ true }
        ensures { self.new ≡ record self.old { part = Some (record { name = name.items; octets = [] }) } }
    {
        match self.pool.begin() {
            None => unreachable!(),
            Some(chain) => {
                self.part = Some(Version { name, chain });
            }
        }
    }

    /// Appends octets to the version that is begun. `PoolFull` exactly where the version's blocks would then exceed those that no file has,
    /// and then nothing changed.
    pub fn append(&mut self, bytes: &[u8]) -> Result<(), PoolFull>
        requires { HasPart self.old }
        ensures full { IsErr result ↔ (free_of self.old.kept < blocks_for (length (part_octets self.old) + length bytes.now)) }
        ensures ok { OnOk result (self.new ≡ record self.old { part = Some (record { name = part_name self.old; octets = part_octets self.old ++ bytes.now }) }) }
        ensures err { OnErr result (self.new ≡ self.old) }
        ensures short { OnOk result (length (part_octets self.new) ≤ 131072) }
    {
        match &self.part {
            None => unreachable!(),
            Some(part) => self.pool.append(&part.chain, bytes),
        }
    }

    /// The version that is begun becomes the file; the old one's blocks are free at once.
    pub fn commit(&mut self)
        requires { HasPart self.old }
        ensures { self.new ≡ record { kept = put self.old.kept (part_name self.old) (part_octets self.old); part = None } }
    {
        match self.part.take() {
            None => unreachable!(),
            Some(part) => match place_of(self.files.as_slice(), part.name.as_slice()) {
                None => unreachable!(),
                Some(place) => {
                    let old = mem::replace(&mut self.files[place].chain, part.chain);
                    self.pool.close(old);
                }
            },
        }
    }

    /// Drops the version that isn't committed, where one is begun; its blocks are free at once.
    pub fn drop_part(&mut self)
        ensures { self.new ≡ record self.old { part = None } }
    {
        if let Some(part) = self.part.take() {
            self.pool.close(part.chain);
        }
    }

    /// How many octets the file of this name has; 0 where no file has the name.
    pub fn len(&self, name: &[u8]) -> usize
        ensures len { result ≡ length (get self.now.kept name.now) }
        ensures short { result ≤ 131072 }
    {
        match place_of(self.files.as_slice(), name) {
            None => 0,
            Some(place) => {
                let file = &self.files[place];
                self.pool.len(&file.chain)
            }
        }
    }

    /// How often the file of this name, which is there, answers the last packet of a write by busy.
    pub fn busy(&self, name: &[u8]) -> u8
        requires { is_some (file_of self.now.kept name.now) ≡ true }
        ensures { result ≡ busy_of self.now.kept name.now }
    {
        match place_of(self.files.as_slice(), name) {
            None => unreachable!(),
            Some(place) => {
                let file = &self.files[place];
                file.spec.busy
            }
        }
    }

    /// Appends to a buffer the octets of the file of this name from a place on, at most so many; none where no file has the name. It costs the
    /// octets appended.
    pub fn append_to<const CAP: usize>(
        &self,
        name: &[u8],
        at: usize,
        most: usize,
        into: &mut ArrayVec<u8, CAP>,
    )
        requires { length into.old.items + most ≤ CAP }
        ensures { into.new.items ≡ into.old.items ++ take most (drop at (get self.now.kept name.now)) }
    {
        if let Some(place) = place_of(self.files.as_slice(), name) {
            let file = &self.files[place];
            self.pool.append_to(&file.chain, at, most, into);
        }
    }

    /// Copies the octets of the file of this name from a place on, as many as there are and fit `into`, and says how many; 0 where no file
    /// has the name. It costs the octets copied.
    pub fn read_at(&self, name: &[u8], at: usize, into: &mut [u8]) -> usize
        ensures count { result ≡ min (length (get self.now.kept name.now) - at) (length into.old) }
        ensures copied { into.new ≡ take result (drop at (get self.now.kept name.now)) ++ drop result into.old }
    {
        match place_of(self.files.as_slice(), name) {
            None => 0,
            Some(place) => {
                let file = &self.files[place];
                self.pool.read_at(&file.chain, at, into)
            }
        }
    }

    /// How many blocks are free: those that neither a file nor the version has.
    pub fn free(&self) -> u32
        ensures { result + blocks_for (length (part_octets self.now)) ≡ free_of self.now.kept }
    {
        self.pool.free()
    }
}
