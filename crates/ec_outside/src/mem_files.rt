ghost use Rattle.std.specs.Prelude.{◌≡◌, ◌≤◌, ◌<◌, [], length, IfSome, IsErrOf, IsTrue, ◌↔◌, OnOk, OnErr, option_map};
ghost use Rattle.ec_outside.specs.Calls.{made, will_fail};
ghost use Rattle.ec_outside.specs.Faults.{Rose};
ghost use Rattle.ec_outside.specs.Files.{file_of, place_of, Stores, Loads, Saves};

use crate::calls::Calls;
use crate::files::{Files, FilesErr, Loaded, StoredFile};
use ec_fields::{NoMemory, Octets, Rows};
use std::alloc::Global;

/// Files in memory of which chosen calls fail, numbered from 0, loads and saves together.
#[derive(Drop)]
pub struct MemFiles {
    pub(crate) alloc: Global,
    pub(crate) files: Rows<StoredFile>,
    pub(crate) calls: Calls,
}

impl MemFiles {
    /// No files yet; the calls of `load` and `save` with these numbers are to fail.
    pub fn new(alloc: Global, failing: Rows<u64>) -> MemFiles
        ensures files { result.files ≡ [] }
        ensures calls { result.calls ≡ record { failing = failing; count = 0; faults = 0 } }
    {
        MemFiles {
            alloc,
            files: Rows::new(alloc),
            calls: Calls::new(failing),
        }
    }

    /// Sets the contents of a name. It isn't counted as a call. After `NoMemory` nothing changed.
    pub fn add(&mut self, name: &str, bytes: &[u8]) -> Result<(), NoMemory>
        ensures ok { OnOk result (Stores name.now bytes.now self.old.files self.new.files) }
        ensures err { OnErr result (self.new.files ≡ self.old.files) }
        ensures calls { self.new.calls ≡ self.old.calls }
    {
        let octets = Octets::copy_of(self.alloc, bytes)?;
        match self.place_of(name) {
            Some(at) => {
                self.files.at_mut(at).octets = octets;
                Ok(())
            }
            None => {
                let name = Octets::copy_of(self.alloc, name.as_bytes())?;
                match self.files.push(StoredFile { name, octets }) {
                    Ok(()) => Ok(()),
                    Err(_) => Err(NoMemory),
                }
            }
        }
    }

    /// The contents of a name; `None` exactly where no file has it.
    pub fn get(&self, name: &str) -> Option<&[u8]>
        ensures { option_map (λ bytes. bytes.now) result ≡ file_of name.now self.now.files }
    {
        for file in self.files.as_slice() {
            if file.name.bytes() == name.as_bytes() {
                return Some(file.octets.bytes());
            }
        }
        None
    }

    fn place_of(&self, name: &str) -> Option<usize>
        ensures place { result ≡ place_of name.now 0 self.now.files }
        ensures within { IfSome result (λ at. at < length self.now.files) }
    {
        for (at, file) in self.files.as_slice().iter().enumerate() {
            if file.name.bytes() == name.as_bytes() {
                return Some(at);
            }
        }
        None
    }
}

impl Files for MemFiles {
    ghost use Rattle.std.specs.Prelude.{Some};

    ghost table = { λ f. Some f.files };

    ghost file_faults = { λ f. f.calls.faults };

    fn load(&mut self, name: &str, limit: usize, into: &mut Octets) -> Result<Loaded, FilesErr>
        ensures loaded { Loads (Some self.old.files) name.now limit into.new result }
        ensures failing { IsErrOf result FilesErr.Failed ↔ IsTrue (will_fail self.old.calls) }
        ensures calls { self.new.calls ≡ made self.old.calls }
        ensures same { self.new.files ≡ self.old.files }
        ensures later { self.old.calls.faults ≤ self.new.calls.faults }
        ensures cause { result ≡ Err FilesErr.Failed → Rose self.old.calls.faults self.new.calls.faults }
    {
        if self.calls.fails() {
            return Err(FilesErr::Failed);
        }
        into.clear();
        match self.get(name) {
            None => Ok(Loaded::Absent),
            Some(octets) if octets.len() > limit => Ok(Loaded::TooLong),
            Some(octets) => match into.add(octets) {
                Ok(()) => Ok(Loaded::Found),
                Err(_) => Err(FilesErr::NoMemory),
            },
        }
    }

    fn save(&mut self, name: &str, bytes: &[u8]) -> Result<(), FilesErr>
        ensures saved { Saves (Some self.old.files) (Some self.new.files) name.now bytes.now result }
        ensures failing { IsErrOf result FilesErr.Failed ↔ IsTrue (will_fail self.old.calls) }
        ensures none { OnErr result (self.new.files ≡ self.old.files) }
        ensures calls { self.new.calls ≡ made self.old.calls }
        ensures later { self.old.calls.faults ≤ self.new.calls.faults }
        ensures cause { result ≡ Err FilesErr.Failed → Rose self.old.calls.faults self.new.calls.faults }
    {
        if self.calls.fails() {
            return Err(FilesErr::Failed);
        }
        match self.add(name, bytes) {
            Ok(()) => Ok(()),
            Err(_) => Err(FilesErr::NoMemory),
        }
    }
}
