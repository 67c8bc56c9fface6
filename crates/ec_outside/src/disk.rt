ghost use Rattle.std.specs.Prelude.{◌≤◌, length, IfOk};
ghost use Rattle.ec_outside.specs.Files.{LoadsSome};

use crate::files::{Files, FilesErr, Loaded};
use ec_fields::Octets;
use std::fs::OpenFile;
use std::io::{Read, Write};
use std::{fs, io, rt};

/// The files of the runtime, by their paths. What they hold isn't told.
///
/// A save replaces a file whole or not at all, also where the disk is full or the process is
/// killed: it writes a file beside it, of its name and `.part`, and renames that. What was under
/// that name, as the rest of a save that was killed, is lost. A device or a pipe is written to as
/// it stands.
#[derive(Drop)]
pub struct DiskFiles<'a, R: rt::Files + AllocGlobal> {
    rt: &'a R,
    faults: u64,
}

impl<'a, R: rt::Files + AllocGlobal> DiskFiles<'a, R> {
    /// The files, without a fault so far.
    pub fn new(rt: &'a R) -> DiskFiles<'a, R> {
        DiskFiles { rt, faults: 0 }
    }
}

// The file's octets are appended where they fit the limit, and none are kept of a longer file.
fn read_whole(file: &mut (impl Read + Drop), limit: usize, into: &mut Octets) -> io::Result<Loaded>
    requires { length into.old ≤ limit }
    ensures { IfOk result (LoadsSome limit into.new) }
{
    let mut part = [0u8; 4096];
    for _ in 0..u64::MAX {
        let count = file.read(&mut part)?;
        if count == 0 {
            return Ok(Loaded::Found);
        }
        if count > limit - into.len() {
            into.clear();
            return Ok(Loaded::TooLong);
        }
        into.add(&part[..count])
            .map_err(|_| io::Error::from(io::ErrorKind::OutOfMemory))?;
    }
    Ok(Loaded::Found)
}

// A file with the octets, all of them on the disk, and the rights of the one that it is to replace.
fn write_synced<R: rt::Files>(rt: &R, part: &str, old: &str, bytes: &[u8]) -> io::Result<()> {
    let mut file = fs::create(rt, part)?;
    if let Ok(found) = fs::metadata(rt, old) {
        file.set_permissions(found.permissions())?;
    }
    file.write_all(bytes)?;
    file.sync_all()
}

// A plain file, or one that isn't there, is replaced by one that was written beside it.
fn replace<R: rt::Files + AllocGlobal>(rt: &R, path: &str, bytes: &[u8]) -> io::Result<()> {
    let part = format!(in rt.alloc(); "{path}.part")?;
    let replaced = match write_synced(rt, part.as_str(), path, bytes) {
        Ok(()) => fs::rename(rt, part.as_str(), path),
        Err(error) => Err(error),
    };
    if replaced.is_err() {
        // Its room is given back where that can be; the first error is told.
        let _ = fs::remove_file(rt, part.as_str());
    }
    replaced
}

// The file that a link names is replaced, and the link stays.
fn write_through<R: rt::Files + AllocGlobal>(rt: &R, link: &str, bytes: &[u8]) -> io::Result<()> {
    match fs::metadata(rt, link) {
        Ok(found) if found.is_file() => {
            let path = rt.canonicalize(rt.alloc(), link)?;
            replace(rt, path.as_str(), bytes)
        }
        _ => fs::write(rt, link, bytes),
    }
}

fn write_whole<R: rt::Files + AllocGlobal>(rt: &R, name: &str, bytes: &[u8]) -> io::Result<()> {
    match fs::symlink_metadata(rt, name) {
        Ok(found) if found.is_symlink() => write_through(rt, name, bytes),
        Ok(found) if !found.is_file() => fs::write(rt, name, bytes),
        Err(error) if error.kind() != io::ErrorKind::NotFound => Err(error),
        _ => replace(rt, name, bytes),
    }
}

impl<'a, R: rt::Files + AllocGlobal> Files for DiskFiles<'a, R> {
    ghost use Rattle.std.specs.Prelude.{None};

    ghost table = { λ f. None };

    ghost file_faults = { λ f. f.faults };

    fn load(&mut self, name: &str, limit: usize, into: &mut Octets) -> Result<Loaded, FilesErr> {
        into.clear();
        let read = match fs::open(self.rt, name) {
            Ok(mut file) => read_whole(&mut file, limit, into),
            Err(error) => Err(error),
        };
        match read {
            Ok(loaded) => Ok(loaded),
            Err(error) => match error.kind() {
                io::ErrorKind::NotFound => {
                    into.clear();
                    Ok(Loaded::Absent)
                }
                io::ErrorKind::OutOfMemory => Err(FilesErr::NoMemory),
                _ => {
                    self.faults = self.faults.saturating_add(1);
                    Err(FilesErr::Failed)
                }
            },
        }
    }

    fn save(&mut self, name: &str, bytes: &[u8]) -> Result<(), FilesErr> {
        match write_whole(self.rt, name, bytes) {
            Ok(()) => Ok(()),
            Err(error) if error.kind() == io::ErrorKind::OutOfMemory => Err(FilesErr::NoMemory),
            Err(_) => {
                self.faults = self.faults.saturating_add(1);
                Err(FilesErr::Failed)
            }
        }
    }
}
