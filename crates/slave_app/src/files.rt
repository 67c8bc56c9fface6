ghost use Rattle.std.specs.Prelude.{◌≡◌, true, false, IfOk};
ghost use Rattle.slave_server.specs.of_file_store.Files.{allowed, get};
ghost use Rattle.slave_server.specs.of_idn_table.Idns.{read_at, write_at, target};
ghost use Rattle.slave_app.specs.Meaning.{meant_by, file_read, file_written, element_read, element_written};

use crate::app::App;
use crate::performed::{Performed, replied, valued};
use crate::sdo::MOST;
use ec_fields::{NoMemory, Octets, Transfer};
use file_store::{Name, Store};
use mailbox_mail::ReplyKind;
use std::alloc::Global;

/// The FoE error code of a file for which there are too few free blocks (ETG.1000.6, "FoE error codes").
const DISK_FULL: u32 = 0x8003;

// The octets of the file of this name.
fn octets_of(alloc: Global, files: &Store, name: &[u8]) -> Result<Octets, NoMemory>
    ensures { IfOk result (λ octets. octets ≡ get files.now.kept name.now) }
{
    let mut octets = vec![in alloc; 0; files.len(name)]?;
    let _all = files.read_at(name, 0, octets.as_mut_slice());
    Ok(Octets::from_vec(octets))
}

impl App {
    /// Reads a whole file, or refuses it by its FoE error code, where FoE is served.
    pub(crate) fn read_file(
        &self,
        alloc: Global,
        name: &Name,
        pass: u32,
    ) -> Result<Performed, NoMemory>
        ensures { IfOk result (λ done. meant_by self.now done ≡ file_read self.now name.now.items (allowed self.now.files.kept name.now.items pass false self.now.al)) }
    {
        match self.files.allowed(name.as_slice(), pass, false, self.al) {
            Some(code) => Ok(replied(alloc, ReplyKind::FoeError(code))),
            None => Ok(valued(octets_of(alloc, &self.files, name.as_slice())?)),
        }
    }

    /// Writes a whole file in place of the old one, or refuses it by its FoE error code, where FoE is served. A version that wasn't committed is
    /// gone behind a request that is allowed.
    pub(crate) fn write_file(
        &mut self,
        alloc: Global,
        name: &Name,
        pass: u32,
        bytes: &[u8],
    ) -> Performed
        ensures { meant_by self.new result ≡ file_written self.old name.now.items bytes.now (allowed self.old.files.kept name.now.items pass true self.old.al) }
    {
        if let Some(code) = self.files.allowed(name.as_slice(), pass, true, self.al) {
            return replied(alloc, ReplyKind::FoeError(code));
        }
        self.files.begin(name.as_slice());
        match self.files.append(bytes) {
            Ok(()) => {
                self.files.commit();
                replied(alloc, ReplyKind::Done)
            }
            Err(_) => {
                self.files.drop_part();
                replied(alloc, ReplyKind::FoeError(DISK_FULL))
            }
        }
    }

    /// Reads a whole element of an IDN, or refuses it by its SoE error code, where SoE is served.
    pub(crate) fn read_idn(
        &self,
        alloc: Global,
        drive: u8,
        idn: u16,
        elements: u8,
    ) -> Result<Performed, NoMemory>
        ensures { IfOk result (λ done. meant_by self.now done ≡ element_read self.now (read_at self.now.idns (target drive idn elements))) }
    {
        let mut value = Transfer::new(alloc, MOST)?;
        match self.idns.read_element(drive, idn, elements, &mut value) {
            Some(code) => Ok(replied(alloc, ReplyKind::SoeError(code))),
            None => Ok(valued(Octets::copy_of(alloc, value.bytes())?)),
        }
    }

    /// Writes a whole element of an IDN, or refuses it by its SoE error code, where SoE is served.
    pub(crate) fn write_idn(
        &mut self,
        alloc: Global,
        drive: u8,
        idn: u16,
        elements: u8,
        bytes: &[u8],
    ) -> Performed
        ensures { meant_by self.new result ≡ element_written self.old (write_at self.old.idns (target drive idn elements) bytes.now) }
    {
        match self.idns.write_element(drive, idn, elements, bytes) {
            Some(code) => replied(alloc, ReplyKind::SoeError(code)),
            None => replied(alloc, ReplyKind::Done),
        }
    }
}
