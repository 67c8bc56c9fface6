ghost use Rattle.std.specs.Prelude.{◌≡◌, ◌≤◌, IfOk, IfErr};
ghost use Rattle.ec_outside.specs.Faults.{Rose};
ghost use Rattle.ecmbx_words.specs.declared.status.Status.TheVariants as statuses;
ghost use Rattle.ecmbx_words.specs.Files.{IsLoaded, IsUnloaded};

use crate::lines::say;
use crate::status::Status;
use crate::texts::{absent, file_fault, too_long};
use ec_fields::Octets;
use ec_outside::{Files, FilesErr, Loaded, Sink};
use std::alloc::Global;

/// The octets of the file under a name, at most so many; or the answer where they can't be had, whose line is put.
pub fn load<F: Files, O: Sink>(
    alloc: Global,
    name: &str,
    limit: usize,
    files: &mut F,
    out: &mut O,
) -> Result<Octets, Status>
    ensures found { IfOk result (IsLoaded limit name.now (F.table files.old)) }
    ensures quiet { IfOk result (λ octets. out.new ≡ out.old) }
    ensures failed { IfErr result (IsUnloaded limit name.now (F.table files.old) (Rose (F.file_faults files.old) (F.file_faults files.new)) (O.written out.old) (O.written out.new)) }
    ensures sink { IfErr result (λ status. status ≡ statuses.SinkFault → Rose (O.sink_faults out.old) (O.sink_faults out.new)) }
    ensures same { F.table files.new ≡ F.table files.old }
    ensures later { F.file_faults files.old ≤ F.file_faults files.new }
{
    let mut octets = Octets::new(alloc);
    match files.load(name, limit, &mut octets) {
        Ok(Loaded::Found) => Ok(octets),
        Ok(Loaded::Absent) => Err(say(out, Status::Absent, absent())),
        Ok(Loaded::TooLong) => Err(say(out, Status::TooLong, too_long())),
        Err(FilesErr::Failed) => Err(say(out, Status::FileFault, file_fault())),
        Err(FilesErr::NoMemory) => Err(Status::NoMemory),
    }
}
