ghost use Rattle.std.specs.Prelude.{◌≡◌};
ghost use Rattle.ec_outside.specs.Faults.{Rose};
ghost use Rattle.ecmbx_words.specs.declared.status.Status.TheVariants as statuses;
ghost use Rattle.ecmbx_words.specs.Files.{Followed};
ghost use Rattle.entry_call.specs.Refused.{RefusedCourse};

use ec_fields::NoMemory;
use ec_outside::Sink;
use ecmbx_words::{Status, refusal, say};
use scenario::Place;
use std::alloc::Global;

// The lines of a scenario that is refused.
pub(crate) fn put_refused<O: Sink>(
    alloc: Global,
    _name: &str,
    _octets: &[u8],
    rule: u8,
    place: Place,
    out: &mut O,
) -> Status
    ensures course { Followed (RefusedCourse _name.now _octets.now rule place) (O.written out.old) (O.written out.new) result }
    ensures sink { result ≡ statuses.SinkFault → Rose (O.sink_faults out.old) (O.sink_faults out.new) }
{
    match refusal(alloc, rule, place) {
        Ok(line) => say(out, Status::Refused, line.bytes()),
        Err(NoMemory) => Status::NoMemory,
    }
}
