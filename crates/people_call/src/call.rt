ghost use Rattle.std.specs.Prelude.{◌≡◌, ◌≤◌, map, IfSome, string_bytes};
ghost use Rattle.ec_outside.specs.Faults.{Rose};
ghost use Rattle.ecmbx_words.specs.declared.status.Status.TheVariants as statuses;
ghost use Rattle.people_words.specs.declared.ended.Ended.TheVariants as ends;
ghost use Rattle.people_call.specs.Course.{Comes};

use crate::forms::{Form, form_of};
use crate::telling::tell_words;
use ec_outside::{Files, Port, Sink};
use entry_call::get_or_put;
use people_words::Ended;
use std::alloc::Global;

/// Does what the words ask for, where the first is that of a form for people: `explain`, `help`, `version`, `get` or `put`.
/// None of any other words, for which nothing is done.
pub fn people_call<F: Files, O: Sink, P: Port>(
    alloc: Global,
    words: &[String],
    files: &mut F,
    out: &mut O,
    port: &mut P,
) -> Option<Ended>
    ensures course { Comes F.Files O.Sink P.Port (map string_bytes words.now) files.old files.new out.old out.new port.old port.new result }
    ensures cause { IfSome result (λ end. end ≡ ends.As statuses.SinkFault → Rose (O.sink_faults out.old) (O.sink_faults out.new)) }
    ensures later { F.file_faults files.old ≤ F.file_faults files.new }
{
    match form_of(words) {
        Form::Told => Some(tell_words(alloc, words, out)),
        Form::Entry => Some(get_or_put(alloc, words, files, out, port)),
        Form::Other => None,
    }
}
