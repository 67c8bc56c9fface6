ghost use Rattle.std.specs.Prelude.{◌≡◌, ◌≤◌, []};
ghost use Rattle.gateway_stream.specs.of_ec_outside.Faults.{Rose};
ghost use Rattle.scenario_made.specs.Made.{text_of};
ghost use Rattle.tool_call.specs.of_ecmbx_words.Ends.{PutAll};
ghost use Rattle.tool_call.specs.of_ecmbx_words.declared.status.Status.TheVariants as statuses;

use ec_fields::Octets;
use ec_outside::Sink;
use ecmbx_words::{Status, say_text};
use std::alloc::Global;

/// Puts the scenario of a seed and a size, 1 to 4,096 services.
pub fn make<O: Sink>(alloc: Global, seed: u32, size: u32, out: &mut O) -> Status
    requires { size ≤ 4096 }
    ensures put { PutAll statuses.Done (text_of [] seed size) (O.written out.old) (O.written out.new) result }
    ensures sink { result ≡ statuses.SinkFault → Rose (O.sink_faults out.old) (O.sink_faults out.new) }
{
    let mut text = Octets::new(alloc);
    match scenario_made::make(seed, size, &mut text) {
        Ok(()) => say_text(out, Status::Done, text.bytes()),
        Err(_) => Status::NoMemory,
    }
}
