ghost use Rattle.std.specs.Prelude.{◌≡◌, ◌⊎◌, ◌<◌};
ghost use Rattle.gateway_stream.specs.of_ec_outside.Faults.{Rose};
ghost use Rattle.run_report.specs.of_run_book.Book.{IsNew};
ghost use Rattle.tool_call.specs.of_ecmbx_words.declared.status.Status.TheVariants as statuses;
ghost use Rattle.ecmbx_call.specs.Serving.{ServedOn};
ghost use Rattle.ecmbx_call.specs.Objects.{told_by, ServesOctets};

use crate::running::{plan_in, tell};
use ec_fields::Octets;
use ec_outside::{Port, Sink};
use ecmbx_words::Status;
use promised_run::promised_serving::serve;
use run_book::{Book, Ending};
use std::alloc::Global;

/// Serves the plan that octets write over a port, until so many datagrams were heard or the port ended, and puts the report; or why they
/// write none, and the port stays as it was. The octets are let go before, as for a run.
pub fn serve_octets<O: Sink, P: Port>(
    alloc: Global,
    octets: Octets,
    count: u32,
    out: &mut O,
    port: &mut P,
    book: &mut Book,
) -> Status
    requires new { IsNew book.old }
    requires some { 0 < count }
    ensures course { ServesOctets O.Sink P.Port octets count port.old port.new book.new out.old out.new result }
    ensures sink { result ≡ statuses.SinkFault → Rose (O.sink_faults out.old) (O.sink_faults out.new) }
    ensures book { IsNew book.new ⊎ ServedOn octets count (told_by P.Port port.old) (told_by P.Port port.new) book.new }
    ensures port { IsNew book.new → port.new ≡ port.old }
{
    let plan = match plan_in(alloc, octets, out) {
        Ok(plan) => plan,
        Err(status) => return status,
    };
    if matches!(serve(alloc, &plan, count, port, book), Ending::NoMemory) {
        return Status::NoMemory;
    }
    tell(alloc, &plan, book, out)
}
