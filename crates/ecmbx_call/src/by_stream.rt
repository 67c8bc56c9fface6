ghost use Rattle.std.specs.Prelude.{◌≡◌, ◌⊎◌, ◌<◌};
ghost use Rattle.gateway_stream.specs.of_ec_outside.Faults.{Rose};
ghost use Rattle.run_report.specs.of_run_book.Book.{IsNew};
ghost use Rattle.tool_call.specs.of_ecmbx_words.declared.status.Status.TheVariants as statuses;
ghost use Rattle.tool_call.specs.of_ecmbx_words.Form.{as_serve};
ghost use Rattle.ecmbx_call.specs.Course.{words_of, Began};
ghost use Rattle.ecmbx_call.specs.Serving.{ServedIn};
ghost use Rattle.ecmbx_call.specs.Causes.{ServesNone};
ghost use Rattle.ecmbx_call.specs.Objects.{first_of, last_of, PutsNoMore, ServesOnLink, CarriesOnLink, CallsOnLink};

use crate::top::serve_file;
use ec_links::Link;
use ec_outside::{Files, Sink};
use ecmbx_words::{Status, say, stream_of, usage};
use gateway_stream::WholePort;
use run_book::Book;
use std::alloc::Global;

// Serves the scenario under a name over a link.
fn stream_file<F: Files, O: Sink, L: Link>(
    alloc: Global,
    name: &str,
    count: u32,
    files: &mut F,
    out: &mut O,
    link: L,
    book: &mut Book,
) -> (Status, L)
    requires new { IsNew book.old }
    requires some { 0 < count }
    ensures course { ServesOnLink F.Files O.Sink L.Link name.now count link result.1 book.new files.old files.new out.old out.new result.0 }
    ensures sink { result.0 ≡ statuses.SinkFault → Rose (O.sink_faults out.old) (O.sink_faults out.new) }
    ensures book { IsNew book.new ⊎ ServedIn name.now (F.table files.old) count (first_of L.Link link) (last_of L.Link link result.1) book.new }
    ensures same { F.table files.new ≡ F.table files.old }
    ensures link { IsNew book.new → result.1 ≡ link }
    ensures puts { PutsNoMore L.Link link result.1 book.new }
{
    let mut port = WholePort::new(link);
    let status = serve_file(alloc, name, count, files, out, &mut port, book);
    (status, port.into_link())
}

fn carry_out<F: Files, O: Sink, L: Link>(
    alloc: Global,
    words: &[String],
    files: &mut F,
    out: &mut O,
    link: L,
    book: &mut Book,
) -> (Status, L)
    requires { IsNew book.old }
    ensures course { CarriesOnLink F.Files O.Sink L.Link (as_serve (words_of words.now)) link result.1 book.new files.old files.new out.old out.new result.0 }
    ensures sink { result.0 ≡ statuses.SinkFault → Rose (O.sink_faults out.old) (O.sink_faults out.new) }
    ensures book { IsNew book.new ⊎ Began (as_serve (words_of words.now)) (F.table files.old) (first_of L.Link link) (last_of L.Link link result.1) book.new }
    ensures same { F.table files.new ≡ F.table files.old }
    ensures link { ServesNone (as_serve (words_of words.now)) book.new → result.1 ≡ link }
    ensures puts { PutsNoMore L.Link link result.1 book.new }
{
    match stream_of(words) {
        Some(count) => stream_file(alloc, words[1].as_str(), count, files, out, link, book),
        None => (say(out, Status::Usage, usage()), link),
    }
}

/// Does what `stream SCENARIO COUNT` says, and gives the link back: it serves the segment of the scenario over the link, as the top call serves
/// it over a port for `serve SCENARIO COUNT`, until COUNT requests came, the link ended or a header came that is no request's. The requests are
/// those in the octets that the link gives, one behind the other, however they were cut into pieces; the replies are put in order. Every other
/// list of words is `Usage`.
///
/// In the clauses the words are those of `serve`. The datagrams heard are the requests in the octets given, those sent are the datagrams in the
/// octets put, and the faults are the link's. Nothing else is put; where the link had a fault the first octets of one more may stand behind these.
pub fn stream_call<F: Files, O: Sink, L: Link>(
    alloc: Global,
    words: &[String],
    files: &mut F,
    out: &mut O,
    link: L,
    book: &mut Book,
) -> (Status, L)
    requires { IsNew book.old }

    // All that the top call promises, with what the link tells in the place of what a port tells.
    ensures calls { CallsOnLink F.Files O.Sink L.Link (as_serve (words_of words.now)) link result.1 book.new files.old files.new out.old out.new result.0 }

    // No file is changed, and no call but a serving that began touches the link.
    ensures same { F.table files.new ≡ F.table files.old }
    ensures link { ServesNone (as_serve (words_of words.now)) book.new → result.1 ≡ link }

    // Behind the datagrams put stands nothing; or, where the link had a fault, the first octets of one more.
    ensures puts { PutsNoMore L.Link link result.1 book.new }
{
    carry_out(alloc, words, files, out, link, book)
}
