ghost use Rattle.std.specs.Prelude.{◌≡◌, true, None};
ghost use Rattle.run_report.specs.of_run_book.Book.{IsNew};
ghost use Rattle.tool_call.specs.of_ecmbx_words.Form.{as_serve};
ghost use Rattle.ecmbx_call.specs.Course.{words_of};
ghost use Rattle.ecmbx_call.specs.Causes.{ServesNone};
ghost use Rattle.ecmbx_call.specs.Objects.{PutsNoMore, StreamsFirst, AsksFirst, CallsElse};
ghost use Rattle.tool_call.specs.Asked.{is_ask, asked_in};
ghost use Rattle.ecmbx_call.specs.First.{is_stream};

use crate::by_stream::stream_call;
use crate::top::ecmbx;
use ec_links::Link;
use ec_outside::{Files, Port, Sink};
use ecmbx_words::Status;
use run_book::Book;
use std::alloc::Global;
use tool_call::{ask_call, is_ask};

// Whether the first word is `stream`.
fn is_stream(words: &[String]) -> bool
    ensures { result ≡ is_stream (words_of words.now) }
{
    match words {
        [word, ..] => word.as_str() == "stream",
        [] => false,
    }
}

/// Does what the words say, and gives the link back: where the first is `stream` it serves a segment over the link, as `stream_call` does; where it
/// is `ask` it asks a slave over the port, as `ask_call` does; and else it does what the top call does, over the port. What isn't used stays as
/// it was.
pub fn program<F: Files, O: Sink, P: Port, L: Link>(
    alloc: Global,
    words: &[String],
    files: &mut F,
    out: &mut O,
    port: &mut P,
    link: L,
    book: &mut Book,
) -> (Status, L)
    requires { IsNew book.old }

    // Where the first word is `stream`: all that the top call promises of a serving, with the link in the place of the port.
    ensures streams { StreamsFirst F.Files O.Sink L.Link (words_of words.now) link result.1 book.new files.old files.new out.old out.new result.0 }

    // Where it is `ask`: all that the call of `ask` promises; no run begins.
    ensures asks { AsksFirst F.Files O.Sink P.Port (words_of words.now) port.old port.new files.old files.new out.old out.new result.0 }
    ensures new { is_ask (words_of words.now) ≡ true → IsNew book.new }

    // Else: all that the top call promises.
    ensures calls { CallsElse F.Files O.Sink P.Port (words_of words.now) port.old port.new book.new files.old files.new out.old out.new result.0 }

    // No call but a serving that began and one that asks touches the port, and none but a stream that began the link.
    ensures port { ServesNone (words_of words.now) book.new → asked_in (words_of words.now) ≡ None → port.new ≡ port.old }
    ensures link { ServesNone (as_serve (words_of words.now)) book.new → result.1 ≡ link }

    // Behind the datagrams put to the link stands nothing; or, where it had a fault, the first octets of one more.
    ensures puts { PutsNoMore L.Link link result.1 book.new }
{
    if is_stream(words) {
        stream_call(alloc, words, files, out, link, book)
    } else if is_ask(words) {
        (ask_call(alloc, words, files, out, port), link)
    } else {
        (ecmbx(alloc, words, files, out, port, book), link)
    }
}
