ghost use Rattle.std.specs.Prelude.{◌≡◌, ◌≢◌, ◌⊎◌, ◌<◌};
ghost use Rattle.gateway_stream.specs.of_ec_outside.Faults.{Rose};
ghost use Rattle.run_report.specs.of_run_book.Book.{IsNew};
ghost use Rattle.tool_call.specs.of_ecmbx_words.declared.form.Form.TheVariants as forms;
ghost use Rattle.tool_call.specs.of_ecmbx_words.declared.status.Status.TheVariants as statuses;
ghost use Rattle.tool_call.specs.of_ecmbx_words.Form.{form_in};
ghost use Rattle.ecmbx_call.specs.Course.{words_of, RunsFile, SavesFile, ShowsFile, AuditsFile, Began, BeganIn};
ghost use Rattle.ecmbx_call.specs.Serving.{ServedIn};
ghost use Rattle.ecmbx_call.specs.Objects.{told_by, LeavesIn, LeavesUnder, ServesAtPort, CarriesAtPort, RunsFound, SavesFound, RunsWhole, ServesFound, ServesWhole, ShowsFound, AuditsFound};
ghost use Rattle.ecmbx_call.specs.Causes.{UsageCause, AbsentCause, LongCause, RefusedCause, DoneCause, GivenUpCause, SpentCause, BrokenCause, EndingAt, PortCause, IsCalm, ServesNone, MakesTo};

use crate::making::make;
use crate::running::{run_octets, run_saved};
use crate::serving::serve_octets;
use crate::viewing::{audit, decode};
use ec_outside::{Files, Port, Sink};
use ecmbx_words::{Form, Status, form_of, load, say, usage};
use run_book::Book;
use std::alloc::Global;

/// The most octets that a file may have.
const LIMIT: usize = 16_777_216;

fn run_file<F: Files, O: Sink>(
    alloc: Global,
    name: &str,
    files: &mut F,
    out: &mut O,
    book: &mut Book,
) -> Status
    requires { IsNew book.old }
    ensures course { RunsFile F.table F.file_faults O.written name.now book.new files.old files.new out.old out.new result }
    ensures sink { result ≡ statuses.SinkFault → Rose (O.sink_faults out.old) (O.sink_faults out.new) }
    ensures book { IsNew book.new ⊎ BeganIn name.now (F.table files.old) book.new }
    ensures same { F.table files.new ≡ F.table files.old }
{
    match load(alloc, name, LIMIT, files, out) {
        Ok(octets) => run_octets(alloc, octets, out, book),
        Err(status) => status,
    }
}

fn run_file_saved<F: Files, O: Sink>(
    alloc: Global,
    name: &str,
    capture: &str,
    files: &mut F,
    out: &mut O,
    book: &mut Book,
) -> Status
    requires { IsNew book.old }
    ensures course { SavesFile F.table F.file_faults O.written name.now capture.now book.new files.old files.new out.old out.new result }
    ensures sink { result ≡ statuses.SinkFault → Rose (O.sink_faults out.old) (O.sink_faults out.new) }
    ensures book { IsNew book.new ⊎ BeganIn name.now (F.table files.old) book.new }
    ensures files { LeavesUnder F.Files capture.now book.new files.old files.new result }
{
    match load(alloc, name, LIMIT, files, out) {
        Ok(octets) => run_saved(alloc, octets, capture, files, out, book),
        Err(status) => status,
    }
}

/// Serves the scenario under a name over a port, until so many datagrams were heard or the port ended, and puts the report; or the line of a
/// file that can't be had or is no scenario. The book has what the serving left; where none began it stays new, and the port as it was.
pub fn serve_file<F: Files, O: Sink, P: Port>(
    alloc: Global,
    name: &str,
    count: u32,
    files: &mut F,
    out: &mut O,
    port: &mut P,
    book: &mut Book,
) -> Status
    requires new { IsNew book.old }
    requires some { 0 < count }
    ensures course { ServesAtPort F.Files O.Sink P.Port name.now count port.old port.new book.new files.old files.new out.old out.new result }
    ensures sink { result ≡ statuses.SinkFault → Rose (O.sink_faults out.old) (O.sink_faults out.new) }
    ensures book { IsNew book.new ⊎ ServedIn name.now (F.table files.old) count (told_by P.Port port.old) (told_by P.Port port.new) book.new }
    ensures same { F.table files.new ≡ F.table files.old }
    ensures port { IsNew book.new → port.new ≡ port.old }
{
    match load(alloc, name, LIMIT, files, out) {
        Ok(octets) => serve_octets(alloc, octets, count, out, port, book),
        Err(status) => status,
    }
}

fn decode_file<F: Files, O: Sink>(alloc: Global, name: &str, files: &mut F, out: &mut O) -> Status
    ensures course { ShowsFile F.table F.file_faults O.written name.now files.old files.new out.old out.new result }
    ensures sink { result ≡ statuses.SinkFault → Rose (O.sink_faults out.old) (O.sink_faults out.new) }
    ensures same { F.table files.new ≡ F.table files.old }
{
    match load(alloc, name, LIMIT, files, out) {
        Ok(octets) => decode(alloc, octets.bytes(), out),
        Err(status) => status,
    }
}

fn audit_file<F: Files, O: Sink>(alloc: Global, name: &str, files: &mut F, out: &mut O) -> Status
    ensures course { AuditsFile F.table F.file_faults O.written name.now files.old files.new out.old out.new result }
    ensures sink { result ≡ statuses.SinkFault → Rose (O.sink_faults out.old) (O.sink_faults out.new) }
    ensures same { F.table files.new ≡ F.table files.old }
{
    match load(alloc, name, LIMIT, files, out) {
        Ok(octets) => audit(alloc, octets.bytes(), out),
        Err(status) => status,
    }
}

fn carry_out<F: Files, O: Sink, P: Port>(
    alloc: Global,
    words: &[String],
    files: &mut F,
    out: &mut O,
    port: &mut P,
    book: &mut Book,
) -> Status
    requires { IsNew book.old }
    ensures course { CarriesAtPort F.Files O.Sink P.Port (words_of words.now) port.old port.new book.new files.old files.new out.old out.new result }
    ensures sink { result ≡ statuses.SinkFault → Rose (O.sink_faults out.old) (O.sink_faults out.new) }
    ensures book { IsNew book.new ⊎ Began (words_of words.now) (F.table files.old) (told_by P.Port port.old) (told_by P.Port port.new) book.new }
    ensures same { form_in (words_of words.now) ≢ forms.RunSaved → F.table files.new ≡ F.table files.old }
    ensures files { LeavesIn F.Files (words_of words.now) book.new files.old files.new result }
    ensures port { ServesNone (words_of words.now) book.new → port.new ≡ port.old }
{
    match form_of(words) {
        Form::Run => run_file(alloc, words[1].as_str(), files, out, book),
        Form::RunSaved => run_file_saved(
            alloc,
            words[1].as_str(),
            words[2].as_str(),
            files,
            out,
            book,
        ),
        Form::Decode => decode_file(alloc, words[1].as_str(), files, out),
        Form::Audit => audit_file(alloc, words[1].as_str(), files, out),
        Form::Make { seed, size } => make(alloc, seed, size, out),
        Form::Serve { count } => {
            serve_file(alloc, words[1].as_str(), count, files, out, port, book)
        }
        Form::Other => say(out, Status::Usage, usage()),
    }
}

/// Does what the words say. `run SCENARIO` loads the scenario, runs it, and puts the report; with CAPTURE behind, the frames are saved under that name before.
/// `serve SCENARIO COUNT` serves the segment over the port instead. `decode CAPTURE` puts the decoding text of a capture, `audit CAPTURE` whether it obeys the rules of
/// the mailboxes, `make SEED SIZE` the text of a scenario. Every other list of words is `Usage`. The book has what the run left; where no run began it stays new.
///
/// `Usage` comes exactly where the words are no form, `Absent` and `TooLong` where the load said so, `Refused` where the octets are no
/// scenario or no capture, `AuditNo` where a capture that is audited breaks a rule; of a run or a serving of the plan that the words' file writes `GivenUp` where nothing
/// was left to do and a slave was given up, `BudgetSpent` where something was, of as many frames as the budget allows, and `Done` where nothing was and no slave was
/// given up. `FileFault`, `SinkFault` and `PortFault` come only where that object's count of faults rose. Each yields to these, and all to `NoMemory`.
pub fn ecmbx<F: Files, O: Sink, P: Port>(
    alloc: Global,
    words: &[String],
    files: &mut F,
    out: &mut O,
    port: &mut P,
    book: &mut Book,
) -> Status
    requires { IsNew book.old }

    // Each case of the table of answers, with the text that is put there.
    ensures course { CarriesAtPort F.Files O.Sink P.Port (words_of words.now) port.old port.new book.new files.old files.new out.old out.new result }

    // A found scenario: the book has the run, and what is written is its report.
    ensures runs { RunsFound F.Files O.Sink (words_of words.now) book.new files.old files.new out.old out.new result }

    // The same with CAPTURE: what stands under that name is the capture of the very frames of the book.
    ensures saves { SavesFound F.Files O.Sink (words_of words.now) book.new files.old files.new out.old out.new result }

    // Either with a budget of as many frames as the bound: all is done, or a slave was given up and nothing is left of the others; and all is done where no more frames
    // in a row are lost than the retry limit.
    ensures completes { RunsWhole F.Files O.Sink (words_of words.now) book.new files.old files.new out.old out.new result }

    // A found scenario that is served: the book has its frames and the datagrams that the port heard and sent, and what is written is its report; and at each
    // moment what its slaves did, and replied to the mails passed on to them, is what their servers give.
    ensures serves { ServesFound F.Files O.Sink P.Port (words_of words.now) port.old port.new book.new files.old files.new out.old out.new result }

    // It with a budget of as many frames as the bound for so many datagrams, none of which asks for a download to 2F01:01: whatever frames are lost the budget
    // doesn't end it; and all is done where no more frames in a row are lost than the retry limit and the port doesn't fail.
    ensures completes_serving { ServesWhole F.Files O.Sink P.Port (words_of words.now) port.old port.new book.new files.old files.new out.old out.new result }

    // A found capture, and a scenario that is made: the text whole, where the sink doesn't fail.
    ensures shows { ShowsFound F.Files O.Sink (words_of words.now) files.old files.new out.old out.new result }
    ensures makes { IsCalm O.sink_faults out.old out.new → MakesTo (words_of words.now) (O.written out.old) (O.written out.new) result }

    // A found capture that is audited: the lines of its verdict, and the status that goes with it.
    ensures audits { AuditsFound F.Files O.Sink (words_of words.now) files.old files.new out.old out.new result }

    // When each status comes.
    ensures usage { UsageCause (words_of words.now) result }
    ensures absent { AbsentCause (words_of words.now) (F.table files.old) result }
    ensures too_long { LongCause (words_of words.now) (F.table files.old) result }
    ensures refused { RefusedCause (words_of words.now) (F.table files.old) result }
    ensures done { DoneCause (words_of words.now) (F.table files.old) (told_by P.Port port.old) (told_by P.Port port.new) book.new result }
    ensures given_up { GivenUpCause (words_of words.now) (F.table files.old) (told_by P.Port port.old) (told_by P.Port port.new) book.new result }
    ensures budget_spent { SpentCause (words_of words.now) (F.table files.old) (told_by P.Port port.old) (told_by P.Port port.new) book.new result }
    ensures audit_no { BrokenCause (words_of words.now) (F.table files.old) result }
    ensures file_fault { result ≡ statuses.FileFault → Rose (F.file_faults files.old) (F.file_faults files.new) }
    ensures sink_fault { result ≡ statuses.SinkFault → Rose (O.sink_faults out.old) (O.sink_faults out.new) }
    ensures port_fault { PortCause (words_of words.now) (told_by P.Port port.old) (told_by P.Port port.new) result }

    // What the book has: nothing where no run began, else what the run left.
    ensures book { IsNew book.new ⊎ Began (words_of words.now) (F.table files.old) (told_by P.Port port.old) (told_by P.Port port.new) book.new }
    ensures ending { EndingAt result book.new.ending }

    // No call but a run with CAPTURE changes a file; and that none but CAPTURE, which it changes only where a run ended, to the capture of its frames, unless the
    // files had a fault.
    ensures same { form_in (words_of words.now) ≢ forms.RunSaved → F.table files.new ≡ F.table files.old }
    ensures files { LeavesIn F.Files (words_of words.now) book.new files.old files.new result }

    // No call but a serving that began touches the port.
    ensures port { ServesNone (words_of words.now) book.new → port.new ≡ port.old }
{
    carry_out(alloc, words, files, out, port, book)
}
