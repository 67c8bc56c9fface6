ghost use Rattle.std.specs.Prelude.{◌≡◌, ◌⊎◌, ◌≤◌, Ok, IfOk, IfErr};
ghost use Rattle.gateway_stream.specs.of_ec_outside.Faults.{Rose};
ghost use Rattle.tool_call.specs.of_segment_plan.Sound.{IsPlan};
ghost use Rattle.promised_run.specs.of_scenario.Document.{plan_of};
ghost use Rattle.promised_run.specs.of_scenario.Told.{IsTold};
ghost use Rattle.run_report.specs.of_run_book.Book.{IsNew};
ghost use Rattle.run_report.specs.Report.{report_lines};
ghost use Rattle.run_report.specs.Saved.{capture_of};
ghost use Rattle.tool_call.specs.of_ecmbx_words.Ends.{text_of, PutAll};
ghost use Rattle.tool_call.specs.of_ecmbx_words.Texts.{refusal_line};
ghost use Rattle.tool_call.specs.of_ecmbx_words.declared.status.Status.TheVariants as statuses;
ghost use Rattle.ecmbx_call.specs.Files.{IsSaved};
ghost use Rattle.ecmbx_call.specs.Objects.{LeavesUnder};
ghost use Rattle.ecmbx_call.specs.Course.{HasRun, IsReportable, status_of, Followed, RunCourse, SavesRun, IsUnread, IsUnsaved, BeganOn};

use ec_fields::{NoMemory, Octets, Rows};
use ec_outside::{Files, FilesErr, Sink};
use ecmbx_words::{Status, refusal, say, say_lines};
use promised_run::run;
use run_book::{Book, Ending};
use run_report::{report, saved};
use scenario::{Place, ReadErr, read};
use segment_plan::Scenario;
use std::alloc::Global;

// How a call ends whose run ended so.
fn status_of(ending: Ending) -> Status
    ensures { result ≡ status_of ending }
{
    match ending {
        Ending::Done => Status::Done,
        Ending::GivenUp => Status::GivenUp,
        Ending::BudgetSpent => Status::BudgetSpent,
        Ending::PortFault => Status::PortFault,
        Ending::Unfinished | Ending::NoMemory => Status::NoMemory,
    }
}

/// The plan that octets write, which are let go; or the answer where they write none, whose line is put.
pub fn plan_in<O: Sink>(alloc: Global, octets: Octets, out: &mut O) -> Result<Scenario, Status>
    ensures found { IfOk result (λ plan. plan_of octets ≡ Ok plan) }
    ensures sound { IfOk result IsPlan }
    ensures told { IfOk result IsTold }
    ensures quiet { IfOk result (λ plan. out.new ≡ out.old) }
    ensures failed { IfErr result (IsUnread octets (O.written out.old) (O.written out.new)) }
    ensures sink { IfErr result (λ status. status ≡ statuses.SinkFault → Rose (O.sink_faults out.old) (O.sink_faults out.new)) }
{
    match read(alloc, octets.bytes()) {
        Ok(plan) => Ok(plan),
        Err(ReadErr::NoMemory) => Err(Status::NoMemory),
        Err(ReadErr::Refused { rule, place }) => Err(refuse(alloc, rule, place, out)),
    }
}

fn refuse<O: Sink>(alloc: Global, rule: u8, place: Place, out: &mut O) -> Status
    ensures put { PutAll statuses.Refused (refusal_line rule place) (O.written out.old) (O.written out.new) result }
    ensures sink { result ≡ statuses.SinkFault → Rose (O.sink_faults out.old) (O.sink_faults out.new) }
{
    match refusal(alloc, rule, place) {
        Ok(line) => say(out, Status::Refused, line.bytes()),
        Err(NoMemory) => Status::NoMemory,
    }
}

/// Puts the report of a run or a serving, and answers how it ended.
pub fn tell<O: Sink>(alloc: Global, plan: &Scenario, book: &Book, out: &mut O) -> Status
    requires { IsReportable plan.now book.now }
    ensures put { PutAll (status_of book.now.ending) (text_of (report_lines plan.now book.now)) (O.written out.old) (O.written out.new) result }
    ensures sink { result ≡ statuses.SinkFault → Rose (O.sink_faults out.old) (O.sink_faults out.new) }
{
    let mut lines = Rows::new(alloc);
    match report(alloc, plan, book, &mut lines) {
        Ok(()) => say_lines(out, status_of(book.ending), lines.as_slice()),
        Err(NoMemory) => Status::NoMemory,
    }
}

// Saves the frames of a run as a capture.
fn save<F: Files>(
    alloc: Global,
    plan: &Scenario,
    book: &Book,
    name: &str,
    files: &mut F,
) -> Result<(), Status>
    requires plan { IsPlan plan.now }
    requires ran { HasRun plan.now book.now }
    ensures saved { IfOk result (λ done. IsSaved (F.table files.old) (F.table files.new) name.now (capture_of book.now.frames)) }
    ensures failed { IfErr result (IsUnsaved name.now (F.table files.old) (F.table files.new) (Rose (F.file_faults files.old) (F.file_faults files.new))) }
    ensures later { F.file_faults files.old ≤ F.file_faults files.new }
{
    let _plan = plan.retry;
    let mut octets = Octets::new(alloc);
    if saved(book.frames.as_slice(), &mut octets).is_err() {
        return Err(Status::NoMemory);
    }
    match files.save(name, octets.bytes()) {
        Ok(()) => Ok(()),
        Err(FilesErr::Failed) => Err(Status::FileFault),
        Err(FilesErr::NoMemory) => Err(Status::NoMemory),
    }
}

/// Runs the plan that octets write, and puts the report; or why they write none. The octets are let go before the run, whose book wants the memory.
pub fn run_octets<O: Sink>(alloc: Global, octets: Octets, out: &mut O, book: &mut Book) -> Status
    requires { IsNew book.old }
    ensures course { Followed (RunCourse book.new octets) (O.written out.old) (O.written out.new) result }
    ensures sink { result ≡ statuses.SinkFault → Rose (O.sink_faults out.old) (O.sink_faults out.new) }
    ensures book { IsNew book.new ⊎ BeganOn octets book.new }
{
    let plan = match plan_in(alloc, octets, out) {
        Ok(plan) => plan,
        Err(status) => return status,
    };
    if matches!(run(alloc, &plan, book), Ending::NoMemory) {
        return Status::NoMemory;
    }
    tell(alloc, &plan, book, out)
}

/// The same, and saves the frames as a capture before the report is put. Where that fails nothing is put, and all files but that stay.
pub fn run_saved<F: Files, O: Sink>(
    alloc: Global,
    octets: Octets,
    name: &str,
    files: &mut F,
    out: &mut O,
    book: &mut Book,
) -> Status
    requires { IsNew book.old }
    ensures course { SavesRun F.table F.file_faults O.written octets name.now book.new files.old files.new out.old out.new result }
    ensures sink { result ≡ statuses.SinkFault → Rose (O.sink_faults out.old) (O.sink_faults out.new) }
    ensures book { IsNew book.new ⊎ BeganOn octets book.new }
    ensures files { LeavesUnder F.Files name.now book.new files.old files.new result }
    ensures later { F.file_faults files.old ≤ F.file_faults files.new }
{
    let plan = match plan_in(alloc, octets, out) {
        Ok(plan) => plan,
        Err(status) => return status,
    };
    if matches!(run(alloc, &plan, book), Ending::NoMemory) {
        return Status::NoMemory;
    }
    match save(alloc, &plan, book, name, files) {
        Ok(()) => tell(alloc, &plan, book, out),
        Err(status) => status,
    }
}
