ghost use Rattle.std.specs.Prelude.{◌≡◌, ◌≢◌, [], map, IfOk, OnErr, true, false};
ghost use Rattle.packets_heard.specs.of_segment_plan.Sound.{IsPlan};
ghost use Rattle.run_notes.specs.of_run_book.Book.{IsNew};
ghost use Rattle.std.specs.Bool.{OnTrue, OnFalse};
ghost use Rattle.run_record.specs.Session.{session_rows, are_at_rest};
ghost use Rattle.run_notes.specs.of_run_book.declared.book.Ending.TheVariants as endings;
ghost use Rattle.run_record.specs.Led.{exchanged, AreLed, LedBook};
ghost use Rattle.run_record.specs.Ran.{HasFrames, EndsSo, EndsAs};

use crate::session::Session;
use ec_fields::NoMemory;
use run_book::{Book, Ending};
use segment_plan::Scenario;
use std::alloc::Global;

// How a session ends that is settled, or has spent its budget.
fn ending_of(session: &Session, settled: bool) -> Ending
    requires settled { OnTrue settled (are_at_rest (session_rows session.now) ≡ true) }
    requires spent { OnFalse settled (session.now.ring.number ≡ session.now.budget) }
    ensures ends { EndsSo session.now result }
    ensures cut { OnFalse settled (result ≡ endings.BudgetSpent) }
    ensures whole { OnTrue settled (result ≢ endings.BudgetSpent) }
{
    if !settled {
        Ending::BudgetSpent
    } else if session.gave_up() {
        Ending::GivenUp
    } else {
        Ending::Done
    }
}

fn run_through(alloc: Global, plan: &Scenario, book: &mut Book) -> Result<Ending, NoMemory>
    requires plan { IsPlan plan.now }
    requires new { IsNew book.old }
    ensures frames { HasFrames plan.now book.new }
    ensures led { IfOk result (LedBook plan.now book.new) }
    ensures cut { OnErr result (AreLed plan.now (map exchanged book.new.frames)) }
    ensures ends { IfOk result (EndsAs plan.now book.new) }
    ensures ending { IfOk result (λ ending. book.new.ending ≡ ending) }
    ensures serving { book.new.serving ≡ false }
    ensures unheard { book.new.grams ≡ [] }
    ensures unsent { book.new.replies ≡ [] }
{
    let mut session = Session::begin(alloc, plan, 0)?;
    let mut settled = session.settled();
    while !settled && !session.spent() {
        session.step(alloc, book)?;
        settled = session.settled();
    }
    let ending = ending_of(&session, settled);
    Ok(session.finish(ending, book))
}

/// Runs a plan: frames are sent until nothing is left to do or the budget is spent. The book then has the frames, each as the plan's slaves
/// give it, and what became of each slave; after `NoMemory` it has the frames until then.
pub fn run(alloc: Global, plan: &Scenario, book: &mut Book) -> Ending
    requires plan { IsPlan plan.now }
    requires new { IsNew book.old }
    ensures frames { HasFrames plan.now book.new }
    ensures led { LedBook plan.now book.new result }
    ensures ends { EndsAs plan.now book.new result }
    ensures ending { book.new.ending ≡ result }
    ensures serving { book.new.serving ≡ false }
    ensures unheard { book.new.grams ≡ [] }
    ensures unsent { book.new.replies ≡ [] }
{
    match run_through(alloc, plan, book) {
        Ok(ending) => ending,
        Err(NoMemory) => {
            book.ending = Ending::NoMemory;
            Ending::NoMemory
        }
    }
}
