//! The frames of a run are fewer than the bound. Laws, no running code: the functions here do nothing, and their contracts state the laws.

ghost use Rattle.std.specs.Prelude.{◌≢◌, ◌<◌, ℕ, List, length, map};
ghost use Rattle.run_promises.specs.of_link_mails.Body.{Body};
ghost use Rattle.seen_slaves.specs.of_master_duty.Reply.{Reply};
ghost use Rattle.seen_slaves.specs.of_master_hand.Spoken.{Asked};
ghost use Rattle.seen_slaves.specs.of_plan_ring.Lives.{IsKnown};
ghost use Rattle.seen_slaves.specs.of_plan_ring.PlanRooms.{HasRoom};
ghost use Rattle.gateway_run.specs.of_run_book.declared.book.Book.{Book};
ghost use Rattle.gateway_run.specs.of_run_book.declared.book.Ending.{Ending};
ghost use Rattle.gateway_run.specs.of_run_book.declared.book.Ending.TheVariants as endings;
ghost use Rattle.seen_slaves.specs.of_run_frames.Clocks.{Clocked};
ghost use Rattle.seen_slaves.specs.of_run_frames.Runs.{Progress};
ghost use Rattle.gateway_run.specs.of_run_record.Led.{LedBook, exchanged};
ghost use Rattle.gateway_run.specs.of_run_record.Ran.{HasFrames};
ghost use Rattle.run_promises.specs.of_run_work.Bounds.{IsPlanRun};
ghost use Rattle.run_promises.specs.of_segment_plan.Bound.{bound_of};
ghost use Rattle.run_promises.specs.of_segment_plan.Sound.{IsPlan};
ghost use Rattle.run_promises.specs.of_segment_plan.declared.plan.Scenario.{Scenario};

/// THE FRAMES OF A BOOK ARE FEWER THAN THE BOUND, whatever frames are lost, unless memory ran out: its packets are those of one switch by the events of the book,
/// where its frames are a run of the plan.
pub fn bounded_law()
    ensures { (plan : Scenario) (book : Book) (ending : Ending) → IsPlan plan → IsKnown plan → HasFrames plan book → (led : LedBook plan book ending) → (p : Progress) (cs : List (Clocked Body Asked Reply)) →
        IsPlanRun plan (map exchanged book.frames) led.missed led.leads p cs → ending ≢ endings.NoMemory → length book.frames < bound_of plan 0 }
{
    run_work::run_bound();
    run_promises::switched_runs::switched_run_law();
}

/// SO ARE THOSE OF EACH RUN of a plan, whatever frames are lost, where each of its services has room: its master makes no visit in vain by what it remembers, and
/// its slaves send no mail that isn't due.
pub fn fewer_law()
    ensures { (plan : Scenario) (book : Book) (ending : Ending) → IsPlan plan → IsKnown plan → HasRoom plan → HasFrames plan book → LedBook plan book ending → ending ≢ endings.NoMemory → length book.frames < bound_of plan 0 }
{
    bounded_law();
    crate::eager_runs::eager_run_law();
}
