//! While the frames of a plan's run gain nothing some slave waits yet. Definitions and a law, no running code: the function here does nothing, and its
//! contract states the law.

ghost use Rattle.std.specs.Prelude.{ℕ, List, Option};
ghost use Rattle.idle_slaves.specs.Eager.{Remembered};
ghost use Rattle.plan_ring.specs.of_life_runs.First.{lens_of, first_leads};
ghost use Rattle.plan_ring.specs.of_life_runs.Led.{Exchanged, Leads};
ghost use Rattle.plan_ring.specs.of_link_mails.Body.{Body};
ghost use Rattle.plan_ring.specs.of_master_duty.Reply.{Reply};
ghost use Rattle.plan_ring.specs.of_master_hand.Spoken.{Asked};
ghost use Rattle.plan_ring.specs.Lives.{IsKnown};
ghost use Rattle.plan_ring.specs.Round.{ring_of, AllRound};
ghost use Rattle.plan_ring.specs.of_run_frames.Clocks.{Clocked};
ghost use Rattle.plan_ring.specs.of_run_frames.Runs.{Progress};
ghost use Rattle.plan_ring.specs.of_run_frames.Toured.{IsToured, WaitIn};
ghost use Rattle.plan_ring.specs.of_segment_plan.Bound.{slowest};
ghost use Rattle.plan_ring.specs.of_segment_plan.Sound.{IsPlan};
ghost use Rattle.plan_ring.specs.of_segment_plan.declared.plan.Scenario.{Scenario};
ghost use Rattle.idle_slaves.specs.WaitEager.{EagerIn};

/// SOME SLAVE OF A PLAN'S RUN WAITS YET behind each frame that came back and gained nothing, with nothing to repair and no packet of the host: where its master
/// makes no visit in vain if more could go on, and no frame if all is done.
pub fn wait_runs_law()
    ensures { (plan : Scenario) (fs : List Exchanged) (again : Option (List ℕ)) (missed : ℕ) (leads : List Leads) (p : Progress) (cs : List (Clocked Body Asked Reply)) (ns : List Remembered) → IsPlan plan → IsKnown plan →
        (run : IsToured (lens_of plan.slaves) plan.recover plan.retry (slowest plan.paces) (first_leads plan) plan.paces fs again missed leads p cs) → AllRound (ring_of plan) fs → EagerIn plan run ns → WaitIn run }
{
    frame_view::seen_is();
    plan_ring::run_lives_law();
    plan_ring::plan_met::plan_met_law();
    crate::asked_waits::asked_waits_law();
}
