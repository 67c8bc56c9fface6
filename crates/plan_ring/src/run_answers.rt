//! What the slaves of a run answer to its master. Definitions and laws, no running code: the function here does nothing, and its contract states the law.

ghost use Rattle.std.specs.Prelude.{ℕ, List, Option};
ghost use Rattle.run_frames.specs.of_life_runs.First.{lens_of, first_leads};
ghost use Rattle.run_frames.specs.of_life_runs.Led.{Exchanged, Leads};
ghost use Rattle.slave_server.specs.of_link_mails.Body.{Body};
ghost use Rattle.run_frames.specs.of_master_duty.Reply.{Reply};
ghost use Rattle.run_frames.specs.of_master_hand.Spoken.{Asked};
ghost use Rattle.plan_ring.specs.Lives.{IsKnown};
ghost use Rattle.plan_ring.specs.Round.{ring_of, AllRound};
ghost use Rattle.run_frames.specs.Clocks.{Clocked};
ghost use Rattle.run_frames.specs.Runs.{Progress};
ghost use Rattle.run_frames.specs.Toured.{IsToured, AskIn, AnswerIn};
ghost use Rattle.slave_server.specs.of_segment_plan.Bound.{slowest};
ghost use Rattle.slave_server.specs.of_segment_plan.Sound.{IsPlan};
ghost use Rattle.slave_server.specs.of_segment_plan.declared.plan.Scenario.{Scenario};

/// EACH SLAVE OF A PLAN'S RING ANSWERS what awaits a step of its processor, by each frame of a run that came back, where its frames went round the ring
/// and ask by the inward half first: behind a step it shows the state that its opening awaits, and acknowledges the repeat request.
pub fn answer_law()
    ensures { (plan : Scenario) (fs : List Exchanged) (again : Option (List ℕ)) (missed : ℕ) (leads : List Leads) (p : Progress) (cs : List (Clocked Body Asked Reply)) → IsPlan plan → IsKnown plan →
        (run : IsToured (lens_of plan.slaves) plan.recover plan.retry (slowest plan.paces) (first_leads plan) plan.paces fs again missed leads p cs) → AllRound (ring_of plan) fs → AskIn run → AnswerIn run }
{
    frame_view::seen_is();
    crate::run_lives_law();
}
