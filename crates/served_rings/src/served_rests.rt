//! What is done of the slaves of a serving of which its master wants nothing any more. Definitions and a law, no running code: the function here does nothing,
//! and its contract states the law.

ghost use Rattle.std.specs.Prelude.{ℕ, List};
ghost use Rattle.served_places.specs.of_life_runs.Led.{Exchanged};
ghost use Rattle.run_work.specs.of_plan_ring.Lives.{IsKnown};
ghost use Rattle.run_work.specs.of_plan_ring.Round.{AllRound, ring_after, ring_of};
ghost use Rattle.run_work.specs.of_segment_plan.Sound.{IsPlan};
ghost use Rattle.run_work.specs.of_segment_plan.declared.plan.Scenario.{Scenario};
ghost use Rattle.served_rings.specs.Rests.{AllServedDoneIf};
ghost use Rattle.served_rings.specs.Rings.{nodes_behind};
ghost use Rattle.served_places.specs.of_life_runs.Served.{ServeTo, Serves};

/// WHERE NOTHING IS LEFT: of each slave of a serving that is settled and of which its master wants nothing, all services of its script came into hand, and the mails
/// that were asked of it, in order, and all of them where it was never given up; and all rows of its newest epoch are carried out, each once and in order, each
/// service by mails that has a reply has it, and each change of its AL state is over. What the epochs before left its node held as each of them ended.
pub fn served_rests_law()
    ensures { (plan : Scenario) → IsPlan plan → IsKnown plan → (fs : List Exchanged) (missed : ℕ) (ws : List Serves) → ServeTo plan fs missed ws → AllRound (ring_of plan) fs →
        AllServedDoneIf (nodes_behind plan fs) plan 0 plan.slaves ws (ring_after (ring_of plan) fs).nodes }
{
    crate::served_ring_law();
    crate::served_replies::served_replies_law();
    life_runs::served_runs::asked_law();
}
