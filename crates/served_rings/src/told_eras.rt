//! What the master of a serving has of each slave, epoch by epoch, by the frames of the epoch. Definitions and a law, no running code: the function here does
//! nothing, and its contract states the law.

ghost use Rattle.std.specs.Prelude.{ℕ, List};
ghost use Rattle.served_places.specs.of_life_runs.First.{lens_of};
ghost use Rattle.served_places.specs.of_life_runs.Led.{Exchanged};
ghost use Rattle.run_work.specs.of_plan_ring.Lives.{IsKnown};
ghost use Rattle.run_work.specs.of_plan_ring.Round.{AllRound, all_seen, ring_of};
ghost use Rattle.run_work.specs.of_segment_plan.Sound.{IsPlan};
ghost use Rattle.run_work.specs.of_segment_plan.declared.plan.Scenario.{Scenario};
ghost use Rattle.served_rings.specs.ToldEras.{AllToldLives};
ghost use Rattle.served_places.specs.of_life_runs.Served.{ServeTo, Serves};

/// EACH SERVICE OF A SERVING HAS JUST THE ANSWER THAT THE FRAMES OF ITS EPOCH GIVE, of the frame that completed it, and none where they give none; and so has each
/// change of the AL state: whatever frames are lost, and where slaves are given up, taken up again or returned to Init. Of mails that are passed on nothing is said
/// here: their replies are handed on one by one. And all mails that were heard by the frames of an epoch were heard in its rows, in order: none before the first.
pub fn told_eras_law()
    ensures { (plan : Scenario) → IsPlan plan → IsKnown plan → (fs : List Exchanged) (missed : ℕ) (ws : List Serves) → ServeTo plan fs missed ws → AllRound (ring_of plan) fs →
        AllToldLives plan (all_seen (lens_of plan.slaves) fs) 0 plan.slaves ws }
{
    plan_ring::asked_whole_law();
    crate::served_ring_law();
}
