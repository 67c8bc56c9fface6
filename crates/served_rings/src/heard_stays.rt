//! What was heard of a mail that was passed on to a slave of a serving, once it is over. A definition and a law, no running code: the function here does
//! nothing, and its contract states the law.

ghost use Rattle.std.specs.Prelude.{◌∷◌, ◌++◌, ℕ, All, [], List, length};
ghost use Rattle.served_places.specs.of_life_runs.First.{lens_of};
ghost use Rattle.served_places.specs.of_life_runs.Led.{Exchanged};
ghost use Rattle.run_work.specs.of_plan_ring.Lives.{IsKnown};
ghost use Rattle.run_work.specs.of_plan_ring.Round.{AllRound, ring_of};
ghost use Rattle.run_work.specs.of_segment_plan.Sound.{IsPlan};
ghost use Rattle.run_work.specs.of_segment_plan.declared.plan.Scenario.{Scenario};
ghost use Rattle.served_places.specs.Rows.{HearsNoMore};
ghost use Rattle.served_places.specs.of_life_runs.Served.{IsServedFrame, ServeTo, ServedTurn, Serves};

/// A MAIL THAT WAS PASSED ON, AND IS OVER, GETS NO REPLY MORE: of a serving of a plan, by frames that went round its ring, whatever frames are lost and whoever is
/// given up. While no other service by mails comes into hand of its slave, a frame brings no reply of it.
pub fn heard_stays()
    ensures { (plan : Scenario) → IsPlan plan → IsKnown plan → (fs : List Exchanged) (missed : ℕ) (ws : List Serves) → ServeTo plan fs missed ws →
        (f : Exchanged) (vs : List ServedTurn) → IsServedFrame (lens_of plan.slaves) (length fs) f.sent ws vs → AllRound (ring_of plan) (fs ++ f ∷ []) → All (HearsNoMore (lens_of plan.slaves) plan.recover plan.retry f) vs }
{
    crate::served_ring_law();
    crate::plan_speakers::speaker_law();
}
