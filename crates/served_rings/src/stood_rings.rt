//! The lives of a serving with the slaves as they stood where their epochs ended. A definition and a law, no running code: the function here does nothing, and its
//! contract states the law.

ghost use Rattle.served_places.specs.of_life_runs.Led.{Exchanged};
ghost use Rattle.run_work.specs.of_plan_ring.Lives.{IsKnown};
ghost use Rattle.run_work.specs.of_plan_ring.Round.{AllRound, ring_of};
ghost use Rattle.run_work.specs.of_segment_plan.Sound.{IsPlan};
ghost use Rattle.run_work.specs.of_segment_plan.declared.plan.Scenario.{Scenario};
ghost use Rattle.served_rings.specs.Rings.{AreStoodLived, nodes_behind};
ghost use Rattle.served_places.specs.of_life_runs.Served.{ServeTo, Serves};
ghost use Rattle.std.specs.Prelude.{ℕ, List};

/// The lives that the master of a serving leads are lived by the nodes of the ring, and each epoch of them begins with what its slave had, cleared, behind the frame
/// that showed the return to Init before it; and a slave that is given up for good while it is open stays up and lives its epoch on.
pub fn stood_ring_law()
    ensures { (plan : Scenario) → IsPlan plan → IsKnown plan → (fs : List Exchanged) (missed : ℕ) (ws : List Serves) →
        ServeTo plan fs missed ws → AllRound (ring_of plan) fs → AreStoodLived (nodes_behind plan fs) plan fs ws }
{
    plan_ring::plan_ring_law();
    crate::served_eras::behind_law();
    crate::plan_speakers::state_law();
}
