//! The lives of a serving: those that its master leads of a plan's slaves are lived by the nodes of their ring, epoch by epoch as they were led. Definitions and
//! a law, no running code: the function here does nothing, and its contract states the law.
#![tactic(auto)]

ghost use Rattle.served_places.specs.of_life_runs.Led.{Exchanged};
ghost use Rattle.run_work.specs.of_plan_ring.Lives.{IsKnown};
ghost use Rattle.run_work.specs.of_plan_ring.Round.{AllRound, ring_of};
ghost use Rattle.run_work.specs.Fair.{AsksFair};
ghost use Rattle.run_work.specs.Lives.{AllServedLives};
ghost use Rattle.run_work.specs.of_segment_plan.Sound.{IsPlan};
ghost use Rattle.run_work.specs.of_segment_plan.declared.plan.Scenario.{Scenario};
ghost use Rattle.served_rings.specs.Rings.{AreServedLived};
ghost use Rattle.served_places.specs.of_life_runs.Served.{ServeTo, Serves};
ghost use Rattle.std.specs.Prelude.{ℕ, All, List};

pub mod era_counters;
pub mod given_rows;
pub mod heard_stays;
pub mod last_told;
pub mod led_eras;
pub mod led_rings;
pub mod plan_speakers;
pub mod replies_first;
pub mod seen_lives;
pub mod served_bound;
pub mod served_eras;
pub mod served_lives;
pub mod served_replies;
pub mod served_rests;
pub mod stood_rings;
pub mod told_eras;

/// A MASTER THAT LEADS A SERVING, by frames that went round the ring of its plan's slaves, with mails asked between them, leads lives that the nodes of the ring live
/// as they are led: whatever frames are lost, and where slaves are given up, taken up again or returned to Init.
pub fn served_ring_law()
    ensures { (plan : Scenario) → IsPlan plan → IsKnown plan → (fs : List Exchanged) (missed : ℕ) (ws : List Serves) →
        ServeTo plan fs missed ws → AllRound (ring_of plan) fs → AreServedLived plan fs ws }
{
    crate::stood_rings::stood_ring_law();
}

/// SO WITH FAIR MAILS ALONE each of these lives is worked by its slave in sessions of services and fair mails, from its parts as it was switched on.
pub fn served_lives_law()
    ensures { (plan : Scenario) → IsPlan plan → IsKnown plan → (fs : List Exchanged) (missed : ℕ) (ws : List Serves) → ServeTo plan fs missed ws → AllRound (ring_of plan) fs →
        All AsksFair ws → AllServedLives plan.slaves ws }
{
    served_ring_law();
    life_runs::served_runs::asked_law();
    crate::plan_speakers::life_law();
}
