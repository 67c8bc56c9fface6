//! The frames of a serving of a plan are fewer than the frame bound. Definitions and a law, no running code: the function here does nothing, and its contract
//! states the law.

ghost use Rattle.served_places.specs.of_life_runs.Led.{Exchanged};
ghost use Rattle.served_places.specs.of_link_mails.Body.{Body};
ghost use Rattle.run_work.specs.of_master_duty.Reply.{Reply};
ghost use Rattle.run_work.specs.of_master_hand.Spoken.{Asked};
ghost use Rattle.run_work.specs.of_plan_ring.Lives.{IsKnown};
ghost use Rattle.served_places.specs.of_run_frames.Clocks.{Clocked};
ghost use Rattle.served_places.specs.of_run_frames.Runs.{Progress};
ghost use Rattle.run_work.specs.Fair.{AsksFair};
ghost use Rattle.run_work.specs.ServedGained.{asked_in, leads_of};
ghost use Rattle.run_work.specs.Switched.{AreSwitched};
ghost use Rattle.run_work.specs.of_segment_plan.Bound.{bound_of};
ghost use Rattle.run_work.specs.of_segment_plan.Sound.{IsPlan};
ghost use Rattle.run_work.specs.of_segment_plan.declared.plan.Scenario.{Scenario};
ghost use Rattle.served_rings.specs.Servings.{IsPlanServing};
ghost use Rattle.served_places.specs.of_life_runs.Served.{Serves};
ghost use Rattle.std.specs.Prelude.{◌≢◌, ◌≤◌, ◌<◌, ℕ, All, List, length};

/// THE FRAMES OF A SERVING, of a plan that was read, that its master led by visits of one tour and that went round its ring, with fair mails asked between them,
/// no more than so many, and with the packets of one switch, are fewer than the frame bound for so many datagrams: whatever frames are lost and whoever is
/// given up.
pub fn served_bound()
    ensures within { (plan : Scenario) (fs : List Exchanged) (missed : ℕ) (ws : List Serves) (p : Progress) (cs : List (Clocked Body Asked Reply)) (count : ℕ) →
        IsPlan plan → IsKnown plan → IsPlanServing plan fs missed ws p cs → All AsksFair ws → AreSwitched plan (leads_of ws) → asked_in ws ≤ count → length fs < bound_of plan count }
    // So it is never cut off by a budget of as many frames or more.
    ensures uncut { (plan : Scenario) (fs : List Exchanged) (missed : ℕ) (ws : List Serves) (p : Progress) (cs : List (Clocked Body Asked Reply)) (count budget : ℕ) →
        IsPlan plan → IsKnown plan → IsPlanServing plan fs missed ws p cs → All AsksFair ws → AreSwitched plan (leads_of ws) → asked_in ws ≤ count → bound_of plan count ≤ budget → length fs ≢ budget }
{
    served_places::served_tours::served_tours();
    served_places::served_tours::served_frames();
    crate::served_lives_law();
    run_work::served_counts::served_law();
    run_work::served_work::served_switched();
    run_work::served_work::served_returned();
    run_work::fates_law();
}
