//! What the lives of a run gain, and how often state services reopen its slaves, is no more than what the plan counts for its services, and its packets;
//! so are its frames. Definitions and laws, no running code: each function here does nothing, and its contract states the law.
#![tactic(auto)]

ghost use Rattle.plan_ring.specs.of_frame_view.View.{Lens};
ghost use Rattle.life_counts.specs.Begun.{KeepsShape};
ghost use Rattle.plan_ring.specs.of_life_runs.First.{lens_of, first_leads};
ghost use Rattle.plan_ring.specs.of_life_runs.Led.{Exchanged, Leads, IsLed};
ghost use Rattle.life_counts.specs.of_link_mails.Body.{Body};
ghost use Rattle.plan_ring.specs.of_master_duty.Reply.{Reply};
ghost use Rattle.life_counts.specs.of_master_hand.Spoken.{Asked};
ghost use Rattle.life_counts.specs.Asked.{asked_most};
ghost use Rattle.life_counts.specs.Split.{own_work};
ghost use Rattle.plan_ring.specs.Asked.{asked};
ghost use Rattle.plan_ring.specs.Lives.{IsKnown};
ghost use Rattle.plan_ring.specs.Round.{ring_of, AllRound};
ghost use Rattle.plan_ring.specs.of_run_frames.Clocks.{Clocked};
ghost use Rattle.plan_ring.specs.of_run_frames.Fates.{AreFated, gained_in, lost_of};
ghost use Rattle.plan_ring.specs.of_run_frames.Led.{IsTallied};
ghost use Rattle.plan_ring.specs.of_run_frames.Runs.{Progress};
ghost use Rattle.run_work.specs.Bounds.{IsPlanRun, bound_with};
ghost use Rattle.run_work.specs.Gained.{app_shape, AllGain};
ghost use Rattle.run_work.specs.Switched.{AreSwitched, cuts_begun};
ghost use Rattle.run_work.specs.Together.{packets_begun};
ghost use Rattle.plan_ring.specs.of_run_frames.Begun.{work_in};
ghost use Rattle.life_counts.specs.of_segment_plan.Bound.{slowest, services_work, host_work, bound_of};
ghost use Rattle.life_counts.specs.of_segment_plan.Sound.{IsPlan};
ghost use Rattle.life_counts.specs.of_segment_plan.declared.plan.Scenario.{Scenario};
ghost use Rattle.plan_ring.specs.Real.{real_clearing};
ghost use Rattle.life_counts.specs.of_slave_model.Profile.{Profile, IsProfile};
ghost use Rattle.std.specs.Prelude.{◌≢◌, ℕ, Bool, List, ◌≤◌, ◌<◌, ◌+◌, length};

pub mod packet_work;
pub mod served_counts;
pub mod served_work;

/// THE SHAPE OF A PLAN'S SLAVE STAYS, whatever services it carries out, whatever its AL state and whenever it is returned to Init; and each service that
/// its master asks for takes at most as many mails as its shape says.
pub fn shape_law()
    ensures { (p : Profile) → IsProfile p → (boot : Bool) (lens : ℕ → Lens) → KeepsShape (asked p boot lens) real_clearing app_shape (asked_most p) }
{
    slave_parts::parts_are_lawful();
    few_replies::service_counts::shape_counts();
}

/// THE GAINS OF A RUN: of each slave of a plan what its life has gained is no more than what the services and packets count that came into hand of it,
/// in all its epochs, whatever frames are lost and whoever is given up.
pub fn run_counts()
    ensures { (plan : Scenario) → IsPlan plan → IsKnown plan → (fs : List Exchanged) (missed : ℕ) (leads : List Leads) →
        IsLed (lens_of plan.slaves) plan.recover plan.retry (first_leads plan) fs missed leads → AllRound (ring_of plan) fs → AllGain plan.slaves leads }
{
    plan_ring::run_lives_law();
    shape_law();
}

/// THE LIVES OF A RUN TOGETHER: what they have gained, and how often state services began to reopen their slaves, is no more than all services of the plan
/// count of their own, the fragments of what downloads emit that began, what the packets take that came into hand, and one for each slave; whatever frames
/// are lost and whoever is given up.
pub fn run_work()
    ensures { (plan : Scenario) → IsPlan plan → IsKnown plan → (fs : List Exchanged) (missed : ℕ) (leads : List Leads) →
        IsLed (lens_of plan.slaves) plan.recover plan.retry (first_leads plan) fs missed leads → AllRound (ring_of plan) fs →
        gained_in leads ≤ length plan.slaves + work_in own_work plan.slaves plan.services + (cuts_begun plan.slaves leads + packets_begun plan.slaves leads) }
{
    run_counts();
    life_counts::plan_counts::plan_counts();
    run_frames::script_runs::script_run_law();
    run_frames::script_work::script_law();
}

/// THE PACKETS OF A RUN COUNT NO MORE THAN THE FRAME BOUND HAS FOR THEM, where they are those of one switch: what downloads emit and what comes into hand
/// is together within what the host's packets count, and what a download counts for the one that it emits. So each is counted once, and each of the host's
/// once more, for the frame with which it comes in.
pub fn switched_law()
    ensures { (plan : Scenario) → IsPlan plan → (fs : List Exchanged) (missed : ℕ) (leads : List Leads) → IsLed (lens_of plan.slaves) plan.recover plan.retry (first_leads plan) fs missed leads → AreSwitched plan leads →
        work_in own_work plan.slaves plan.services + (cuts_begun plan.slaves leads + packets_begun plan.slaves leads) + length plan.host ≤ services_work plan.slaves plan.services + host_work (length plan.slaves) plan.host }
{
    life_counts::plan_counts::plan_counts();
    run_frames::script_work::script_law();
}

/// FRAMES THAT WENT ROUND THE RING OF A PLAN have the fates of the plan's schedule, and no more were lost than that has.
pub fn fates_law()
    ensures fated { (plan : Scenario) (fs : List Exchanged) → AllRound (ring_of plan) fs → AreFated plan.lose 0 fs }
    ensures few { (plan : Scenario) (fs : List Exchanged) → AllRound (ring_of plan) fs → lost_of fs ≤ length plan.lose }
{}

/// WHAT CAME BACK OF A RUN'S FRAMES, which went round the ring of its plan, is the return of what was sent, and each slave answered by it what awaits a
/// step; so its frames are tallied.
pub fn tallied_law()
    ensures { (plan : Scenario) (fs : List Exchanged) (missed : ℕ) (leads : List Leads) (p : Progress) (cs : List (Clocked Body Asked Reply)) → IsPlan plan → IsKnown plan → IsPlanRun plan fs missed leads p cs →
        IsTallied (lens_of plan.slaves) plan.recover plan.retry (slowest plan.paces) (first_leads plan) plan.paces fs missed leads p cs }
{
    plan_ring::run_answers::answer_law();
    run_frames::toured_law();
}

/// THE FRAMES OF A RUN, of a plan that was read, that its master led by visits of one tour and that went round its ring, are fewer than the frame bound:
/// whatever frames are lost and whoever is given up.
pub fn run_bound()
    // Of any packets: with what they take that came into hand, the fragments of what downloads emit, and one for each of the host's.
    ensures within { (plan : Scenario) (fs : List Exchanged) (missed : ℕ) (leads : List Leads) (p : Progress) (cs : List (Clocked Body Asked Reply)) →
        IsPlan plan → IsKnown plan → IsPlanRun plan fs missed leads p cs → length fs < bound_with plan (cuts_begun plan.slaves leads + packets_begun plan.slaves leads + length plan.host) }
    // And where the packets are those of one switch, the frame bound itself.
    ensures switched { (plan : Scenario) (fs : List Exchanged) (missed : ℕ) (leads : List Leads) (p : Progress) (cs : List (Clocked Body Asked Reply)) →
        IsPlan plan → IsKnown plan → IsPlanRun plan fs missed leads p cs → AreSwitched plan leads → length fs < bound_of plan 0 }
    // So it is never cut off by a budget of as many frames or more.
    ensures uncut { (plan : Scenario) (fs : List Exchanged) (missed : ℕ) (leads : List Leads) (p : Progress) (cs : List (Clocked Body Asked Reply)) (budget : ℕ) →
        IsPlan plan → IsKnown plan → IsPlanRun plan fs missed leads p cs → AreSwitched plan leads → bound_of plan 0 ≤ budget → length fs ≢ budget }
{
    run_work();
    switched_law();
    fates_law();
    tallied_law();
    run_frames::led_counts();
}
