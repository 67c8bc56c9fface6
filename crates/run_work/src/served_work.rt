//! What the lives of a serving gain together, against its plan and the mails that were asked. Definitions and laws, no running code: the functions here do
//! nothing, and their contracts state the laws.

ghost use Rattle.std.specs.Prelude.{◌≡◌, ◌≤◌, ◌+◌, ◌*◌, ℕ, List, [], ◌∷◌, length};
ghost use Rattle.life_counts.specs.of_life_model.Lives.{Spot};
ghost use Rattle.plan_ring.specs.of_life_runs.First.{lens_of, first_leads};
ghost use Rattle.plan_ring.specs.of_life_runs.Led.{Exchanged, new_leads};
ghost use Rattle.life_counts.specs.Split.{own_work};
ghost use Rattle.plan_ring.specs.Round.{ring_of, AllRound};
ghost use Rattle.plan_ring.specs.of_run_frames.Answers.{AllReturned};
ghost use Rattle.run_work.specs.Switched.{AreSwitched, cuts_begun};
ghost use Rattle.run_work.specs.Together.{packets_begun};
ghost use Rattle.plan_ring.specs.of_run_frames.Begun.{work_in};
ghost use Rattle.life_counts.specs.of_segment_plan.Bound.{services_work, host_work};
ghost use Rattle.life_counts.specs.of_segment_plan.Sound.{IsPlan};
ghost use Rattle.life_counts.specs.of_segment_plan.declared.plan.Scenario.{Scenario};
ghost use Rattle.plan_ring.specs.of_life_runs.Served.{Serves, Keyed, IsServedLed, all_serve, new_serves, asked_at};
ghost use Rattle.run_work.specs.ServedGained.{AllPaid, served_in, asked_in, leads_of};

/// THE LIVES OF A SERVING TOGETHER, where each has gained no more than what came into hand of it counts: what they have gained, and how often state services
/// began to reopen their slaves, is no more than all services of the plan count of their own, the fragments of what downloads emit that began, what the
/// packets take that came into hand, one for each slave, and 82 for each mail that was asked. Of the 128 that the frame bound counts for a datagram 46 are left.
pub fn served_work()
    ensures { (plan : Scenario) → IsPlan plan → (fs : List Exchanged) (missed : ℕ) (ws : List Serves) →
        IsServedLed (lens_of plan.slaves) plan.recover plan.retry (all_serve plan.paces (first_leads plan)) fs missed ws → AllPaid plan.slaves ws →
        served_in ws ≤ length plan.slaves + work_in own_work plan.slaves plan.services + (cuts_begun plan.slaves (leads_of ws) + packets_begun plan.slaves (leads_of ws)) + 82 * asked_in ws }
{
    life_counts::plan_counts::plan_counts();
    life_runs::served_runs::asked_law();
}

/// THE PACKETS OF A SERVING COUNT NO MORE THAN THE FRAME BOUND HAS FOR THEM, where they are those of one switch: as those of a run.
pub fn served_switched()
    ensures { (plan : Scenario) → IsPlan plan → (fs : List Exchanged) (missed : ℕ) (ws : List Serves) → IsServedLed (lens_of plan.slaves) plan.recover plan.retry (all_serve plan.paces (first_leads plan)) fs missed ws → AreSwitched plan (leads_of ws) →
        work_in own_work plan.slaves plan.services + (cuts_begun plan.slaves (leads_of ws) + packets_begun plan.slaves (leads_of ws)) + length plan.host ≤ services_work plan.slaves plan.services + host_work (length plan.slaves) plan.host }
{
    life_counts::plan_counts::plan_counts();
}

/// WHAT CAME BACK OF A SERVING'S FRAMES, which went round the ring of its plan, is the return of what was sent.
pub fn served_returned()
    ensures { (plan : Scenario) (fs : List Exchanged) (missed : ℕ) (ws : List Serves) → IsServedLed (lens_of plan.slaves) plan.recover plan.retry (all_serve plan.paces (first_leads plan)) fs missed ws → AllRound (ring_of plan) fs → AllReturned (lens_of plan.slaves) fs }
{}

/// A worked row: before the first frame each slave has gained one, and two mails were asked of the second.
pub fn served_row()
    ensures { (a b : Spot) (k l : Keyed) → (let ws = asked_at 1 l (asked_at 1 k (new_serves 1 (new_leads [] a) ∷ new_serves 2 (new_leads [] b) ∷ [])) in (served_in ws ≡ 2) × (asked_in ws ≡ 2)) }
{}
