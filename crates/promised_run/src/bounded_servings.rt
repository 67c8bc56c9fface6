//! The frames of a serving that counts are fewer than the frame bound. A law, no running code: the function here does nothing, and its contract
//! states the law.

ghost use Rattle.arrayvec.specs.ArrayVec.{ArrayVec};
ghost use Rattle.run_promises.specs.of_eoe_switch.declared.switching.SwitchEvent.{SwitchEvent};
ghost use Rattle.seen_slaves.specs.of_idle_slaves.Eager.{Remembered};
ghost use Rattle.run_promises.specs.of_life_runs.First.{first_leads, lens_of};
ghost use Rattle.run_promises.specs.of_life_runs.Led.{Exchanged};
ghost use Rattle.run_promises.specs.of_link_mails.Body.{Body};
ghost use Rattle.seen_slaves.specs.of_master_duty.Reply.{Reply};
ghost use Rattle.seen_slaves.specs.of_master_hand.Spoken.{Asked};
ghost use Rattle.run_promises.specs.of_master_node.Happened.{arrivals_at};
ghost use Rattle.run_promises.specs.of_master_node.Ports.{IsAtPort, ports_behind, ports_of};
ghost use Rattle.run_promises.specs.of_packets_heard.Servings.{AreServedBegun, ServedListed};
ghost use Rattle.seen_slaves.specs.of_plan_ring.Lives.{IsKnown};
ghost use Rattle.seen_slaves.specs.of_plan_ring.Round.{AllRound, ring_of};
ghost use Rattle.seen_slaves.specs.of_run_frames.Clocks.{Clocked};
ghost use Rattle.seen_slaves.specs.of_run_frames.Fates.{lost_of};
ghost use Rattle.seen_slaves.specs.of_run_frames.Runs.{Progress};
ghost use Rattle.run_promises.specs.of_run_work.ServedGained.{asked_in};
ghost use Rattle.run_promises.specs.of_segment_plan.Bound.{bound_of, slowest};
ghost use Rattle.run_promises.specs.of_segment_plan.Sound.{IsPlan};
ghost use Rattle.run_promises.specs.of_segment_plan.declared.plan.Scenario.{Scenario};
ghost use Rattle.seen_slaves.specs.of_served_rings.Servings.{IsPlanServing};
ghost use Rattle.run_promises.specs.Quiet.{AsksQuiet};
ghost use Rattle.seen_slaves.specs.of_served_places.Answered.{ServedAsks};
ghost use Rattle.seen_slaves.specs.of_served_places.Toured.{IsServedToured};
ghost use Rattle.run_promises.specs.of_life_runs.Served.{IsServedLed, Serves, all_serve};
ghost use Rattle.seen_slaves.specs.Eager.{ServedEagerIn};
ghost use Rattle.std.specs.Prelude.{◌≡◌, ◌<◌, ◌≤◌, ◌+◌, ◌*◌, ◌++◌, ℕ, All, List, Option, length};

/// THE FRAMES OF A SERVING COUNT AS THOSE OF ITS PLAN, where they are the visits of one tour, each asks by the inward half first, its master makes no visit in vain
/// where more could go on, and they went round the plan's ring: its slaves answer, and some waits yet while nothing is gained. So with quiet mails asked between
/// them, no more than so many, and with just the events of its switch that the frames list, they are fewer than the bound.
pub fn bounded_serving_law()
    ensures serving { (plan : Scenario) (fs : List Exchanged) (again : Option (List ℕ)) (missed : ℕ) (ws : List Serves) (p : Progress) (cs : List (Clocked Body Asked Reply)) (ls ns : List Remembered) → IsPlan plan → IsKnown plan →
        (toured : IsServedToured (lens_of plan.slaves) plan.recover plan.retry (slowest plan.paces) (all_serve plan.paces (first_leads plan)) fs again missed ws p cs) → ServedAsks toured → ServedEagerIn plan toured ls ns →
        p.lost ≤ lost_of fs + length plan.host + 6 * asked_in ws → AllRound (ring_of plan) fs → IsPlanServing plan fs missed ws p cs }
    ensures fewer { (plan : Scenario) (fs : List Exchanged) (missed lost : ℕ) (ws : List Serves) (p : Progress) (cs : List (Clocked Body Asked Reply)) (count : ℕ) → IsPlan plan → IsKnown plan → IsPlanServing plan fs missed ws p cs → All AsksQuiet ws → asked_in ws ≤ count →
        (led : IsServedLed (lens_of plan.slaves) plan.recover plan.retry (all_serve plan.paces (first_leads plan)) fs lost ws) (es : List SwitchEvent) (rest : List (ArrayVec ℕ)) → All (IsAtPort (ports_of plan.slaves)) es → arrivals_at 0 es ++ rest ≡ plan.host →
        ServedListed (ports_behind 0 plan.slaves) led es → AreServedBegun (ports_behind 0 plan.slaves) (ports_of plan.slaves) led es → length fs < bound_of plan count }
{
    seen_slaves::served_waits::served_waits_law();
    seen_slaves::served_waits::served_answers_law();
    served_rings::served_bound::served_bound();
    run_promises::switched_servings::switched_serving_law();
}
