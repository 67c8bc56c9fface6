//! A serving of one tour whose master makes no visit in vain is one whose count has a bound. Definitions and a law, no running code: the function here does nothing,
//! and its contract states the law.

ghost use Rattle.arrayvec.specs.ArrayVec.{ArrayVec};
ghost use Rattle.promised_run.specs.Eager.{IsEagerServing, ServedMailsAreDue};
ghost use Rattle.run_promises.specs.of_life_runs.First.{first_leads, lens_of};
ghost use Rattle.run_promises.specs.of_life_runs.Led.{Exchanged};
ghost use Rattle.run_promises.specs.of_master_node.Happened.{arrivals_at};
ghost use Rattle.run_promises.specs.of_master_tour.Toured.{Tour};
ghost use Rattle.run_promises.specs.of_packets_heard.Recalled.{State};
ghost use Rattle.run_promises.specs.of_packets_heard.Served.{IsTourServed};
ghost use Rattle.run_promises.specs.of_packets_heard.ServedRecalled.{ServedRecalledIn};
ghost use Rattle.seen_slaves.specs.of_plan_ring.Lives.{IsKnown};
ghost use Rattle.seen_slaves.specs.of_plan_ring.PlanRooms.{HasRoom};
ghost use Rattle.seen_slaves.specs.of_plan_ring.Round.{AllRound, ring_of};
ghost use Rattle.run_promises.specs.of_segment_plan.Sound.{IsPlan};
ghost use Rattle.run_promises.specs.of_segment_plan.declared.plan.Scenario.{Scenario};
ghost use Rattle.run_promises.specs.of_life_runs.Served.{Serves, all_serve};
ghost use Rattle.std.specs.Prelude.{◌≡◌, ◌++◌, ℕ, List};

/// THE FRAMES OF A MASTER'S SERVING COUNT, where frame by frame the master makes no visit in vain by what it remembers: of those that gained nothing, with nothing to
/// repair, each was made with something left to do, but for as many as the host has packets, and six for each mail that was asked. And no more let packets of the host in
/// than it has.
pub fn eager_serving_law()
    ensures { (plan : Scenario) (fs : List Exchanged) (t : Tour) (ws : List Serves) (s : State) → IsPlan plan → IsKnown plan → HasRoom plan → ServedMailsAreDue plan →
        (toured : IsTourServed (lens_of plan.slaves) plan.recover plan.retry (all_serve plan.paces (first_leads plan)) fs t ws) → ServedRecalledIn plan toured s → AllRound (ring_of plan) fs →
        (rest : List (ArrayVec ℕ)) → arrivals_at 0 s.events ++ rest ≡ plan.host → IsEagerServing plan fs t.missed ws }
{
    frame_view::seen_is();
    plan_ring::plan_ring_law();
    plan_ring::plan_rooms::room_law();
    served_rings::served_ring_law();
}
