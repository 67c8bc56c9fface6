//! A run of one tour whose master makes no visit in vain is one whose count has a bound. Definitions and a law, no running code: the function here does nothing,
//! and its contract states the law.

ghost use Rattle.std.specs.Prelude.{◌≡◌, ◌++◌, ℕ, List};
ghost use Rattle.arrayvec.specs.ArrayVec.{ArrayVec};
ghost use Rattle.promised_run.specs.Runs.{HasRun};
ghost use Rattle.run_promises.specs.of_life_runs.First.{lens_of, first_leads};
ghost use Rattle.run_promises.specs.of_life_runs.Led.{Exchanged, Leads};
ghost use Rattle.run_promises.specs.of_master_node.Happened.{arrivals_at};
ghost use Rattle.run_promises.specs.of_master_tour.Toured.{Tour};
ghost use Rattle.seen_slaves.specs.of_plan_ring.Lives.{IsKnown};
ghost use Rattle.seen_slaves.specs.of_plan_ring.Round.{ring_of, AllRound};
ghost use Rattle.seen_slaves.specs.of_plan_ring.PlanRooms.{HasRoom};
ghost use Rattle.run_promises.specs.of_packets_heard.Recalled.{State, RecalledIn};
ghost use Rattle.run_promises.specs.of_segment_plan.Sound.{IsPlan};
ghost use Rattle.run_promises.specs.of_segment_plan.declared.plan.Scenario.{Scenario};
ghost use Rattle.run_promises.specs.of_packets_heard.Toured.{IsToured};

/// THE FRAMES OF A TOUR ARE A RUN OF THE PLAN whose count has a bound, where frame by frame its master makes no visit in vain by what it remembers: of those that
/// gained nothing, with nothing to repair and no packet of the host, each leaves some slave waiting. And no more let packets of the host in than it has.
pub fn eager_run_law()
    ensures { (plan : Scenario) (fs : List Exchanged) (t : Tour) (leads : List Leads) (s : State) → IsPlan plan → IsKnown plan → HasRoom plan →
        (toured : IsToured (lens_of plan.slaves) plan.recover plan.retry (first_leads plan) fs t leads) → RecalledIn plan toured s → AllRound (ring_of plan) fs →
        (rest : List (ArrayVec ℕ)) → arrivals_at 0 s.events ++ rest ≡ plan.host → HasRun plan fs t.missed leads }
{
    frame_view::seen_is();
    plan_ring::run_lives_law();
    plan_ring::plan_met::plan_met_law();
    plan_ring::plan_dues::plan_due_law();
    plan_ring::plan_rooms::room_law();
    idle_slaves::entered_runs::entered_law();
    idle_slaves::wait_runs::wait_runs_law();
}
