//! Which services of a plan may begin. Definitions and a law, no running code: the function here does nothing, and its contract states the law.

ghost use Rattle.std.specs.Prelude.{◌≡◌, ℕ, Some, slice_get};
ghost use Rattle.run_frames.specs.of_life_runs.First.{script_for};
ghost use Rattle.plan_ring.specs.PlanRooms.{MayBegin, HasRoom};
ghost use Rattle.scenario.specs.Told.{IsTold};
ghost use Rattle.slave_server.specs.of_segment_plan.Sound.{IsPlan};
ghost use Rattle.slave_server.specs.of_segment_plan.declared.plan.Scenario.{Scenario};
ghost use Rattle.slave_server.specs.of_segment_plan.declared.service.Service as Plan;
ghost use Rattle.slave_server.specs.of_segment_plan.declared.slave.SlaveSpec.{SlaveSpec};

/// EACH SERVICE OF A PLAN THAT WAS READ MAY BEGIN: no address block is longer than its slave's mailbox has room for. So each of a slave's script may.
pub fn room_law()
    ensures told { (plan : Scenario) → IsPlan plan → IsTold plan → HasRoom plan }
    ensures scripts { (plan : Scenario) → HasRoom plan → (place : ℕ) (s : SlaveSpec) → slice_get plan.slaves place ≡ Some s → (k : ℕ) (service : Plan.Service) → slice_get (script_for place plan.services) k ≡ Some service → MayBegin s.out_len service }
{}
