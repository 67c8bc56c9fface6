//! What the services that began of a plan's scripts count. Definitions and a law, no running code: the function here does nothing, and its contract
//! states the law.

ghost use Rattle.std.specs.Prelude.{◌≤◌, ℕ, List};
ghost use Rattle.life_runs.specs.of_frame_view.View.{Lens};
ghost use Rattle.life_runs.specs.of_segment_plan.declared.plan.Scenario.{Scenario};
ghost use Rattle.life_runs.specs.of_segment_plan.declared.service.Service.{Service};
ghost use Rattle.life_runs.specs.of_segment_plan.declared.slave.SlaveSpec.{SlaveSpec};
ghost use Rattle.life_runs.specs.Led.{Leads, Exchanged, IsLed};
ghost use Rattle.life_runs.specs.First.{first_leads};
ghost use Rattle.run_frames.specs.Begun.{work_begun, work_in};

/// THE SERVICES THAT BEGAN COUNT NO MORE THAN ALL OF THE PLAN, whatever each counts: each of a slave's script begins at most once, whatever frames are
/// lost and whoever is given up.
pub fn script_law()
    ensures { (work : SlaveSpec → Service → ℕ) (lens : ℕ → Lens) (recover retry : ℕ) (plan : Scenario) (fs : List Exchanged) (missed : ℕ) (leads : List Leads) → IsLed lens recover retry (first_leads plan) fs missed leads →
        work_begun work plan.slaves leads ≤ work_in work plan.slaves plan.services }
{}
