//! What of a script came into hand over a run. No running code: the function here does nothing, and its contract states a law.

ghost use Rattle.life_runs.specs.First.{lens_of, first_leads};
ghost use Rattle.life_runs.specs.Led.{Exchanged, Leads, IsLed};
ghost use Rattle.life_runs.specs.of_segment_plan.declared.plan.Scenario.{Scenario};
ghost use Rattle.run_frames.specs.Slaves.{AllCome};
ghost use Rattle.std.specs.Prelude.{ℕ, List};

/// OF EACH SLAVE'S SCRIPT just the first services came into hand, each once and in order, with the packets of its port among them, over all epochs of
/// its life and whatever frames are lost.
pub fn script_run_law()
    ensures { (plan : Scenario) (fs : List Exchanged) (missed : ℕ) (as' : List Leads) → IsLed (lens_of plan.slaves) plan.recover plan.retry (first_leads plan) fs missed as' → AllCome plan 0 plan.slaves as' }
{}
