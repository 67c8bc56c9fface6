//! What the frame bound asks of a serving, of the servings that a master leads by one tour: the visits of that tour are those that the count of its frames
//! speaks of. Definitions and a law, no running code: the function here does nothing, and its contract states the law.

ghost use Rattle.run_promises.specs.of_life_runs.First.{lens_of, first_leads};
ghost use Rattle.run_promises.specs.of_life_runs.Led.{Exchanged};
ghost use Rattle.run_promises.specs.of_master_tour.Toured.{Tour};
ghost use Rattle.run_promises.specs.of_packets_heard.Served.{IsTourServed};
ghost use Rattle.run_promises.specs.of_segment_plan.Sound.{IsPlan};
ghost use Rattle.run_promises.specs.of_segment_plan.declared.plan.Scenario.{Scenario};
ghost use Rattle.run_promises.specs.of_life_runs.Served.{Serves, all_serve};
ghost use Rattle.std.specs.Prelude.{List};
ghost use Rattle.promised_run.specs.TouredTours.{IsCounted};

/// THE FRAMES OF A MASTER'S SERVING ARE THE VISITS THAT THE COUNT OF FRAMES SPEAKS OF, frame by frame and mail by mail, with the slaves that come again, as many
/// that have ended their first bring-up, and as many frames lost in a row; and each asks by the inward half first.
pub fn toured_law()
    ensures { (plan : Scenario) (fs : List Exchanged) (t : Tour) (ws : List Serves) → IsPlan plan → IsTourServed (lens_of plan.slaves) plan.recover plan.retry (all_serve plan.paces (first_leads plan)) fs t ws → IsCounted plan fs t ws }
{
    frame_view::seen_is();
}
