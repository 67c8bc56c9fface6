//! What the frame bound asks of a run, of the runs that a master leads by one tour: the visits of that tour are those that the count of its frames speaks
//! of. Definitions and laws, no running code: the function here does nothing, and its contract states the law.

ghost use Rattle.promised_run.specs.Tours.{IsCounted};
ghost use Rattle.seen_slaves.specs.of_frame_view.View.{Lens};
ghost use Rattle.run_promises.specs.of_life_runs.First.{lens_of, first_leads};
ghost use Rattle.run_promises.specs.of_life_runs.Led.{Exchanged, Leads};
ghost use Rattle.run_promises.specs.of_master_tour.Toured.{Tour};
ghost use Rattle.run_promises.specs.of_packets_heard.Toured.{IsToured};
ghost use Rattle.run_promises.specs.of_segment_plan.Sound.{IsPlan};
ghost use Rattle.run_promises.specs.of_segment_plan.declared.plan.Scenario.{Scenario};
ghost use Rattle.std.specs.Prelude.{ℕ, List};

/// THE FRAMES OF A MASTER'S TOUR ARE THE VISITS THAT THE COUNT OF FRAMES SPEAKS OF, frame by frame, with the slaves that come again, as many that have
/// ended their first bring-up, and as many frames lost in a row; and each asks by the inward half first.
pub fn toured_law()
    ensures { (plan : Scenario) (fs : List Exchanged) (t : Tour) (leads : List Leads) → IsPlan plan → IsToured (lens_of plan.slaves) plan.recover plan.retry (first_leads plan) fs t leads → IsCounted plan fs t leads }
{
    frame_view::seen_is();
}
