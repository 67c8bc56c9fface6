//! The slaves of a plan's run, as the sessions of their lives have them: what each is that is open, and what it made of a frame that came back. Definitions
//! and a law, no running code: the function here does nothing, and its contract states the law.

ghost use Rattle.whole_ring.specs.of_frame_view.Seen.{seen};
ghost use Rattle.run_frames.specs.of_life_runs.First.{lens_of};
ghost use Rattle.run_frames.specs.of_life_runs.Led.{Exchanged, Leads, Turn, IsLedFrame};
ghost use Rattle.plan_ring.specs.PlanMet.{AllMet, AllOpenAt};
ghost use Rattle.plan_ring.specs.Lives.{IsKnown, AreLived};
ghost use Rattle.plan_ring.specs.Round.{ring_of, ring_after, WentRound};
ghost use Rattle.slave_server.specs.of_segment_plan.Sound.{IsPlan};
ghost use Rattle.slave_server.specs.of_segment_plan.declared.plan.Scenario.{Scenario};
ghost use Rattle.run_frames.specs.of_segment_ring.declared.wire.Fate.{Fate};
ghost use Rattle.std.specs.Prelude.{◌≡◌, ◌∷◌, ◌++◌, ℕ, List, [], length};

/// EACH SLAVE OF A PLAN'S RUN that is open lives its epoch as the node of the ring; and of a frame that came back its own datagrams came back as it makes them,
/// and its node is the one behind them and the step of its pace.
pub fn plan_met_law()
    ensures opens { (plan : Scenario) (fs : List Exchanged) (as' : List Leads) → AreLived plan fs as' → AllOpenAt plan fs 0 plan.slaves as' (ring_after (ring_of plan) fs).nodes }
    ensures meets { (plan : Scenario) → IsPlan plan → IsKnown plan → (fs : List Exchanged) (as' : List Leads) (f : Exchanged) (us : List Turn) → AreLived plan fs as' → IsLedFrame (lens_of plan.slaves) (length fs) f.sent as' us → WentRound (ring_after (ring_of plan) fs) f → f.fate ≡ Fate.Pass →
        AllMet (lens_of plan.slaves) (seen (lens_of plan.slaves) f.sent) (seen (lens_of plan.slaves) f.back) (length fs) plan.slaves as' plan.paces (ring_after (ring_of plan) fs).nodes (ring_after (ring_of plan) (fs ++ f ∷ [])).nodes }
{}
