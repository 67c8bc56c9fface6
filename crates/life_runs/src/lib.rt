//! A master that leads the lives of its slaves, frame by frame, in a run and in a serving, with mails that are passed on: the epochs of each life,
//! when each was returned to Init and opened, and why; and the counters by which a record of it tells which mails are new. No running code: each
//! function here does nothing, and its contract states a law.
#![tactic(auto)]

pub mod counters_kept;
pub mod served_runs;

ghost use Rattle.std.specs.Prelude.{◌≡◌, ℕ, Bool, List, length};
ghost use Rattle.master_tour.specs.of_frame_view.View.{Lens};
ghost use Rattle.segment_ring.specs.declared.wire.Fate.TheVariants.{Pass, Lost};
ghost use Rattle.life_runs.specs.Led.{missed_behind, Exchanged, Leads, Turn, IsTurn, IsLed, life_behind};
ghost use Rattle.master_tour.specs.of_datagrams.Datagram as Raw;
ghost use Rattle.life_runs.specs.Causes.{AllHaveCause};
ghost use Rattle.life_runs.specs.Opened.{AllOpenTheirs};
ghost use Rattle.life_runs.specs.Spans.{SameEpochs, EpochsBack, EpochsLost};
ghost use Rattle.life_runs.specs.First.{first_leads};
ghost use Rattle.master_hand.specs.of_segment_plan.declared.plan.Scenario.{Scenario};

/// A frame that came back ends the lost ones in a row.
pub fn returned_law()
    ensures { (lens : ℕ → Lens) (recover retry missed : ℕ) → missed_behind lens recover retry Pass missed ≡ 0 }
{}

/// WHAT A FRAME MAKES OF A SLAVE'S EPOCHS: what comes into hand and a loss leave them, and a return begins one where it showed Init, and opens the newest
/// where it showed the state that is opened. And over a whole run each epoch but the first has its cause in the one
/// before, which says in what AL state it is opened.
pub fn epochs_law()
    ensures turns { (lens : ℕ → Lens) (made : ℕ) (ds : List Raw.Datagram) (a : Leads) (u : Turn) → IsTurn lens made ds a u → SameEpochs a.lived.life u.lived.life }
    ensures passes { (lens : ℕ → Lens) (recover retry made : ℕ) (gives : Bool) (f : Exchanged) (u : Turn) → EpochsBack made u.lived.life (life_behind lens recover retry gives made f Pass u.lived u.share).life }
    ensures loses { (lens : ℕ → Lens) (recover retry made after : ℕ) (gives : Bool) (f : Exchanged) (u : Turn) → EpochsLost u.lived.life (life_behind lens recover retry gives made f (Lost after) u.lived u.share).life }
    ensures causes { (lens : ℕ → Lens) (plan : Scenario) (retry : ℕ) (fs : List Exchanged) (missed : ℕ) (as' : List Leads) → IsLed lens plan.recover retry (first_leads plan) fs missed as' → AllHaveCause as' }
    ensures states { (lens : ℕ → Lens) (plan : Scenario) (retry : ℕ) (fs : List Exchanged) (missed : ℕ) (as' : List Leads) → IsLed lens plan.recover retry (first_leads plan) fs missed as' → AllOpenTheirs as' }
{}
