//! What became of the scripted services of a slave, as its life has it, and what is noted of them frame by frame. No running code: the function
//! here does nothing, and its contract states a law.

ghost use Rattle.std.specs.Prelude.{ℕ, Bool, List};
ghost use Rattle.life_runs.specs.of_datagrams.Datagram as Raw;
ghost use Rattle.life_runs.specs.of_frame_view.View.{Lens};
ghost use Rattle.life_runs.specs.Led.{Exchanged, Leads, Turn, IsTurn, life_behind};
ghost use Rattle.run_frames.specs.ScriptAnswers.{turned};
ghost use Rattle.run_frames.specs.Steps.{IsBefore, TurnsSo, PassesSo, LosesSo};
ghost use Rattle.life_runs.specs.of_segment_ring.declared.wire.Fate.TheVariants.{Pass, Lost};

/// FRAME BY FRAME what is noted of a slave's scripted services goes with its life: one service more where its script went on, the reply that a return
/// brought, and nothing more of one that is given up. So each reply that was noted is that of its row, of the frame that brought it; and a change of state
/// that returned its slave to Init is reached with the frame that opened the slave anew, if the slave wasn't given up in between.
pub fn answers_law()
    ensures turns { (lens : ℕ → Lens) (made : ℕ) (ds : List Raw.Datagram) (a : Leads) (u : Turn) → IsTurn lens made ds a u → TurnsSo made a (turned u) }
    ensures passes { (lens : ℕ → Lens) (recover retry made : ℕ) (gives : Bool) (f : Exchanged) (u : Turn) → IsBefore made u.lived.life → PassesSo made (turned u) (record { script = u.script; number = u.number; lived = life_behind lens recover retry gives made f Pass u.lived u.share }) }
    ensures loses { (lens : ℕ → Lens) (recover retry made after : ℕ) (gives : Bool) (f : Exchanged) (u : Turn) → IsBefore made u.lived.life → LosesSo made (turned u) (record { script = u.script; number = u.number; lived = life_behind lens recover retry gives made f (Lost after) u.lived u.share }) }
{}
