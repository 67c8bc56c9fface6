//! How a life goes on.

ghost use Rattle.std.specs.Prelude.{ℕ, ◌≤◌, List, [], ◌∷◌, ◌++◌, length};
ghost use Rattle.state_model.specs.of_segment_model.Record.{Frame};
ghost use Rattle.life_model.specs.Book.{SlaveBook};
ghost use Rattle.life_model.specs.Chain.{AllEnd, NoneBelow};
ghost use Rattle.life_model.specs.Open.{Setting, IsOpenLife};
ghost use Rattle.life_model.specs.Steps.{with_frames, EpochOf, IsPast, HasOpened, OpensBehind, NextOpen, OverBehind, AllPast, PastEpochs, ArePast, StaysIn};

/// The epochs of a life as its run goes on, by the epochs' sessions and by what a master does: from here `answers_law`, `fits_law` and `rest_law`
/// speak of a run behind each frame.
pub fn steps_law<V, A, M, Q, R>()
    // A life is open behind the frame that opened its newest epoch.
    ensures opens { (w : Setting V A M Q R) (b : SlaveBook A M Q R) (e : EpochOf w) → HasOpened w e → OpensBehind w b e → IsOpenLife w b }
    // It stays open by each frame by which its epoch goes on, with the rows that then have begun.
    ensures goes_on { (w : Setting V A M Q R) (b : SlaveBook A M Q R) (l : IsOpenLife w b) (c : SlaveBook A M Q R) (n : NextOpen w b l c) → IsOpenLife (with_frames w (n.frame ∷ [])) c }
    // And its epochs are past ones, up to the end of the newest, where that is over: given up, or returned to Init.
    ensures over { (w : Setting V A M Q R) (b : SlaveBook A M Q R) (l : IsOpenLife w b) (o : OverBehind w b l) → AllPast w b l o }
    // Past epochs stay so while frames and give-ups come behind them, and so does each epoch's session.
    ensures past { (w : Setting V A M Q R) (p : PastEpochs A M Q R) (gs : List (Frame M)) (hs : List ℕ) →
        NoneBelow (length w.frames) hs → AllEnd (length w.frames) p.stop p.epochs → IsPast w p.gave p.stop p.carry p.left p.first p.epochs → ArePast (with_frames w gs) hs p }
    ensures stays { (w : Setting V A M Q R) (gs : List (Frame M)) (e : EpochOf w) → e.until ≤ length w.frames → StaysIn w e (w.frames ++ gs) }
{}
