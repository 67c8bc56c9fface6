//! The book of a slave over all epochs of its life: what is done, what is answered, when nothing is left. Definitions and laws, no running
//! code: the functions here do nothing, and their contracts state the laws.

ghost use Rattle.std.specs.Prelude.{◌≡◌, ℕ, None, List, length};
ghost use Rattle.life_model.specs.Book.{SlaveBook};
ghost use Rattle.life_model.specs.Open.{Setting, StartsSo, IsLife, IsOpenLife, IsShutLife, WasNeverGiven, IsIdle, HadDrained, HasApp, HasOpen, EpochsFit, BookFits, BookRests, BookDone, BookAnswers};

/// The answer of each row, in each epoch of a life, is the one that the frames give from the row's own on, before the end of its epoch and before
/// its slave is given up, and it came before the next row of the epoch: so what returns behind a give-up, or in a reopening, answers no row.
pub fn answers_law<V, A, M, Q, R>()
    ensures closed { (w : Setting V A M Q R) (b : SlaveBook A M Q R) (pace stop : ℕ) (end : A) → IsLife w b stop end → BookAnswers w b pace stop }
    ensures open_now { (w : Setting V A M Q R) (b : SlaveBook A M Q R) (pace : ℕ) → IsOpenLife w b → BookAnswers w b pace (length w.frames) }
{}

/// The epochs of a life fit the book, each from what the one before has done, cleared: so its slave's application is what all have done.
pub fn fits_law<V, A, M, Q, R>()
    // But for its AL state, whatever stands there.
    ensures epochs { (w : Setting V A M Q R) (b : SlaveBook A M Q R) → StartsSo w b → (stop : ℕ) (end : A) → HasApp w b end → IsLife w b stop end → EpochsFit w b }
    // Where the newest epoch is open the AL state is that of what is done.
    ensures open_now { (w : Setting V A M Q R) (b : SlaveBook A M Q R) → StartsSo w b → (l : IsOpenLife w b) → HasOpen w b l → BookFits w b }
    // Where it isn't nothing is said of the AL state.
    ensures shut { (w : Setting V A M Q R) (b : SlaveBook A M Q R) → StartsSo w b → IsShutLife w b → BookFits w b }
{}

/// Where the newest epoch of a life is open, its slave is settled and the master wants nothing of it, nothing is left of the slave.
pub fn rest_law<V, A, M, Q, R>()
    ensures rests { (w : Setting V A M Q R) (b : SlaveBook A M Q R) → StartsSo w b → b.given_up ≡ None → (l : IsOpenLife w b) → IsIdle w b l → BookRests w b }
    // And all is done of one that was never given up, and drained before each return to Init.
    ensures done { (w : Setting V A M Q R) (b : SlaveBook A M Q R) → StartsSo w b → WasNeverGiven b → (l : IsOpenLife w b) → IsIdle w b l → HadDrained w b l → BookDone w b }
{}
