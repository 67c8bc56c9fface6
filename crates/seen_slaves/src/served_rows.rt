//! The rows of the mails of a serving that are passed on. Definitions and laws, no running code: the functions here do nothing, and their contracts state the
//! laws.

ghost use Rattle.std.specs.Prelude.{◌≡◌, ℕ, None, List, [], All};
ghost use Rattle.idle_slaves.specs.of_frame_view.View.{Lens};
ghost use Rattle.idle_slaves.specs.of_life_model.Lives.{Spot};
ghost use Rattle.idle_slaves.specs.of_life_runs.Led.{Exchanged, Leads, speech_at};
ghost use Rattle.served_rings.specs.of_master_hand.Spoken.{Asked};
ghost use Rattle.idle_slaves.specs.of_run_frames.Answers.{AllReturned};
ghost use Rattle.seen_slaves.specs.Rows.{IsNew, PassesSo, SaidSo, ToldSo};
ghost use Rattle.idle_slaves.specs.of_life_runs.Served.{Serves, IsServedLed, all_serve};

/// WHILE A MAIL THAT IS PASSED ON ISN'T OVER it is the newest row of its slave's epoch, and the newest service, and no reply of it was heard, or others follow
/// the last that was: over all frames of a serving, whatever comes back.
pub fn served_rows()
    ensures { (lens : ℕ → Lens) (recover retry : ℕ) (paces : List ℕ) (first : List Leads) (fs : List Exchanged) (missed : ℕ) (ws : List Serves) → All IsNew first → IsServedLed lens recover retry (all_serve paces first) fs missed ws → All (PassesSo lens) ws }
{}

/// WHAT WAS HEARD of a slave's newest service is its answer, where no service has an answer before it has heard anything: over all these frames.
pub fn said_serves()
    ensures { (lens : ℕ → Lens) (recover retry : ℕ) (paces : List ℕ) (first : List Leads) (fs : List Exchanged) (missed : ℕ) (ws : List Serves) → ((spot : Spot) (q : Asked) → (speech_at lens spot).ends q [] ≡ None) → All IsNew first → IsServedLed lens recover retry (all_serve paces first) fs missed ws → All (SaidSo lens) ws }
{}

/// AND WHILE IT WAITS it is held, or wasn't told; once it was sent it is held until its write is done: where what came back of each frame is the return of what
/// was sent.
pub fn told_serves()
    ensures { (lens : ℕ → Lens) (recover retry : ℕ) (paces : List ℕ) (first : List Leads) (fs : List Exchanged) (missed : ℕ) (ws : List Serves) → All IsNew first → IsServedLed lens recover retry (all_serve paces first) fs missed ws → AllReturned lens fs → All ToldSo ws }
{
    frame_view::seen_is();
}
