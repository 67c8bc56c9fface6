//! An open slave with nothing left, as another sees its mails and services: its newest service is over for the other too, and no mail that is passed on awaits
//! a reply. Definitions and laws, no running code: the functions here do nothing, and their contracts state the laws.

ghost use Rattle.std.specs.Prelude.{◌≡◌, ℕ, Bool, true, false, Option, Some, None, List, []};
ghost use Rattle.idle_slaves.specs.of_slave_model.Moments.{IsFree, NowAnswered, WasHeard};
ghost use Rattle.idle_slaves.specs.of_exchange_model.Exchange.{Exchange, Speech, IsLawful};
ghost use Rattle.idle_slaves.specs.of_exchange_model.Rows.{Row, ends_unheard, left};
ghost use Rattle.idle_slaves.specs.of_life_model.Eras.{EraIs};
ghost use Rattle.idle_slaves.specs.of_life_model.Lives.{Era, Spot};
ghost use Rattle.idle_slaves.specs.of_slave_model.Waits.{NeverWaits};
ghost use Rattle.served_rings.specs.of_few_replies.Erased.{OfRow, PlanOne, row_seen, side_seen};
ghost use Rattle.served_rings.specs.of_few_replies.Led.{IsLed};
ghost use Rattle.served_rings.specs.of_few_replies.Heard.{EraPasses};
ghost use Rattle.seen_slaves.specs.Fits.{FitsSo};
ghost use Rattle.seen_slaves.specs.Spent.{IsEndTold, NothingSeen, SpeakOne};
ghost use Rattle.idle_slaves.specs.of_segment_model.Ends.{Passing};
ghost use Rattle.idle_slaves.specs.of_segment_model.Record.{Frame};
ghost use Rattle.idle_slaves.specs.of_segment_model.Slaves.{Processor, Registers, Slave};
ghost use Rattle.served_rings.specs.of_serving_model.Tagged.{Rowed};
ghost use Rattle.seen_slaves.specs.Last.{LastPasses};
ghost use Rattle.idle_slaves.specs.of_state_model.Stated.{Stated, IsStated};
ghost use Rattle.idle_slaves.specs.of_state_model.States.{Table};
ghost use Rattle.served_rings.specs.of_life_counts.Epochs.{IsRun, IsSeen, IsSpeaker, Speaker};
ghost use Rattle.served_rings.specs.of_life_counts.Seen.{era_seen};

/// WHERE NOTHING IS LEFT of a slave as another sees it, its newest service is over for the other.
pub fn free_seen<N, M, P, Q, S, R, V, A, W>()
    ensures { (f : N → M) (g : P → Q) (h : S → R) (x : Exchange V A N P S) (s : Stated V A P) (y : Speech M Q R) (acknowledged : Q → Bool) (server : V → W) (processor : Processor V) (table : ℕ → Table) (spot : Spot) (e : Era N P S) (opened last : ℕ) (fs : List (Frame N)) (v : V) (r : Registers) (n : Slave V N) →
        IsLawful x → IsStated x s → NeverWaits x → EraIs x s processor table spot e opened last fs v r n → SpeakOne f g h x.speech y e → NothingSeen f g h x.speech y server e n → IsFree y acknowledged (side_seen f g h e.side) }
{}

/// AND NO MAIL THAT IS PASSED ON awaits a reply behind the first, as the other has it: its newest service is by mails, and where all its replies were heard the
/// last tells that it is the last.
pub fn unawaited_seen<N, M, P, Q, S, R, V, A, W>()
    ensures { (f : N → M) (g : P → Q) (h : S → R) (x : Exchange V A N P S) (s : Stated V A P) (y : Speech M Q R) (server : V → W) (processor : Processor V) (table : ℕ → Table) (spot : Spot) (e : Era N P S) (opened last : ℕ) (fs : List (Frame N)) (v : V) (r : Registers) (n : Slave V N) (more : M → Bool) (passed : Q → Bool) →
        IsLawful x → IsStated x s → NeverWaits x → EraIs x s processor table spot e opened last fs v r n → SpeakOne f g h x.speech y e → NothingSeen f g h x.speech y server e n → EraPasses y more passed (era_seen f g h e) → LastPasses (era_seen f g h e) →
        ((t : Row N P S) → e.side.now ≡ Some t → passed (g t.service) ≡ true → WasHeard x t → IsEndTold f y more t) → e.passing ≡ Some Passing.Answered → ⊥ }
{}

/// ALONG AN EPOCH AS ITS MASTER LEADS IT what was heard of the newest service is its answer, where none has an answer before it has heard anything.
pub fn led_said<V, A, M, Q, R>()
    ensures { (x : Exchange V A M Q R) (acknowledged : Q → Bool) (processor : Processor V) (more : M → Bool) (passed : Q → Bool) (spot : Spot) (opened : ℕ) (v : V) (r : Registers) → ((q : Q) → x.speech.ends q [] ≡ None) →
        (fs : List (Frame M)) (counts : Bool) (e : Era M Q R) (n : Slave V M) → IsLed x acknowledged processor more passed spot opened v r fs counts e n → NowAnswered x.speech e.side }
{}

/// A SERVICE BY MAILS THAT HAS ITS ANSWER, but for one that ends with an acknowledgement, was told whole, and each of its mails was sent: for the other too.
pub fn told_seen<N, M, P, Q, S, R, V, A>()
    ensures { (f : N → M) (g : P → Q) (h : S → R) (x : Exchange V A N P S) (s : Stated V A P) (y : Speech M Q R) (acknowledged : Q → Bool) (processor : Processor V) (table : ℕ → Table) (spot : Spot) (e : Era N P S) (opened last : ℕ) (fs : List (Frame N)) (v : V) (r : Registers) (n : Slave V N) →
        IsLawful x → IsStated x s → EraIs x s processor table spot e opened last fs v r n → OfRow (λ (t : Row N P S). PlanOne f g h x.speech y t.service t.heard) e.side.now → OfRow (λ (t : Row N P S). ends_unheard y acknowledged (row_seen f g h t) ≡ ends_unheard x.speech s.acknowledged t) e.side.now →
        e.account.hand ≡ None → (z : Row M Q R) → (side_seen f g h e.side).now ≡ Some z → (answer : R × ℕ) → z.answer ≡ Some answer → ends_unheard y acknowledged z ≡ false → (left y z ≡ []) × (e.side.fresh ≡ false) }
{}

/// SO AN OPEN SLAVE IS TO ITS MASTER, whose epoch of it is one that is seen with what is meant by its mails, by whatever exchange its node runs.
pub fn fits_law<V, A, M, Q, R, C, T>()
    ensures { (w : Speaker V M Q R C T) → IsSpeaker w → NeverWaits w.exchange → (u : Exchange V A M T (Option R)) (processor : Processor V) (seer : Processor (Rowed V M Q)) (table : ℕ → Table) (spot : Spot) → IsRun w u processor seer (table spot.station) →
        (opened : ℕ) (v : V) (r : Registers) (fs : List (Frame M)) (counts : Bool) (e : Era M T (Option R)) (n : Slave V M) → IsSeen w seer table spot opened v r fs counts e n →
        FitsSo u processor (table spot.station) w.naming.speech w.naming.acknowledged w.naming.more w.naming.passed e n }
{}
