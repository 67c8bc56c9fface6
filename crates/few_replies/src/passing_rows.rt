//! The row of a mail that is passed on, by how far that has come. Definitions and laws over lives, no running code: the functions here do nothing, and their
//! contracts state the laws.

ghost use Rattle.std.specs.Prelude.{◌≡◌, ℕ, true, Bool, Option, List, []};
ghost use Rattle.slave_parts.specs.of_exchange_model.Exchange.{Exchange, Speech, given, plain};
ghost use Rattle.slave_parts.specs.of_life_model.Lives.{Stand, Life, Spot, new_life, life_next, life_back, life_lost, gives_up};
ghost use Rattle.slave_parts.specs.of_life_model.Own.{own};
ghost use Rattle.slave_parts.specs.of_link_model.Frames.{all_accepted};
ghost use Rattle.slave_parts.specs.of_segment_model.Ends.{Passing};
ghost use Rattle.slave_parts.specs.of_segment_model.Record.{News, mails_heard};
ghost use Rattle.slave_parts.specs.of_segment_model.Slaves.{Datagram, Found, grams};
ghost use Rattle.slave_parts.specs.of_state_model.Accounts.{Pick};
ghost use Rattle.few_replies.specs.Heard.{EraPasses, HeardBy, LastTold};

/// WHILE A MAIL THAT IS PASSED ON ISN'T OVER it is the newest row of its epoch, and no reply of it was heard, or others follow the last that was: at every frame
/// of a life, where the frame's news have just the mails that were accepted by it.
pub fn passing_rows<M, Q, R>()
    ensures new { (x : Speech M Q R) (more : M → Bool) (passed : Q → Bool) (state : ℕ) → EraPasses x more passed (new_life {M = M} {Q = Q} {R = R} state).era }
    ensures next { (x : Speech M Q R) (acknowledged : Q → Bool) (more : M → Bool) (passed : Q → Bool) (frame : ℕ) (l : Life M Q R) (pick : Pick Q) → EraPasses x more passed l.era → EraPasses x more passed (life_next x acknowledged more passed frame l l.stand pick).era }
    ensures back { (x : Speech M Q R) (acknowledged : Q → Bool) (more : M → Bool) (passed : Q → Bool) (frame : ℕ) (spot : Spot) (news : List (News M)) (back : List (Datagram M)) (came : Option (Bool × Option Found)) (l : Life M Q R) → EraPasses x more passed l.era →
        mails_heard news ≡ all_accepted spot.station l.era.side.halves (grams (own spot.station back)) → EraPasses x more passed (life_back x acknowledged more passed frame spot news back came l l.stand).era }
    ensures lost { (x : Speech M Q R) (acknowledged : Q → Bool) (more : M → Bool) (passed : Q → Bool) (spot : Spot) (news : List (News M)) (sent : List (Datagram M)) (l : Life M Q R) → EraPasses x more passed l.era →
        mails_heard news ≡ [] → EraPasses x more passed (life_lost x acknowledged more passed spot news sent l l.stand).era }
    ensures given_up { (x : Speech M Q R) (more : M → Bool) (passed : Q → Bool) (recover frame : ℕ) (spot : Spot) (l : Life M Q R) → EraPasses x more passed l.era → EraPasses x more passed (gives_up recover spot frame l).era }
{}

/// A MAIL WHOSE REPLIES WERE ALL HEARD awaits no other, where its last reply tells that it is the last.
pub fn passing_ends<V, A, M, Q, R>()
    ensures { (x : Exchange V A M Q R) (more : M → Bool) (q : Q) → LastTold x more q → (v : V) → x.ready v ≡ true → (hs : List M) → plain x.speech.emission hs ≡ plain x.speech.emission (given x.serve v (x.full v q)) →
        HeardBy x.speech.emission more Passing.Answered hs → ⊥ }
{}
