//! A mail that is passed on, where nothing is left of its slave. Definitions and laws over lives, no running code: the functions here do nothing, and their
//! contracts state the laws.

ghost use Rattle.std.specs.Prelude.{◌≡◌, ◌≢◌, ℕ, Bool, Option, Some, None, List, []};
ghost use Rattle.idle_slaves.specs.of_slave_model.Moments.{NoneLeft, NowAnswered};
ghost use Rattle.idle_slaves.specs.of_exchange_model.Exchange.{Speech};
ghost use Rattle.idle_slaves.specs.of_life_model.Lives.{Stand, Era, Life, Spot, new_life, life_next, life_back, life_lost, gives_up};
ghost use Rattle.served_rings.specs.of_few_replies.Heard.{EraPasses};
ghost use Rattle.idle_slaves.specs.of_segment_model.Ends.{Passing};
ghost use Rattle.idle_slaves.specs.of_segment_model.Record.{News};
ghost use Rattle.idle_slaves.specs.of_segment_model.Slaves.{Datagram, Found};
ghost use Rattle.seen_slaves.specs.Last.{LastPasses, NothingAwaited};
ghost use Rattle.seen_slaves.specs.Told.{EraTold, PlansSome};
ghost use Rattle.idle_slaves.specs.of_state_model.Accounts.{Pick};

/// WHILE A MAIL THAT IS PASSED ON ISN'T OVER the newest service of its epoch is by mails: at every frame of a life.
pub fn last_rows<M, Q, R>()
    ensures new { (state : ℕ) → LastPasses (new_life {M = M} {Q = Q} {R = R} state).era }
    ensures next { (x : Speech M Q R) (acknowledged : Q → Bool) (more : M → Bool) (passed : Q → Bool) (frame : ℕ) (l : Life M Q R) (pick : Pick Q) → LastPasses l.era → LastPasses (life_next x acknowledged more passed frame l l.stand pick).era }
    ensures back { (x : Speech M Q R) (acknowledged : Q → Bool) (more : M → Bool) (passed : Q → Bool) (frame : ℕ) (spot : Spot) (news : List (News M)) (back : List (Datagram M)) (came : Option (Bool × Option Found)) (l : Life M Q R) → LastPasses l.era →
        LastPasses (life_back x acknowledged more passed frame spot news back came l l.stand).era }
    ensures lost { (x : Speech M Q R) (acknowledged : Q → Bool) (more : M → Bool) (passed : Q → Bool) (spot : Spot) (news : List (News M)) (sent : List (Datagram M)) (l : Life M Q R) → LastPasses l.era → LastPasses (life_lost x acknowledged more passed spot news sent l l.stand).era }
    ensures given_up { (recover frame : ℕ) (spot : Spot) (l : Life M Q R) → LastPasses l.era → LastPasses (gives_up recover spot frame l).era }
{}

/// WHAT WAS HEARD OF THE NEWEST SERVICE IS ITS ANSWER, where none has an answer before it has heard anything: at every frame of a life.
pub fn said_rows<M, Q, R>()
    ensures new { (x : Speech M Q R) (state : ℕ) → NowAnswered x (new_life {M = M} {Q = Q} {R = R} state).era.side }
    ensures next { (x : Speech M Q R) (acknowledged : Q → Bool) (more : M → Bool) (passed : Q → Bool) → ((q : Q) → x.ends q [] ≡ None) → (frame : ℕ) (l : Life M Q R) (pick : Pick Q) → NowAnswered x l.era.side → NowAnswered x (life_next x acknowledged more passed frame l l.stand pick).era.side }
    ensures back { (x : Speech M Q R) (acknowledged : Q → Bool) (more : M → Bool) (passed : Q → Bool) (frame : ℕ) (spot : Spot) (news : List (News M)) (back : List (Datagram M)) (came : Option (Bool × Option Found)) (l : Life M Q R) → NowAnswered x l.era.side →
        NowAnswered x (life_back x acknowledged more passed frame spot news back came l l.stand).era.side }
    ensures lost { (x : Speech M Q R) (acknowledged : Q → Bool) (more : M → Bool) (passed : Q → Bool) (spot : Spot) (news : List (News M)) (sent : List (Datagram M)) (l : Life M Q R) → NowAnswered x l.era.side → NowAnswered x (life_lost x acknowledged more passed spot news sent l l.stand).era.side }
    ensures given_up { (x : Speech M Q R) (recover frame : ℕ) (spot : Spot) (l : Life M Q R) → NowAnswered x l.era.side → NowAnswered x (gives_up recover spot frame l).era.side }
{}

/// WHERE NO MAIL IS HELD and nothing is left to tell, a mail that is passed on waits no more to be sent, and no write of it is under way.
pub fn told_rows<M, Q, R>()
    ensures { (x : Speech M Q R) (more : M → Bool) (passed : Q → Bool) (e : Era M Q R) → PlansSome x passed → EraPasses x more passed e → EraTold e → e.side.halves.out.holding ≡ None → NoneLeft x e.side →
        (e.passing ≢ Some Passing.Waiting) × (e.passing ≢ Some Passing.Sent) }
{}

/// WHERE NOTHING IS LEFT of a slave, a mail that is passed on doesn't await replies behind the first, where its last reply tells that it is the last.
pub fn spent_rows<V, A, M, Q, R>()
    ensures { NothingAwaited V A M Q R }
{}
