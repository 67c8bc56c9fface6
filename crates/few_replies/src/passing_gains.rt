//! How far the mails that are passed on come, frame by frame. Definitions and laws over lives, no running code: the functions here do nothing, and
//! their contracts state the laws.

ghost use Rattle.std.specs.Prelude.{◌≡◌, ◌≤◌, ◌*◌, ℕ, suc, Bool, false, Option, Some, List};
ghost use Rattle.slave_parts.specs.of_exchange_model.Exchange.{Speech};
ghost use Rattle.slave_parts.specs.of_segment_model.Slaves.{Datagram, Found};
ghost use Rattle.slave_parts.specs.of_segment_model.Record.{News};
ghost use Rattle.slave_parts.specs.of_segment_model.Ends.{Passing, passing_after};
ghost use Rattle.slave_parts.specs.of_state_model.Accounts.{Pick};
ghost use Rattle.slave_parts.specs.of_life_model.Lives.{Stand, Life, Spot, new_life, life_next, life_back, life_lost, gives_up, passes};
ghost use Rattle.few_replies.specs.Steps.{steps_left, life_steps, life_passed, IsUnderWay};

/// NO NEWS TAKES A MAIL THAT IS PASSED ON BACK, and each of these takes it a step on: the mail was told, its write was done, mailbox 0 was seen empty,
/// and mailbox 1 was.
pub fn passing_law<M>()
    ensures back { (emission more : M → Bool) (p : Passing) (n : News M) → steps_left (passing_after emission more p n) ≤ steps_left (Some p) }
    ensures told { (emission more : M → Bool) (m : M) → suc (steps_left (passing_after emission more Passing.Waiting (News.Told m))) ≡ steps_left (Some Passing.Waiting) }
    ensures written { (emission more : M → Bool) → suc (steps_left (passing_after emission more Passing.Sent News.Written)) ≡ steps_left (Some Passing.Sent) }
    ensures taken { (emission more : M → Bool) → suc (steps_left (passing_after emission more Passing.Boxed (News.BoxFull false))) ≡ steps_left (Some Passing.Boxed) }
    ensures empty { (emission more : M → Bool) → suc (steps_left (passing_after emission more Passing.Served News.NothingRead)) ≡ steps_left (Some Passing.Served) }
{}

/// WHAT THE MAILS PASSED ON OF A LIFE HAVE COME NEVER FALLS: neither a service that begins nor a frame that came back or was lost nor a give-up takes it
/// back. It is four steps at most for each that came into hand, and a frame whose news take the newest of them on gains.
pub fn passing_gains<M, Q, R>()
    ensures before { (x : Speech M Q R) (acknowledged : Q → Bool) (more : M → Bool) (passed : Q → Bool) (frame : ℕ) (l : Life M Q R) (pick : Pick Q) → life_steps passed (life_next x acknowledged more passed frame l l.stand pick) ≡ life_steps passed l }
    ensures grows { (x : Speech M Q R) (acknowledged : Q → Bool) (more : M → Bool) (passed : Q → Bool) (frame : ℕ) (spot : Spot) (news : List (News M)) (back : List (Datagram M)) (came : Option (Bool × Option Found)) (l : Life M Q R) →
        life_steps passed l ≤ life_steps passed (life_back x acknowledged more passed frame spot news back came l l.stand) }
    ensures lost { (x : Speech M Q R) (acknowledged : Q → Bool) (more : M → Bool) (passed : Q → Bool) (spot : Spot) (news : List (News M)) (sent : List (Datagram M)) (l : Life M Q R) → life_steps passed l ≤ life_steps passed (life_lost x acknowledged more passed spot news sent l l.stand) }
    ensures given_up { (passed : Q → Bool) (recover frame : ℕ) (spot : Spot) (l : Life M Q R) → life_steps passed (gives_up recover spot frame l) ≡ life_steps passed l }
    ensures most { (passed : Q → Bool) (l : Life M Q R) → life_steps passed l ≤ 4 * life_passed passed l }
    ensures goes_on { (x : Speech M Q R) (acknowledged : Q → Bool) (more : M → Bool) (passed : Q → Bool) (frame : ℕ) (spot : Spot) (news : List (News M)) (back : List (Datagram M)) (came : Option (Bool × Option Found)) (l : Life M Q R) →
        IsUnderWay passed l.era → suc (steps_left (passes x acknowledged more passed l.era.passing news)) ≤ steps_left l.era.passing → suc (life_steps passed l) ≤ life_steps passed (life_back x acknowledged more passed frame spot news back came l Stand.Open) }

    // A mail that is under way came into hand, at every frame of a life.
    ensures new { (passed : Q → Bool) (state : ℕ) → IsUnderWay passed (new_life {M = M} {Q = Q} {R = R} state).era }
    ensures next_under { (x : Speech M Q R) (acknowledged : Q → Bool) (more : M → Bool) (passed : Q → Bool) (frame : ℕ) (l : Life M Q R) (pick : Pick Q) → IsUnderWay passed l.era → IsUnderWay passed (life_next x acknowledged more passed frame l l.stand pick).era }
    ensures back_under { (x : Speech M Q R) (acknowledged : Q → Bool) (more : M → Bool) (passed : Q → Bool) (frame : ℕ) (spot : Spot) (news : List (News M)) (back : List (Datagram M)) (came : Option (Bool × Option Found)) (l : Life M Q R) →
        IsUnderWay passed l.era → IsUnderWay passed (life_back x acknowledged more passed frame spot news back came l l.stand).era }
    ensures lost_under { (x : Speech M Q R) (acknowledged : Q → Bool) (more : M → Bool) (passed : Q → Bool) (spot : Spot) (news : List (News M)) (sent : List (Datagram M)) (l : Life M Q R) → IsUnderWay passed l.era → IsUnderWay passed (life_lost x acknowledged more passed spot news sent l l.stand).era }
{}
