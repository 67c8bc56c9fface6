//! What a life of a serving has gained, and how much that is at most. Definitions and a law, no running code: the function here does nothing, and its
//! contract states the law.

ghost use Rattle.std.specs.Prelude.{◌≡◌, ◌≤◌, ◌+◌, ℕ, suc, Bool, Option, List};
ghost use Rattle.master_hand.specs.of_exchange_model.Exchange.{Speech};
ghost use Rattle.life_counts.specs.Begun.{life_most};
ghost use Rattle.few_replies.specs.of_life_model.Gains.{gains};
ghost use Rattle.few_replies.specs.of_life_model.Lives.{Stand, Life, Spot, life_next, life_back, life_lost, gives_up, passes};
ghost use Rattle.few_replies.specs.Steps.{steps_left, IsUnderWay};
ghost use Rattle.master_hand.specs.of_segment_model.Record.{News};
ghost use Rattle.master_hand.specs.of_segment_model.Slaves.{Datagram, Found};
ghost use Rattle.master_hand.specs.of_state_model.Accounts.{Pick};
ghost use Rattle.life_counts.specs.Served.{served_gains, served_most};

/// WHAT A LIFE OF A SERVING HAS GAINED NEVER FALLS: a service or a mail that comes into hand and a give-up leave it, and a frame adds to it what its mails
/// and state services gain, and what the mail that is passed on comes on. It is no more than services and mails count, with four steps of each mail.
pub fn served_gains<M, Q, R>()
    ensures before { (x : Speech M Q R) (acknowledged : Q → Bool) (more : M → Bool) (passed : Q → Bool) (frame : ℕ) (l : Life M Q R) (pick : Pick Q) → served_gains passed (life_next x acknowledged more passed frame l l.stand pick) ≡ served_gains passed l }
    ensures grows { (x : Speech M Q R) (acknowledged : Q → Bool) (more : M → Bool) (passed : Q → Bool) (frame : ℕ) (spot : Spot) (news : List (News M)) (back : List (Datagram M)) (came : Option (Bool × Option Found)) (l : Life M Q R) →
        served_gains passed l ≤ served_gains passed (life_back x acknowledged more passed frame spot news back came l l.stand) }
    ensures lost { (x : Speech M Q R) (acknowledged : Q → Bool) (more : M → Bool) (passed : Q → Bool) (spot : Spot) (news : List (News M)) (sent : List (Datagram M)) (l : Life M Q R) → served_gains passed l ≤ served_gains passed (life_lost x acknowledged more passed spot news sent l l.stand) }
    ensures given_up { (passed : Q → Bool) (recover frame : ℕ) (spot : Spot) (l : Life M Q R) → served_gains passed (gives_up recover spot frame l) ≡ served_gains passed l }
    ensures most { (passed : Q → Bool) (count : Q → ℕ) (l : Life M Q R) → gains l ≤ 1 + life_most count l → served_gains passed l ≤ 1 + served_most passed count l }
    // A frame gains where its mails or state services do, and where its news take the newest mail that is passed on a step on.
    ensures by_mails { (x : Speech M Q R) (acknowledged : Q → Bool) (more : M → Bool) (passed : Q → Bool) (frame : ℕ) (spot : Spot) (news : List (News M)) (back : List (Datagram M)) (came : Option (Bool × Option Found)) (l : Life M Q R) →
        suc (gains l) ≤ gains (life_back x acknowledged more passed frame spot news back came l l.stand) → suc (served_gains passed l) ≤ served_gains passed (life_back x acknowledged more passed frame spot news back came l l.stand) }
    ensures by_news { (x : Speech M Q R) (acknowledged : Q → Bool) (more : M → Bool) (passed : Q → Bool) (frame : ℕ) (spot : Spot) (news : List (News M)) (back : List (Datagram M)) (came : Option (Bool × Option Found)) (l : Life M Q R) →
        l.stand ≡ Stand.Open → IsUnderWay passed l.era → suc (steps_left (passes x acknowledged more passed l.era.passing news)) ≤ steps_left l.era.passing →
        suc (served_gains passed l) ≤ served_gains passed (life_back x acknowledged more passed frame spot news back came l l.stand) }
{}
