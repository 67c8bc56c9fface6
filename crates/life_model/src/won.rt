//! What a life gains, frame by frame.

ghost use Rattle.std.specs.Prelude.{◌≡◌, ◌≤◌, ◌==◌, ◌∷◌, [], ℕ, suc, Bool, true, false, Option, Some, List, length};
ghost use Rattle.state_model.specs.of_exchange_model.Exchange.{Speech};
ghost use Rattle.state_model.specs.of_exchange_model.Rows.{Row};
ghost use Rattle.state_model.specs.of_link_model.Mails.{LinkMail};
ghost use Rattle.state_model.specs.of_link_model.Frames.{Ask, all_accepted};
ghost use Rattle.state_model.specs.of_segment_model.Slaves.{Datagram, Found, grams};
ghost use Rattle.state_model.specs.of_segment_model.Record.{News, is_for};
ghost use Rattle.state_model.specs.Accounts.{Duty, Pick, access_done};
ghost use Rattle.life_model.specs.Own.{own};
ghost use Rattle.life_model.specs.Lives.{Stand, Life, Spot, life_next, life_back, life_lost, gives_up};
ghost use Rattle.life_model.specs.Gains.{gains, stage_gains, progress_gains};

/// WHAT A LIFE HAS GAINED NEVER FALLS: neither a service that begins nor a lost frame nor a give-up changes it, and each visit that is done gains: the
/// write of a mail held, the read of a mail that is new, and each step of a state service.
pub fn gain_law<M, Q, R>()
    ensures before { (x : Speech M Q R) (acknowledged : Q → Bool) (more : M → Bool) (passed : Q → Bool) (frame : ℕ) (l : Life M Q R) (pick : Pick Q) → gains (life_next x acknowledged more passed frame l l.stand pick) ≡ gains l }
    ensures grows { (x : Speech M Q R) (acknowledged : Q → Bool) (more : M → Bool) (passed : Q → Bool) (frame : ℕ) (spot : Spot) (news : List (News M)) (back : List (Datagram M)) (came : Option (Bool × Option Found)) (l : Life M Q R) →
        gains l ≤ gains (life_back x acknowledged more passed frame spot news back came l l.stand) }
    ensures lost { (x : Speech M Q R) (acknowledged : Q → Bool) (more : M → Bool) (passed : Q → Bool) (spot : Spot) (news : List (News M)) (sent : List (Datagram M)) (l : Life M Q R) → gains (life_lost x acknowledged more passed spot news sent l l.stand) ≡ gains l }
    ensures given_up { (recover frame : ℕ) (spot : Spot) (l : Life M Q R) → gains (gives_up recover spot frame l) ≡ gains l }

    // The write of the mail held came back and was done.
    ensures written { (x : Speech M Q R) (acknowledged : Q → Bool) (more : M → Bool) (passed : Q → Bool) (frame : ℕ) (spot : Spot) (news : List (News M)) (back : List (Datagram M)) (came : Option (Bool × Option Found)) (l : Life M Q R) (d : Datagram M) (held sent : LinkMail M) →
        own spot.station back ≡ d ∷ [] → d.gram.station ≡ spot.station → l.era.side.halves.out.holding ≡ Some held → d.gram.ask ≡ Ask.WriteMail sent → (d.gram.counter == 0) ≡ false →
        suc (gains l) ≤ gains (life_back x acknowledged more passed frame spot news back came l Stand.Open) }
    // A read brought a mail that is new.
    ensures heard { (x : Speech M Q R) (acknowledged : Q → Bool) (more : M → Bool) (passed : Q → Bool) (frame : ℕ) (spot : Spot) (news : List (News M)) (back : List (Datagram M)) (came : Option (Bool × Option Found)) (l : Life M Q R) (r : Row M Q R) →
        l.era.side.now ≡ Some r → 1 ≤ length (all_accepted spot.station l.era.side.halves (grams (own spot.station back))) → suc (gains l) ≤ gains (life_back x acknowledged more passed frame spot news back came l Stand.Open) }
    // An access took a state service on.
    ensures went_on { (x : Speech M Q R) (acknowledged : Q → Bool) (more : M → Bool) (passed : Q → Bool) (frame : ℕ) (spot : Spot) (news : List (News M)) (back : List (Datagram M)) (came : Option (Bool × Option Found)) (l : Life M Q R) (d : Datagram M) (duty : Duty) →
        own spot.station back ≡ d ∷ [] → l.era.account.hand ≡ Some duty → is_for spot.station d.address ≡ true → (d.counter == 0) ≡ false → suc (stage_gains duty.stage) ≤ progress_gains {R = R} (access_done duty.target duty.stage d.access d.found) →
        suc (gains l) ≤ gains (life_back x acknowledged more passed frame spot news back came l Stand.Open) }
{}
