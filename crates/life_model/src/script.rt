//! What of a script has begun.

ghost use Rattle.std.specs.Prelude.{◌≡◌, ℕ, Bool, Option, None, List, [], filter};
ghost use Rattle.state_model.specs.of_exchange_model.Prefix.{IsPrefixOf};
ghost use Rattle.state_model.specs.of_exchange_model.Exchange.{Speech};
ghost use Rattle.state_model.specs.of_link_model.Segment.{RingFate};
ghost use Rattle.state_model.specs.of_segment_model.Slaves.{Datagram, Found};
ghost use Rattle.state_model.specs.of_segment_model.Record.{News};
ghost use Rattle.state_model.specs.Stated.{Service};
ghost use Rattle.state_model.specs.Accounts.{Pick};
ghost use Rattle.life_model.specs.Lives.{Life, Spot, new_life, life_next, life_back, life_lost, gives_up};
ghost use Rattle.life_model.specs.Book.{SlaveBook};
ghost use Rattle.life_model.specs.Open.{Setting, StartsSo, WasNeverGiven, IsOpenLife, IsIdle, HadDrained};
ghost use Rattle.life_model.specs.Script.{Addressed, HaveBegun, RestsWhole, DoneWhole, services_of, life_started, open_started, IsScript, TakesNext, left_by};

/// Of a script just the first services came into hand, in order, over all epochs of a life, whose master takes them from its script one by one; and
/// all of them where nothing of it is left.
pub fn script_law<M, Q, R>()
    ensures begins { (is_scripted : Service Q → Bool) (scripted : List (Service Q)) (state : ℕ) → IsScript is_scripted scripted (new_life {M = M} {Q = Q} {R = R} state) scripted }
    ensures next { (x : Speech M Q R) (acknowledged : Q → Bool) (more : M → Bool) (passed : Q → Bool) (is_scripted : Service Q → Bool) (scripted left : List (Service Q)) (frame : ℕ) (l : Life M Q R) (pick : Pick Q) →
        IsScript is_scripted scripted l left → TakesNext is_scripted left pick → let now = life_next x acknowledged more passed frame l l.stand pick in
        IsScript is_scripted scripted now (left_by is_scripted l.era.account now.era.account pick.begin left) }
    // No frame takes one back, lost or not, and no give-up.
    ensures back { (x : Speech M Q R) (acknowledged : Q → Bool) (more : M → Bool) (passed : Q → Bool) (frame : ℕ) (spot : Spot) (news : List (News M)) (back : List (Datagram M)) (came : Option (Bool × Option Found)) (l : Life M Q R) →
        life_started (life_back x acknowledged more passed frame spot news back came l l.stand) ≡ life_started l }
    ensures lost { (x : Speech M Q R) (acknowledged : Q → Bool) (more : M → Bool) (passed : Q → Bool) (spot : Spot) (news : List (News M)) (sent : List (Datagram M)) (l : Life M Q R) →
        life_started (life_lost x acknowledged more passed spot news sent l l.stand) ≡ life_started l }
    ensures gives { (recover frame : ℕ) (spot : Spot) (l : Life M Q R) → life_started (gives_up recover spot frame l) ≡ life_started l }
    ensures numbered { (is_scripted : Service Q → Bool) (scripted left : List (Service Q)) (l : Life M Q R) → IsScript is_scripted scripted l left → IsPrefixOf (filter is_scripted (life_started l)) scripted }
    ensures all { (is_scripted : Service Q → Bool) (scripted : List (Service Q)) (l : Life M Q R) → IsScript is_scripted scripted l [] → filter is_scripted (life_started l) ≡ scripted }
{}

/// The rows of a book are just the services that came into hand in its life; so nothing is left of a slave, and all is done of it, where besides all
/// that is addressed to it came into hand.
pub fn begun_law<V, A, M, Q, R>()
    ensures rows { (w : Setting V A M Q R) (b : SlaveBook A M Q R) (l : IsOpenLife w b) → services_of b.epochs ≡ open_started w b l }
    ensures rests { (w : Setting V A M Q R) (b : SlaveBook A M Q R) (a : Addressed Q) → StartsSo w b → b.given_up ≡ None → (l : IsOpenLife w b) → IsIdle w b l → HaveBegun a (open_started w b l) → RestsWhole w b a }
    ensures done { (w : Setting V A M Q R) (b : SlaveBook A M Q R) (a : Addressed Q) → StartsSo w b → WasNeverGiven b → (l : IsOpenLife w b) → IsIdle w b l → HadDrained w b l → HaveBegun a (open_started w b l) → DoneWhole w b a }
{}
