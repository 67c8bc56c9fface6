//! An exchange by other names of its services, and lives that two clients lead alike. No running code: each function here does nothing, and its
//! contract states a law.

ghost use Rattle.slave_server.specs.of_exchange_model.Exchange.{Exchange, Speech, IsLawful};
ghost use Rattle.whole_ring.specs.of_life_model.Lives.{Spot, Life, Stand, life_next, life_back, life_lost};
ghost use Rattle.plan_ring.specs.Alike.{Alike, WishIs, InHandIs};
ghost use Rattle.plan_ring.specs.Named.{Naming, named, named_states, Agrees, AgreesLast};
ghost use Rattle.slave_server.specs.of_segment_model.Record.{News};
ghost use Rattle.slave_server.specs.of_segment_model.Slaves.{Datagram, Found};
ghost use Rattle.slave_server.specs.of_state_model.Stated.{Stated, IsStated};
ghost use Rattle.std.specs.Prelude.{◌≡◌, ℕ, Bool, List, Option};
ghost use Rattle.slave_server.specs.of_state_model.Accounts.{Pick};

/// An exchange owes its laws by its client's names too, and its AL state is a part of its application.
pub fn named_law<V, A, M, Q, R, P, T>()
    ensures lawful { (x : Exchange V A M Q R) (n : Naming Q R P T) (y : Speech M P T) → IsLawful x → Agrees x n y → IsLawful (named x n y) }
    ensures stated { (x : Exchange V A M Q R) (n : Naming Q R P T) (y : Speech M P T) (s : Stated V A Q) (acknowledged : P → Bool) → IsLawful x → Agrees x n y → IsStated x s → AgreesLast s n acknowledged → IsStated (named x n y) (named_states s acknowledged) }
{}

/// Two clients that speak alike of some services lead a life alike, as long as no other service came into hand: by choices, by frames that came
/// back and by lost ones; and none other comes into hand where none is wished for.
pub fn named_life_law<M, P, T>()
    ensures next { (is : P → Bool) (y z : Speech M P T) → Alike is y z → (acknowledged : P → Bool) (more : M → Bool) (passed : P → Bool) (frame : ℕ) (l : Life M P T) (stand : Stand) (pick : Pick P) → InHandIs is l → WishIs is pick.begin →
        (life_next y acknowledged more passed frame l stand pick ≡ life_next z acknowledged more passed frame l stand pick) × InHandIs is (life_next z acknowledged more passed frame l stand pick) }
    ensures back { (is : P → Bool) (y z : Speech M P T) → Alike is y z → (acknowledged : P → Bool) (more : M → Bool) (passed : P → Bool) (frame : ℕ) (spot : Spot) (news : List (News M)) (back : List (Datagram M)) (came : Option (Bool × Option Found)) (l : Life M P T) (stand : Stand) → InHandIs is l →
        (life_back y acknowledged more passed frame spot news back came l stand ≡ life_back z acknowledged more passed frame spot news back came l stand) × InHandIs is (life_back z acknowledged more passed frame spot news back came l stand) }
    ensures lost { (is : P → Bool) (y z : Speech M P T) → Alike is y z → (acknowledged : P → Bool) (more : M → Bool) (passed : P → Bool) (spot : Spot) (news : List (News M)) (sent : List (Datagram M)) (l : Life M P T) (stand : Stand) → InHandIs is l →
        (life_lost y acknowledged more passed spot news sent l stand ≡ life_lost z acknowledged more passed spot news sent l stand) × InHandIs is (life_lost z acknowledged more passed spot news sent l stand) }
{}
