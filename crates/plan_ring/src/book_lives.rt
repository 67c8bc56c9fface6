//! The book of a slave whose life is lived by its node. No running code: each function here does nothing, and its contract states a law.

ghost use Rattle.std.specs.Prelude.{◌≡◌, ℕ, suc, Bool, List, Option, length};
ghost use Rattle.slave_server.specs.of_exchange_model.Exchange.{Speech};
ghost use Rattle.slave_server.specs.of_link_mails.Body.{Body};
ghost use Rattle.slave_server.specs.of_segment_model.Record.{Frame, News};
ghost use Rattle.slave_server.specs.of_segment_model.Slaves.{Datagram, Found};
ghost use Rattle.slave_server.specs.of_slave_node.Node.{Node};
ghost use Rattle.slave_server.specs.of_state_model.Accounts.{Pick};
ghost use Rattle.whole_ring.specs.of_life_model.Eras.{Clearing};
ghost use Rattle.whole_ring.specs.of_life_model.Lives.{Spot, Life, Stand, new_life, life_next, life_back, life_lost};
ghost use Rattle.whole_ring.specs.of_slave_lives.Lived.{Behind};
ghost use Rattle.whole_ring.specs.of_slave_lives.Opening.{Plan};
ghost use Rattle.whole_ring.specs.Whole.{OwesLaws, IsLived};
ghost use Rattle.plan_ring.specs.Rows.{WishStays, IsFirst};
ghost use Rattle.plan_ring.specs.KeptFirst.{Forgets, FirstBook};

/// A life stays in its first epoch, with rows that began behind its opening, as long as no service returns the slave to Init and it isn't given up:
/// from the switch on, by frames that came back and by lost ones.
pub fn first_rows_law<M, Q, R>()
    ensures begins { (state : ℕ) → IsFirst 0 (new_life {M = M} {Q = Q} {R = R} state) }
    ensures back { (x : Speech M Q R) (acknowledged : Q → Bool) (more : M → Bool) (passed : Q → Bool) (made : ℕ) (spot : Spot) (news : List (News M)) (pick : Pick Q) (l : Life M Q R) (back : List (Datagram M)) (came : Option (Bool × Option Found)) → WishStays pick.begin → IsFirst made l →
        IsFirst (suc made) (life_back x acknowledged more passed made spot news back came (life_next x acknowledged more passed made l l.stand pick) l.stand) }
    ensures lost { (x : Speech M Q R) (acknowledged : Q → Bool) (more : M → Bool) (passed : Q → Bool) (made : ℕ) (spot : Spot) (news : List (News M)) (pick : Pick Q) (l : Life M Q R) (sent : List (Datagram M)) → WishStays pick.begin → IsFirst made l →
        IsFirst (suc made) (life_lost x acknowledged more passed spot news sent (life_next x acknowledged more passed made l l.stand pick) l.stand) }
{}

/// THE BOOK OF A SLAVE IN ITS FIRST EPOCH, whose life is lived by its node: its answers are those that the frames give, at each pace; the application
/// is what is done of its rows, each once and in order; and where it is settled and nothing is wanted of it, nothing is left and all is done.
pub fn first_epoch_law<S, V, A, Q, R>()
    ensures { (w : Behind S V A Q R) (c : Clearing V A) (p : Plan) (spot : Spot) (owes : OwesLaws w c p spot) (f : Forgets w c) (more : Body → Bool) (first : A) (l : Life Body Q R) (fs : List (Frame Body)) (n : Node S) →
        IsLived w c p spot first l fs n → IsFirst (length fs) l → l.stand ≡ Stand.Open → FirstBook w c p spot owes f more first l fs n }
{}
