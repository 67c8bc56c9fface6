//! The tour of a ring, round by round.

ghost use Rattle.std.specs.Prelude.{◌≡◌, ◌⊎◌, ◌≤◌, ◌<◌, ℕ, suc, true, List, length};
ghost use Rattle.state_model.specs.of_segment_model.Slaves.{Datagram};
ghost use Rattle.state_model.specs.of_segment_model.Record.{Frame};
ghost use Rattle.state_model.specs.of_segment_model.Visits.{Stop, IsVisit, is_live, is_among, last_of};
ghost use Rattle.life_model.specs.Tours.{Tour, Visits, is_live_in, round, tour_after};
ghost use Rattle.life_model.specs.Rounds.{ahead, AreApart, GoesRound, AllBack, IsCarriedIn};

/// A TOUR VISITS EACH LIVE SLAVE IN A ROUND: each frame that comes back carries it or comes nearer to it, by one slave at least, and no slave is a
/// whole round away. A lost frame, by which nobody is given up, changes no distance: the same slaves come again.
pub fn round_law<M>()
    ensures kept { (size retry : ℕ) (ring : List Stop) (t : Tour) (f : Frame M) (cs : List ℕ) → AreApart ring → GoesRound ring t → IsVisit size t.again t.opening (round ring t.last t.members) cs → GoesRound ring (tour_after retry t cs f f.fate) }
    ensures nearer { (size : ℕ) (ring : List Stop) (t : Tour) (cs : List ℕ) (station : ℕ) → AreApart ring → GoesRound ring t → is_live station ring ≡ true → is_live_in station t.members ≡ true →
        IsVisit size t.again t.opening (round ring t.last t.members) cs → (is_among station cs ≡ true) ⊎ (suc (ahead ring (last_of t.last cs) station) ≤ ahead ring t.last station) }
    ensures less { (ring : List Stop) (t : Tour) (station : ℕ) → AreApart ring → GoesRound ring t → is_live station ring ≡ true → ahead ring t.last station < length ring }
    // As many frames as the ring has slaves, all of which came back, carry each live one.
    ensures round { (size : List (Datagram M) → ℕ) (retry : ℕ) (ring : List Stop) (station : ℕ) (t : Tour) (fs : List (Frame M)) → AreApart ring → GoesRound ring t → is_live station ring ≡ true → is_live_in station t.members ≡ true →
        AllBack fs → Visits size retry ring t fs → length ring ≤ length fs → IsCarriedIn ring station fs }
{}
