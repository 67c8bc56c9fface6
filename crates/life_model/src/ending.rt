//! How an epoch ends.

ghost use Rattle.std.specs.Prelude.{◌≡◌, ℕ, ◌≤◌, true, Some, None, List, [], ◌∷◌, ◌++◌, length};
ghost use Rattle.state_model.specs.of_link_model.Segment.{RingFate};
ghost use Rattle.state_model.specs.of_segment_model.Slaves.{Registers, Slave, Datagram, Ring, slave_after, first_meet, ring_after};
ghost use Rattle.state_model.specs.States.{Table, carry};
ghost use Rattle.life_model.specs.Own.{own, AreSeen};
ghost use Rattle.life_model.specs.Ending.{NoneMean, ReturnsIt, worded, AllClose, behind_all, Returning, EndsIt};

/// An epoch ends where its slave meets the word that returns it to Init, and not before; its server is the one that stood there, and then cleared.
pub fn end_law<V, A, M, Q, R>()
    // A frame that is lost before the slave leaves it, and so does one that neither means it nor is addressed to it.
    ensures not_before { (after : ℕ) (before : Ring V M) (n : ℕ × Slave V M) (behind : Ring V M) (ds : List (Datagram M)) → after ≤ length before →
        ring_after (before ++ n ∷ behind) ds (RingFate.Lost after) ≡ first_meet after before ds ++ n ∷ behind }
    ensures stands { (station : ℕ) (s : Slave V M) (ds : List (Datagram M)) → AreSeen ds → own station ds ≡ [] → NoneMean s.registers ds → slave_after station s ds ≡ s }
    // The frame that returns it changes its control word alone, and so do those behind that write the word again or read the status.
    ensures word { (station : ℕ) (s : Slave V M) (ds : List (Datagram M)) → ReturnsIt station s ds → slave_after station s ds ≡ worded s }
    ensures waits { (station : ℕ) (s : Slave V M) (fs : List (List (Datagram M))) → AllClose station s.registers fs → behind_all station (worded s) fs ≡ worded s }
    // Its next step takes no mail: it clears the server that stood before the word was met.
    ensures ends { (w : Returning V A M Q R) → EndsIt w }
    // Such a word is carried out, with or without an error flag, where the slave's table lets it return to Init.
    ensures carried { (table : Table) (r : Registers) → table r.state 1 ≡ None → (carry table (record r { control = Some (1, true) })).state ≡ 1 }
{}
