//! The laws of a session with a segment. Each function does nothing and carries laws as its contract.

ghost use Rattle.std.specs.Prelude.{◌≡◌, ◌≤◌, ℕ, Bool, true, false, nat_lt, Option, None, List, [], ◌∷◌, ◌++◌, length, drop};
ghost use Rattle.exchange_model.specs.Exchange.{Exchange, IsLawful};
ghost use Rattle.exchange_model.specs.Rows.{answer_after};
ghost use Rattle.segment_model.specs.Slaves.{Processor, IsStill, Datagram, Ring, Move, ring_after, ring_back, ring_steps, replayed, paced};
ghost use Rattle.segment_model.specs.Record.{Frame, frame_of, recorded, sent_fates, news_from, first_end, frame_news, kept_all, nothing_kept, joined, news_each, counted_each};
ghost use Rattle.segment_model.specs.Returned.{Returns};
ghost use Rattle.segment_model.specs.Ends.{Task, ends};
ghost use Rattle.segment_model.specs.GiveUps.{NoneFor};
ghost use Rattle.segment_model.specs.Seats.{Side, Choice, Turn, Planned, IsPlan, MayRun, IsOpening, run, new_session, ring_of, sides_of, moves};
ghost use Rattle.segment_model.specs.Split.{IsBound, IsFrameOf, sides_next, sides_after};
ghost use Rattle.link_model.specs.Segment.{RingFate};
ghost use Rattle.segment_model.specs.Visits.{Stop, Tour, Visits, IsLost, IsGivenUp, carried, is_among, new_tour, tour_over};
ghost use Rattle.segment_model.specs.Books.{PastEnded, EndedIf, DoneIf};
ghost use Rattle.segment_model.specs.Laws.{EachOf, Promised, HandedBy, KnowsCounters, RestsIf};

/// What a session promises of each slave of its plan, with the master's side of it, the slave and the frames as they have come to be.
pub fn session_law<V, A, M, Q, R>()
    // Each answer is the one that the table of completed services gives for the news of the slave from the row's frame on, of the frame that
    // completed it; the next row's frame is greater; and the slave's server has carried out just the first services of its rows, each once
    // and in order, and each reply is its application's.
    ensures promised { (x : Exchange V A M Q R) → IsLawful x → (more : M → Bool) (processor : Processor V) → IsStill processor → (ps : List (Planned V)) → IsPlan x ps →
        (ds : List (ℕ × Side M Q R)) (ns : Ring V M) (fs : List (Frame M)) → IsBound x processor ps ds ns fs → EachOf (Promised x more fs) ps ds ns }

    // A service that ends with its last write, as a packet, is complete by the record exactly where its row is over: all its mails were sent
    // and the write of the last one came back done. A mail of the row before that is still held is none of its mails.
    ensures handed { (x : Exchange V A M Q R) → IsLawful x → (more : M → Bool) (processor : Processor V) → IsStill processor → (ps : List (Planned V)) → IsPlan x ps →
        (ds : List (ℕ × Side M Q R)) (ns : Ring V M) (fs : List (Frame M)) → IsBound x processor ps ds ns fs → EachOf (HandedBy x more fs) ps ds ns }

    // Only the newest service of a slave can be in doubt, and none where nothing is in hand.
    ensures in_doubt { (x : Exchange V A M Q R) → IsLawful x → (more : M → Bool) (processor : Processor V) → IsStill processor → (ps : List (Planned V)) → IsPlan x ps →
        (ds : List (ℕ × Side M Q R)) (ns : Ring V M) (fs : List (Frame M)) → IsBound x processor ps ds ns fs → EachOf (PastEnded x more fs) ps ds ns × EachOf (EndedIf x more fs) ps ds ns }

    // The halves know the counters of the record, so a master can tell the news of a frame by its own state.
    ensures counters { (x : Exchange V A M Q R) → IsLawful x → (processor : Processor V) (ps : List (Planned V)) → IsPlan x ps →
        (ds : List (ℕ × Side M Q R)) (ns : Ring V M) (fs : List (Frame M)) → IsBound x processor ps ds ns fs → EachOf (KnowsCounters fs) ps ds ns }

    // Where a slave is settled and the master wants nothing of it, all its rows are carried out, and all emissions were heard.
    ensures rests { (x : Exchange V A M Q R) → IsLawful x → (processor : Processor V) → IsStill processor → (ps : List (Planned V)) → IsPlan x ps →
        (ds : List (ℕ × Side M Q R)) (ns : Ring V M) (fs : List (Frame M)) → IsBound x processor ps ds ns fs → EachOf (RestsIf x fs) ps ds ns }

    // And all is done where besides all its scripted services, here by its station, have begun.
    ensures done { (x : Exchange V A M Q R) → IsLawful x → (more : M → Bool) (scripted : ℕ → List Q) (processor : Processor V) → IsStill processor → (ps : List (Planned V)) → IsPlan x ps →
        (ds : List (ℕ × Side M Q R)) (ns : Ring V M) (fs : List (Frame M)) → IsBound x processor ps ds ns fs → EachOf (DoneIf x more scripted fs) ps ds ns }
{}

/// The slaves and what came back are the replay of the frames, their fates and the processor steps behind them, whatever the master is.
pub fn replay_law<V, A, M, Q, R>()
    ensures ring { (x : Exchange V A M Q R) (processor : Processor V) (ps : List (Planned V)) (opening : List (Frame M)) (ts : List (Turn M Q)) →
        let new = new_session {R = R} opening ps in ring_of (run x processor new ts).seats ≡ replayed x processor (ring_of new.seats) (moves ts) }
    ensures frames { (x : Exchange V A M Q R) (processor : Processor V) (ps : List (Planned V)) (opening : List (Frame M)) (ts : List (Turn M Q)) →
        let new = new_session {R = R} opening ps in (run x processor new ts).frames ≡ opening ++ recorded x processor (ring_of new.seats) (moves ts) }

    // With slow slaves, behind frame j each slave steps whose pace divides j + 1: then frames, fates and paces alone give both.
    ensures paced { (x : Exchange V A M Q R) (processor : Processor V) (ps : List (Planned V)) (opening : List (Frame M)) (ts : List (Turn M Q)) (paces : List ℕ) →
        let new = new_session {R = R} opening ps in let w = run x processor new ts in let at = paced paces (length opening) (sent_fates (drop (length opening) w.frames)) in moves ts ≡ at →
        (ring_of w.seats ≡ replayed x processor (ring_of new.seats) at) × (w.frames ≡ opening ++ recorded x processor (ring_of new.seats) at) }
{}

/// A master and a ring that meet in frames alone are a session: what each of them has to keep.
pub fn split_law<V, A, M, Q, R>()
    // It begins behind the frames of bring-up, which access no mailbox.
    ensures begins { (x : Exchange V A M Q R) (processor : Processor V) (ps : List (Planned V)) (opening : List (Frame M)) → IsOpening opening →
        let new = new_session {Q = Q} {R = R} opening ps in IsBound x processor ps (sides_of new.seats) (ring_of new.seats) opening }

    // The master's sides go on by its choices and by what came back or was lost, the ring by the frame, its fate and its steps.
    ensures steps { (x : Exchange V A M Q R) (processor : Processor V) (ps : List (Planned V)) (ds : List (ℕ × Side M Q R)) (ns : Ring V M) (fs : List (Frame M)) →
        IsBound x processor ps ds ns fs → (cs : List (Choice Q)) (m : Move M) → let asked = sides_next x.speech (length fs) ds cs in IsFrameOf asked m.sent →
        IsBound x processor ps (sides_after x.speech (length fs) m.sent m.fate (ring_back ns m.sent m.fate) asked) (ring_steps x processor (ring_after ns m.sent m.fate) m.steps) (fs ++ frame_of ns m ∷ []) }

    // And each run of a session is such a meeting.
    ensures runs { (x : Exchange V A M Q R) (processor : Processor V) (ps : List (Planned V)) (opening : List (Frame M)) → IsOpening opening → (ts : List (Turn M Q)) →
        let new = new_session {Q = Q} {R = R} opening ps in MayRun x processor new ts → let w = run x processor new ts in IsBound x processor ps (sides_of w.seats) (ring_of w.seats) w.frames }
{}

/// What comes back of a frame is the return of what was sent: datagram by datagram with the same station, ask and access, and addressed to
/// the same station. So a master may go by what it asked.
pub fn return_law<V, M>()
    ensures { (ns : Ring V M) (sent : List (Datagram M)) → Returns sent (ring_back ns sent RingFate.Back) }
{}

/// An outcome, of a task of whichever kind, frame by frame: there is none before its first frame, and one frame more completes it by the news
/// of that frame behind those before, or leaves the outcome that is there.
pub fn outcome_law<V, A, M, Q, R>()
    ensures begins { (x : Exchange V A M Q R) (more : M → Bool) (task : Task M Q) (station : ℕ) (fs : List (Frame M)) → first_end (ends x.speech more task) (length fs) [] (news_from station (length fs) fs) ≡ None }
    ensures grows { (x : Exchange V A M Q R) (more : M → Bool) (task : Task M Q) (station frame : ℕ) (fs : List (Frame M)) (f : Frame M) → frame ≤ length fs →
        first_end (ends x.speech more task) frame [] (news_from station frame (fs ++ f ∷ [])) ≡
        answer_after (length fs) (first_end (ends x.speech more task) frame [] (news_from station frame fs)) (ends x.speech more task (joined (news_from station frame fs) ++ frame_news station (kept_all station nothing_kept fs) f)) }
{}

/// At pace 1 each empty read counts: the news of a slave are those of the record.
pub fn pace_law<M>()
    ensures { (station : ℕ) (fs : List (Frame M)) → counted_each station 1 0 true fs (news_each station nothing_kept fs) ≡ news_each station nothing_kept fs }
{}

/// A give-up: frames that carry nothing for a slave complete nothing, so what its tasks come to is told by the frames before.
pub fn give_up_law<V, A, M, Q, R>()
    ensures { (x : Exchange V A M Q R) → IsLawful x → (more : M → Bool) (task : Task M Q) (station frame : ℕ) (front behind : List (Frame M)) → frame ≤ length front → NoneFor station behind →
        first_end (ends x.speech more task) frame [] (news_from station frame (front ++ behind)) ≡ first_end (ends x.speech more task) frame [] (news_from station frame front) }
{}

/// Visits: behind a lost frame by which no slave is given up the next frame carries the same slaves; and by a lost frame behind `retry` lost
/// frames in a row each slave that it carried is given up: those frames carried it, and no later frame does.
pub fn visit_law<M>()
    ensures again { (size : List (Datagram M) → ℕ) (retry after : ℕ) (ring : List Stop) (t : Tour) (f g : Frame M) (fs : List (Frame M)) → Visits size retry ring t (f ∷ g ∷ fs) →
        f.fate ≡ RingFate.Lost after → nat_lt t.missed retry ≡ true → carried ring g.sent ≡ carried ring f.sent }
    ensures given_up { (size : List (Datagram M) → ℕ) (retry station : ℕ) (ring stops : List Stop) (front : List (Frame M)) (f : Frame M) (rest : List (Frame M)) → Visits size retry ring (new_tour stops) (front ++ f ∷ rest) →
        IsLost f.fate → nat_lt (tour_over retry ring (new_tour stops) front).missed retry ≡ false → is_among station (carried ring f.sent) ≡ true → IsGivenUp retry ring station (length front) (front ++ f ∷ rest) }
{}
