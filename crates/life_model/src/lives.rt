//! What one slave of a ring meets of its frames, and what the epochs of its life are.

ghost use Rattle.std.specs.Prelude.{◌≡◌, ℕ, suc, ◌<◌, Bool, false, Option, Some, List, [], ◌∷◌, ◌++◌, ◌==◌, length};
ghost use Rattle.state_model.specs.of_exchange_model.Exchange.{Exchange};
ghost use Rattle.state_model.specs.of_segment_model.Slaves.{Registers, Processor, Slave, Datagram, Ring, Move, slave_after, frame_after, ring_back};
ghost use Rattle.state_model.specs.of_segment_model.Record.{Frame, News};
ghost use Rattle.state_model.specs.of_segment_model.Laws.{HandedBy, KnowsCounters};
ghost use Rattle.state_model.specs.States.{Table};
ghost use Rattle.state_model.specs.Stated.{Stated, Service};
ghost use Rattle.state_model.specs.Accounts.{Pick};
ghost use Rattle.state_model.specs.Tasks.{IsTaskPlan};
ghost use Rattle.state_model.specs.Promise.{TasksPromised, TasksAnswered, TasksRestIf};
ghost use Rattle.state_model.specs.Books.{TasksPast, TasksEndedIf, TasksDoneIf};
ghost use Rattle.state_model.specs.Steady.{AsksNoInit, IsSteady};
ghost use Rattle.life_model.specs.Own.{own, AreSeen, IsOpen, IsApart};
ghost use Rattle.life_model.specs.Alone.{IsAlone, Reaches};
ghost use Rattle.life_model.specs.Lives.{Spot, Era, AsksOpen, era_next, era_after, new_era};
ghost use Rattle.life_model.specs.Eras.{EraIs, EraGoesOn, OpenEra, frames_of, planned, opened_slave};

/// What a slave meets of a frame is its own datagrams, which the slaves before it leave.
pub fn projection_law<V, M>()
    ensures slave { (station : ℕ) (s : Slave V M) (ds : List (Datagram M)) → AreSeen ds → IsOpen station s ds → slave_after station s ds ≡ slave_after station s (own station ds) }
    ensures frame { (station : ℕ) (s : Slave V M) (ds : List (Datagram M)) → AreSeen ds → IsOpen station s ds → own station (frame_after station s ds) ≡ frame_after station s (own station ds) }
    ensures passes { (station other : ℕ) (s : Slave V M) (ds : List (Datagram M)) → (other == station) ≡ false → AreSeen ds → IsApart station other s ds → own station (frame_after other s ds) ≡ own station ds }
{}

/// An epoch is a session of its slave alone, over the slave's own part of the ring's frames, from its opening on.
pub fn era_law<V, A, M, Q, R>()
    // It begins behind the frame that showed the opened state, with both counters of the record anew and the numbers of all frames.
    ensures begins { (x : Exchange V A M Q R) (s : Stated V A Q) (processor : Processor V) (table : ℕ → Table) (spot : Spot) (cleared : Option ℕ) (state opened : ℕ) (fs : List (Frame M)) (v : V) (r : Registers) →
        length fs ≡ suc opened → IsTaskPlan x s processor table (planned spot v r ∷ []) → r.station ≡ spot.station →
        EraIs x s processor table spot (record (new_era {M = M} {Q = Q} {R = R} cleared state) { opened = Some opened }) opened (length fs) fs v r (opened_slave M Q R spot v r) }

    // It goes on by each frame of the ring that has its datagrams and, where the frame reaches the slave, means it by none but these: so also by
    // the frames that return it to Init, as long as they are lost before the slave.
    ensures goes_on { (x : Exchange V A M Q R) (s : Stated V A Q) (processor : Processor V) (table : ℕ → Table) (more : M → Bool) (passed : Q → Bool) (spot : Spot) (e : Era M Q R) (opened : ℕ) (fs : List (Frame M)) (v : V) (r : Registers)
        (before : Ring V M) (n : Slave V M) (behind : Ring V M) → length before ≡ spot.place → opened < length fs → EraIs x s processor table spot e opened (length fs) fs v r n → (pick : Pick Q) (m : Move M) (news : List (News M)) →
        (Reaches spot.place m.fate → IsAlone spot.station before n behind m.sent) → let next = era_next x.speech s.acknowledged more passed (length fs) e pick in let whole = before ++ (spot.station, n) ∷ behind in
        AsksOpen spot.station next m.sent → let now = era_after x.speech s.acknowledged more passed spot.station (length fs) news m.sent m.fate (ring_back whole m.sent m.fate) next in
        EraGoesOn x s processor table spot now opened fs v r whole m }
{}

/// What an open epoch promises of its slave, with the master's side and account of it, over its own frames.
pub fn open_law<V, A, M, Q, R>()
    // The slave has carried out just the first of the epoch's services, each once and in order, from the application that it was opened with.
    ensures promised { (w : OpenEra V A M Q R) (more : M → Bool) →
        TasksPromised w.exchange w.states (w.table w.spot.station) more (frames_of w) w.spot.station w.server w.era.side w.era.account w.slave }
    // What a book takes from the side and the account is what the record gives.
    ensures answered { (w : OpenEra V A M Q R) (more : M → Bool) →
        TasksAnswered w.exchange w.states (w.table w.spot.station) more (frames_of w) w.spot.station w.server w.era.side w.era.account w.slave }
    // A service that ends with its last write is complete by the record exactly where its row is over.
    ensures handed { (w : OpenEra V A M Q R) (more : M → Bool) → HandedBy w.exchange more (frames_of w) w.spot.station w.server w.era.side w.slave }
    // The halves know the counters of the record of the epoch.
    ensures counters { (w : OpenEra V A M Q R) → KnowsCounters (frames_of w) w.spot.station w.server w.era.side w.slave }
    // Only the epoch's newest service can be in doubt, and none where nothing is in hand.
    ensures in_doubt { (w : OpenEra V A M Q R) (more : M → Bool) → TasksPast w.exchange more (frames_of w) w.spot.station w.server w.era.side w.era.account w.slave }
    ensures none_in_doubt { (w : OpenEra V A M Q R) (more : M → Bool) → TasksEndedIf w.exchange more (frames_of w) w.spot.station w.server w.era.side w.era.account w.slave }
    // Where the slave is settled and the master wants nothing of it, all services of the epoch are carried out.
    ensures rests { (w : OpenEra V A M Q R) (more : M → Bool) →
        TasksRestIf w.exchange w.states (w.table w.spot.station) more (frames_of w) w.spot.station w.server w.era.side w.era.account w.slave }
    // STEADY: the AL state isn't Init and no word that waits asks for Init, while no state service asks for it.
    ensures steady { (w : OpenEra V A M Q R) → AsksNoInit w.states (w.exchange.app w.server) w.era.account → IsSteady w.slave }
{}
