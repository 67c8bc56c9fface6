//! Sessions of services by mails and state services: a master, a ring of slaves and their frames as data. Definitions and laws, no running
//! code: the functions here do nothing, and their contracts state the laws. They hold for every exchange that owes the laws of
//! `exchange_model` and whose AL state is a part of its application, every plan with distinct stations, every choice of a master, every fate of
//! a frame and every order of processor steps.

ghost use Rattle.std.specs.Prelude.{◌≡◌, ℕ, Bool, List, [], ◌∷◌, ◌++◌, length};
ghost use Rattle.segment_model.specs.of_exchange_model.Exchange.{Exchange};
ghost use Rattle.segment_model.specs.Slaves.{Processor, Ring, Move, ring_after, ring_back, ring_steps};
ghost use Rattle.segment_model.specs.Record.{Frame, frame_of};
ghost use Rattle.segment_model.specs.Seats.{Side, Planned, IsOpening, ring_of, sides_of};
ghost use Rattle.segment_model.specs.Laws.{HandedBy, KnowsCounters};
ghost use Rattle.segment_model.specs.Split.{IsBound, IsFrameOf, sides_next, sides_after};
ghost use Rattle.state_model.specs.Stated.{Stated, Service};
ghost use Rattle.state_model.specs.Accounts.{Account, Pick};
ghost use Rattle.state_model.specs.Tasks.{TaskTurn, IsTasked, AreServed, MayRun, mails_choices, accounts_next, accounts_after, new_tasks, run};
ghost use Rattle.state_model.specs.Promise.{PlanSession, OfEach, TasksPromised, TasksRestIf, TasksAnswered};
ghost use Rattle.state_model.specs.Steady.{AsksNoInit, IsSteady};
ghost use Rattle.state_model.specs.Books.{TasksPast, TasksEndedIf, TasksDoneIf};

/// What such a session promises of each slave of its plan that answers to its station, with the master's side and account of it, the slave and
/// the frames as they have come to be.
pub fn tasks_law<V, A, M, Q, R>()
    // The slave has carried out just the first of the services that came into hand, by mails and AL states, each once and in order; each answer
    // is the one that the table of completed services gives for the news of the slave, and is its application's, in the AL state that stood.
    ensures promised { (w : PlanSession V A M Q R) (more : M → Bool) →
        OfEach w (λ station start d a n. TasksPromised w.exchange w.states (w.table station) more w.frames station start d a n) }

    // What a book takes from the master's side and its account of a slave is what the record gives: its services by mails are the rows of the
    // side, with the record's answers, and its state services those that are over, with the record's outcomes, and behind them the one in hand.
    ensures answered { (w : PlanSession V A M Q R) (more : M → Bool) →
        OfEach w (λ station start d a n. TasksAnswered w.exchange w.states (w.table station) more w.frames station start d a n) }

    // A service that ends with its last write, as a packet, is complete by the record exactly where its row is over.
    ensures handed { (w : PlanSession V A M Q R) (more : M → Bool) → OfEach w (λ station start d a n. HandedBy w.exchange more w.frames station start d n) }

    // The halves know the counters of the record, so a master can tell the news of a frame by its own state.
    ensures counters { (w : PlanSession V A M Q R) → OfEach w (λ station start d a n. KnowsCounters w.frames station start d n) }

    // Only the newest service of a slave, by mails or of an AL state, can be in doubt, and none where nothing is in hand.
    ensures in_doubt { (w : PlanSession V A M Q R) (more : M → Bool) → OfEach w (λ station start d a n. TasksPast w.exchange more w.frames station start d a n) }
    ensures none_in_doubt { (w : PlanSession V A M Q R) (more : M → Bool) → OfEach w (λ station start d a n. TasksEndedIf w.exchange more w.frames station start d a n) }

    // Where a slave is settled and the master wants nothing of it, all its services are carried out, each has its outcome, and all emissions
    // were heard.
    ensures rests { (w : PlanSession V A M Q R) (more : M → Bool) →
        OfEach w (λ station start d a n. TasksRestIf w.exchange w.states (w.table station) more w.frames station start d a n) }

    // And all is done where besides all its scripted services, here by its station, have begun.
    ensures done { (w : PlanSession V A M Q R) (more : M → Bool) (scripted : ℕ → List (Service Q)) →
        OfEach w (λ station start d a n. TasksDoneIf w.exchange w.states (w.table station) more scripted w.frames station start d a n) }

    // The AL state of a slave that is open isn't Init, and no control word that waits asks for Init, while no state service asks for it.
    ensures steady { (w : PlanSession V A M Q R) → OfEach w (λ station start d a n. AsksNoInit w.states (w.exchange.app start) a → IsSteady n) }

    // The mails of such a session are a session of `segment_model`, so what that says of frames, replay and record holds of it.
    ensures mails { (x : Exchange V A M Q R) (s : Stated V A Q) (processor : Processor V) (ps : List (Planned V)) (ds : List (ℕ × Side M Q R)) (accounts : List (Account Q R)) (ns : Ring V M) (fs : List (Frame M)) →
        IsTasked x s.acknowledged processor ps ds accounts ns fs → IsBound x processor ps ds ns fs }
{}

/// A master and a ring that meet in frames alone are such a session: what each of them has to keep.
pub fn tasks_split_law<V, A, M, Q, R>()
    // It begins behind the frames of bring-up, which access no mailbox.
    ensures begins { (x : Exchange V A M Q R) (acknowledged : Q → Bool) (processor : Processor V) (ps : List (Planned V)) (opening : List (Frame M)) → IsOpening opening →
        let new = new_tasks {Q = Q} {R = R} opening ps in IsTasked x acknowledged processor ps (sides_of new.session.seats) new.accounts (ring_of new.session.seats) opening }

    // The master's sides and accounts go on by its choices and by what came back or was lost, the ring by the frame, its fate and its steps.
    ensures steps { (x : Exchange V A M Q R) (acknowledged : Q → Bool) (processor : Processor V) (ps : List (Planned V)) (ds : List (ℕ × Side M Q R)) (accounts : List (Account Q R)) (ns : Ring V M) (fs : List (Frame M)) →
        IsTasked x acknowledged processor ps ds accounts ns fs → (picks : List (Pick Q)) (m : Move M) →
        let asked = sides_next x.speech (length fs) ds (mails_choices accounts picks) in let counted = accounts_next x.speech acknowledged (length fs) ds accounts picks in
        IsFrameOf asked m.sent → AreServed asked counted m.sent →
        IsTasked x acknowledged processor ps (sides_after x.speech (length fs) m.sent m.fate (ring_back ns m.sent m.fate) asked) (accounts_after (length fs) asked counted m.fate (ring_back ns m.sent m.fate))
        (ring_steps x processor (ring_after ns m.sent m.fate) m.steps) (fs ++ frame_of ns m ∷ []) }

    // And each run of such a session is such a meeting.
    ensures runs { (x : Exchange V A M Q R) (acknowledged : Q → Bool) (processor : Processor V) (ps : List (Planned V)) (opening : List (Frame M)) → IsOpening opening → (ts : List (TaskTurn M Q)) →
        let new = new_tasks {Q = Q} {R = R} opening ps in MayRun x acknowledged processor new ts → let w = run x acknowledged processor new ts in
        IsTasked x acknowledged processor ps (sides_of w.session.seats) w.accounts (ring_of w.session.seats) w.session.frames }
{}
