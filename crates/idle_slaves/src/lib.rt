//! Slaves that were visited in vain: of which nothing is left to gain. Definitions and laws, no running code: the functions here do nothing, and their
//! contracts state the laws.
#![tactic(auto)]

ghost use Rattle.plan_ring.specs.of_exchange_model.Exchange.{Exchange, Speech, IsLawful, given, plain};
ghost use Rattle.plan_ring.specs.of_exchange_model.Laws.{Moment};
ghost use Rattle.plan_ring.specs.of_exchange_model.Rows.{Row, answer_after, left};
ghost use Rattle.plan_ring.specs.of_frame_view.View.{Lens};
ghost use Rattle.idle_slaves.specs.Frames.{InVain, node_on, memory_on};
ghost use Rattle.idle_slaves.specs.Going.{Going, AccessVain, registers_on};
ghost use Rattle.idle_slaves.specs.Links.{HasLink};
ghost use Rattle.idle_slaves.specs.Phases.{IsSeen, HandSeen, TakesOn, Rests, idle_states};
ghost use Rattle.idle_slaves.specs.Rings.{Kept, AllVain, AllStay, AllSpent};
ghost use Rattle.idle_slaves.specs.Rows.{NeverWaits};
ghost use Rattle.idle_slaves.specs.Runs.{VainIn};
ghost use Rattle.idle_slaves.specs.Visited.{Waiting, Shows, Chosen, CameBack, HasRow, IsStill, IsUnpaused, LifeSpent, IsLeft, life_visit, memory_of};
ghost use Rattle.idle_slaves.specs.Waiting.{Wanted, Memory, Coming, MayCome, IsVain, IsWaiting, IsSpent, IsIdle, memory_behind, tried};
ghost use Rattle.plan_ring.specs.of_life_model.Gains.{gains};
ghost use Rattle.plan_ring.specs.of_life_model.Repairs.{way_of};
ghost use Rattle.plan_ring.specs.of_life_model.Eras.{EraIs};
ghost use Rattle.plan_ring.specs.of_life_model.Lives.{Life, Spot, Era, life_next, life_back};
ghost use Rattle.plan_ring.specs.of_life_model.Own.{own};
ghost use Rattle.plan_ring.specs.of_life_runs.Led.{Exchanged, Leads};
ghost use Rattle.plan_ring.specs.of_link_mails.Body.{Body};
ghost use Rattle.plan_ring.specs.of_link_model.Agree.{Agrees};
ghost use Rattle.plan_ring.specs.of_link_model.Frames.{node_meets};
ghost use Rattle.plan_ring.specs.of_link_model.Link.{Link};
ghost use Rattle.plan_ring.specs.of_link_model.Slave.{Node, Server, processor_step};
ghost use Rattle.plan_ring.specs.of_master_duty.Reply.{Reply};
ghost use Rattle.plan_ring.specs.of_master_hand.Spoken.{Asked};
ghost use Rattle.plan_ring.specs.of_run_frames.Clocks.{Clocked};
ghost use Rattle.plan_ring.specs.of_run_frames.Goes.{Under, back_life, all_back};
ghost use Rattle.plan_ring.specs.of_run_frames.Runs.{Progress};
ghost use Rattle.plan_ring.specs.of_run_frames.Toured.{IsToured, WaitIn};
ghost use Rattle.plan_ring.specs.of_run_frames.Waits.{Waits, new_waits, waits_on, all_on, SomeWaits};
ghost use Rattle.plan_ring.specs.of_segment_model.Record.{Frame, News};
ghost use Rattle.plan_ring.specs.of_segment_model.Seats.{is_over};
ghost use Rattle.plan_ring.specs.of_segment_model.Slaves.{Processor, Slave, serving, Datagram, Found, Registers};
ghost use Rattle.plan_ring.specs.of_state_model.Stated.{Stated, IsStated};
ghost use Rattle.plan_ring.specs.of_state_model.Promises.{IsTable};
ghost use Rattle.plan_ring.specs.of_state_model.States.{Table, Phase, Event, run, carry};
ghost use Rattle.std.specs.Prelude.{◌≡◌, ◌≤◌, ◌⊎◌, ℕ, true, false, Bool, Option, None, List, []};
ghost use Rattle.plan_ring.specs.of_state_model.Accounts.{Pick};

pub mod asked_waits;
pub mod eager_slaves;
pub mod entered_runs;
pub mod held_visits;
pub mod states_come;
pub mod wait_runs;

/// A SLAVE THAT WAS VISITED TWICE IN VAIN behind a step of its processor, since something was gained last, is spent: no mail is held for it, both mailboxes
/// are empty, it has nothing to offer, and no state service drains.
pub fn waiting_law<B, S>()
    ensures spent { (v : Server B S) (w : Link B S) (q : Wanted) (m : Memory) (t : Waits) → IsWaiting v w q m t → 2 ≤ t.tries → IsSpent v w × (q ≡ Wanted.Mails) }
    // It was so before the second of these visits, with which nothing came into hand.
    ensures idle { (v : Server B S) (w : Link B S) (q : Wanted) (m : Memory) (t : Waits) (c : Coming B) → IsWaiting v w q m t → 1 ≤ t.tries → MayCome c q m t w.halves.out.holding → IsVain v w q m c → IsIdle v w q c }
{}

/// BY EACH FRAME THAT CAME BACK AND GAINED NOTHING, and by which no mail that is passed on came a step on, an open slave waits on, with nothing in doubt and no
/// state service past its drain: where something came into hand with a visit, where the visit's datagram came back, where the frame had none for it, and by a
/// step of its processor.
pub fn frame_law<M, Q, R, S>()
    ensures comes { (v : Server M S) (x : Speech M Q R) (acknowledged : Q → Bool) (more : M → Bool) (passed : Q → Bool) (frame : ℕ) (l : Life M Q R) (n : Node M S) (m : Memory) (t : Waits) (pick : Pick Q) →
        Waiting v l n m t → IsUnpaused pick m t → Chosen v l (life_next x acknowledged more passed frame l l.stand pick) n m t }
    ensures visited { (v : Server M S) (x : Speech M Q R) (acknowledged : Q → Bool) (more : M → Bool) (passed : Q → Bool) (frame : ℕ) (spot : Spot) (news : List (News M)) (back : List (Datagram M)) (came : Option (Bool × Option Found)) (old l : Life M Q R) (n : Node M S) (m : Memory) (t : Waits) →
        Chosen v old l n m t → HasRow l n → let visit = life_visit l (memory_of old l m) in CameBack spot.station n l.era.side.halves visit back → let k = life_back x acknowledged more passed frame spot news back came l l.stand in gains k ≡ gains l →
        IsStill t.stepped n visit news l k → Waiting v k n (memory_behind (memory_of old l m) visit) (tried t) }
    // Such a visit leaves the slave as it was.
    ensures same { (v : Server M S) (x : Speech M Q R) (acknowledged : Q → Bool) (more : M → Bool) (passed : Q → Bool) (frame : ℕ) (spot : Spot) (news : List (News M)) (back : List (Datagram M)) (came : Option (Bool × Option Found)) (old l : Life M Q R) (n : Node M S) (m : Memory) (t : Waits) →
        Chosen v old l n m t → HasRow l n → let visit = life_visit l (memory_of old l m) in (b : CameBack spot.station n l.era.side.halves visit back) → let k = life_back x acknowledged more passed frame spot news back came l l.stand in gains k ≡ gains l →
        IsStill t.stepped n visit news l k → node_meets n b.datagram.gram.ask ≡ n }
    // Where it was the second one behind a step, the slave was spent before it, and with what came into hand.
    ensures idle { (v : Server M S) (x : Speech M Q R) (acknowledged : Q → Bool) (more : M → Bool) (passed : Q → Bool) (frame : ℕ) (spot : Spot) (news : List (News M)) (back : List (Datagram M)) (came : Option (Bool × Option Found)) (old l : Life M Q R) (n : Node M S) (m : Memory) (t : Waits) →
        Chosen v old l n m t → HasRow l n → let visit = life_visit l (memory_of old l m) in CameBack spot.station n l.era.side.halves visit back → let k = life_back x acknowledged more passed frame spot news back came l l.stand in gains k ≡ gains l →
        IsStill t.stepped n visit news l k → 1 ≤ t.tries → LifeSpent v old n × LifeSpent v l n }
    ensures passed { (v : Server M S) (x : Speech M Q R) (acknowledged : Q → Bool) (more : M → Bool) (passed : Q → Bool) (frame : ℕ) (spot : Spot) (news : List (News M)) (back : List (Datagram M)) (came : Option (Bool × Option Found)) (l : Life M Q R) (n : Node M S) (m : Memory) (t : Waits) →
        Waiting v l n m t → own spot.station back ≡ [] → let k = life_back x acknowledged more passed frame spot news back came l l.stand in k.era.passing ≡ l.era.passing → Waiting v k n m t }
    ensures steps { (v : Server M S) (l : Life M Q R) (n : Node M S) (m : Memory) (t : Waits) → Waiting v l n m t → Waiting v l (processor_step v n) m (record t { stepped = true }) }
    ensures spent { (v : Server M S) (l : Life M Q R) (n : Node M S) (m : Memory) (t : Waits) → Waiting v l n m t → 2 ≤ t.tries → LifeSpent v l n }
{}

/// AS A RUN'S FRAMES ARE COUNTED: an open slave waits on by each frame that came back with nothing gained, by the steps of its processor, and where it was
/// visited twice behind a step since something was gained, it was spent before the frame.
pub fn wait_law<M, Q, R, S>()
    ensures on { (v : Server M S) (x : Spot → Speech M Q R) (acknowledged : Q → Bool) (more : M → Bool) (passed : Q → Bool) (number : ℕ) (back : List (Datagram M)) (a : Clocked M Q R) (u : Under M Q R) (n : Node M S) (m : Memory) (t : Waits) →
        Waiting v a.life n m t → InVain x acknowledged more passed number back a u n m t → Waiting v (back_life x acknowledged more passed number back a u) (node_on v number a n) (memory_on a u m) (waits_on number a u t) }
    ensures spent { (v : Server M S) (x : Spot → Speech M Q R) (acknowledged : Q → Bool) (more : M → Bool) (passed : Q → Bool) (number : ℕ) (back : List (Datagram M)) (a : Clocked M Q R) (u : Under M Q R) (n : Node M S) (m : Memory) (t : Waits) →
        Waiting v a.life n m t → InVain x acknowledged more passed number back a u n m t → 2 ≤ (waits_on number a u t).tries → LifeSpent v a.life n }
{}

/// A SERVICE IN HAND IS OVER where nothing is left to tell, all that was held for it was taken and all that was given was heard, if its client never waits in
/// vain: so of a slave that is spent no service is in hand.
pub fn row_law<V, A, M, Q, R>()
    ensures { (x : Exchange V A M Q R) → IsLawful x → NeverWaits x → (v : V) → x.ready v ≡ true → (front last : List (Row M Q R)) (now : Row M Q R) (held taken accepted : List M) → Moment x v front last now held taken accepted →
        taken ≡ held → accepted ≡ given x.serve v taken → left x.speech now ≡ [] → ((frame : ℕ) → answer_after frame now.answer (x.speech.ends now.service (plain x.speech.emission now.heard)) ≡ now.answer) → is_over x.speech None false now ≡ true }
{}

/// BEHIND A STEP each visit takes a state service on that is past its drain, whatever came and was lost before: the status that it awaits stands, its target or
/// an error flag, or that the flag is gone.
pub fn phase_law<M, R>()
    ensures stands { (table : Table) (start : ℕ) → IsTable table start → (r : Registers) → Rests start r → (es : List Event) → let w = run table (idle_states {M = M} {R = R} r) es in HandSeen w.hand (carry table w.registers) }
    ensures gains { (target : ℕ) (phase : Phase) (r : Registers) → IsSeen target phase r → TakesOn R target phase r }
{}

/// A STATE SERVICE PAST ITS DRAIN IS NEVER VISITED IN VAIN behind a step, as a run's frames are counted, but where it returns its slave to Init: by each frame
/// that came back with nothing gained it goes on so.
pub fn going_law<M, Q, R>()
    ensures { (table : Table) (x : Spot → Speech M Q R) (acknowledged : Q → Bool) (more : M → Bool) (passed : Q → Bool) (number : ℕ) (back : List (Datagram M)) (a : Clocked M Q R) (u : Under M Q R) (r : Registers) (t : Waits) →
        (g : Going table a.life r t) → AccessVain x acknowledged more passed number back a u g.duty g.phase r → Going table (back_life x acknowledged more passed number back a u) (registers_on table number a r) (waits_on number a u t) }
{}

/// OF A RING SOME SLAVE WAITS YET behind a frame that came back and gained nothing, with nothing to repair; or each that wasn't given up for good was spent
/// before it. All stand so behind it as before.
pub fn ring_law<M, Q, R, S>()
    // Where something was gained, an open slave with nothing to repair begins to wait.
    ensures begins { (v : Server M S) (l : Life M Q R) (n : Node M S) (w : Link M S) (q : Wanted) (m : Memory) → Agrees w → Shows l n w q → way_of 1 1 l ≡ None → Waiting v l n m new_waits }
    ensures some { (x : Spot → Speech M Q R) (acknowledged : Q → Bool) (more : M → Bool) (passed : Q → Bool) (number : ℕ) (back : List (Datagram M)) (ss : List (Kept M S)) (clocked : List (Clocked M Q R)) (us : List (Under M Q R)) (ts : List Waits) →
        AllVain x acknowledged more passed number back ss clocked us ts → SomeWaits (all_back x acknowledged more passed number back clocked us) (all_on number clocked us ts) ⊎ AllSpent ss clocked }
    ensures stay { (x : Spot → Speech M Q R) (acknowledged : Q → Bool) (more : M → Bool) (passed : Q → Bool) (number : ℕ) (back : List (Datagram M)) (ss : List (Kept M S)) (clocked : List (Clocked M Q R)) (us : List (Under M Q R)) (ts : List Waits) →
        AllVain x acknowledged more passed number back ss clocked us ts → AllStay x acknowledged more passed number back ss clocked us ts }
{}

/// AN OPEN EPOCH HAS A LINK of its master's halves and its slave's mailboxes that agrees, so where nothing is in doubt its slave begins to wait.
pub fn link_law<V, A, M, Q, R>()
    ensures { (x : Exchange V A M Q R) (s : Stated V A Q) (processor : Processor V) (table : ℕ → Table) (spot : Spot) (e : Era M Q R) (opened last : ℕ) (fs : List (Frame M)) (v : V) (r : Registers) (slave : Slave V M) →
        IsLawful x → IsStated x s → EraIs x s processor table spot e opened last fs v r slave → HasLink e.side slave }
{}

/// WHAT COMES INTO HAND takes no service away: where a mail stands in mailbox 1, one has come into hand with it too.
pub fn choice_law<M, Q, R, S>()
    ensures { (x : Speech M Q R) (acknowledged : Q → Bool) (more : M → Bool) (passed : Q → Bool) (frame : ℕ) (l : Life M Q R) (pick : Pick Q) (n : Node M S) → HasRow l n → HasRow (life_next x acknowledged more passed frame l l.stand pick) n }
{}

/// A SLAVE THAT IS SPENT is settled, with nothing held and no state service in hand: so where besides its service by mails is over (`row_law`) its master wants
/// nothing of it.
pub fn left_law<V, A, M, Q, R>()
    ensures { (x : Exchange V A M Q R) (l : Life M Q R) (n : Slave V M) → LifeSpent (serving x) l n.node → IsLeft l n }
{}

/// SOME SLAVE WAITS YET behind each frame of a run that gained nothing, where each such frame was in vain of each slave and not each was spent before it: this is
/// what the count of a run's frames asks for (`WaitIn`).
pub fn wait_in_law<S>()
    ensures { (lens : ℕ → Lens) (recover retry slowest : ℕ) (first : List Leads) (paces : List ℕ) (fs : List Exchanged) (again : Option (List ℕ)) (missed : ℕ) (leads : List Leads) (p : Progress) (cs : List (Clocked Body Asked Reply)) →
        (run : IsToured lens recover retry slowest first paces fs again missed leads p cs) → VainIn S run → WaitIn run }
{}
