//! A write in vain and what comes into hand behind it: no state service does, with nothing gained since; and what is over of a slave that is spent. Definitions and
//! laws, no running code: the functions here do nothing, and their contracts state the laws.

ghost use Rattle.std.specs.Prelude.{◌≡◌, ℕ, Bool, Option, Some, None, List};
ghost use Rattle.plan_ring.specs.of_slave_model.Moments.{IsFree, HeldStill, NoneLeft, NowAnswered};
ghost use Rattle.plan_ring.specs.of_exchange_model.Exchange.{Exchange, Speech, IsLawful};
ghost use Rattle.idle_slaves.specs.Held.{HeldUp, EndsHeld, Took};
ghost use Rattle.idle_slaves.specs.Visited.{Chosen, CameBack, HasRow, IsStill, IsUnpaused, LifeSpent, life_visit, memory_of};
ghost use Rattle.idle_slaves.specs.Waiting.{Memory, memory_behind, tried};
ghost use Rattle.plan_ring.specs.of_life_model.Gains.{gains};
ghost use Rattle.plan_ring.specs.of_life_model.Eras.{EraIs};
ghost use Rattle.plan_ring.specs.of_life_model.Lives.{Life, Era, Spot, Stand, life_back, era_next};
ghost use Rattle.plan_ring.specs.of_link_model.Slave.{Node, Server};
ghost use Rattle.plan_ring.specs.Alike.{Alike, RowIs};
ghost use Rattle.plan_ring.specs.of_slave_model.Waits.{NeverWaits};
ghost use Rattle.plan_ring.specs.of_run_frames.Waits.{Waits};
ghost use Rattle.plan_ring.specs.of_segment_model.Record.{Frame, News};
ghost use Rattle.plan_ring.specs.of_segment_model.Seats.{side_back};
ghost use Rattle.plan_ring.specs.of_life_model.Own.{own};
ghost use Rattle.plan_ring.specs.of_segment_model.Slaves.{Datagram, Found, Processor, Registers, Slave, serving};
ghost use Rattle.plan_ring.specs.of_state_model.Stated.{Stated, IsStated, Service};
ghost use Rattle.plan_ring.specs.of_state_model.States.{Table};
ghost use Rattle.plan_ring.specs.of_state_model.Accounts.{Pick, starts};

/// WHERE A STATE SERVICE MIGHT BEGIN BEHIND A WRITE IN VAIN none is left, if so it is where it might at that write: visit by visit in vain. So none comes into
/// hand behind such a write with nothing gained since.
pub fn held_law<M, Q, R, S, L>()
    ensures visited { (v : Server M S) (x : Speech M Q R) (acknowledged : Q → Bool) (more : M → Bool) (passed : Q → Bool) (frame : ℕ) (spot : Spot) (news : List (News M)) (back : List (Datagram M)) (came : Option (Bool × Option Found)) (old l : Life M Q R) (n : Node M S) (m : Memory) (t : Waits) →
        Chosen v old l n m t → HasRow l n → let visit = life_visit l (memory_of old l m) in CameBack spot.station n l.era.side.halves visit back → let k = life_back x acknowledged more passed frame spot news back came l Stand.Open in gains k ≡ gains l →
        IsStill t.stepped n visit news l k → EndsHeld x acknowledged L spot.station back l k →
        HeldUp x acknowledged L k (memory_behind (memory_of old l m) visit) (tried t) }
    // The side behind a frame that came back is that of the slave's own datagrams.
    ensures side { (x : Speech M Q R) (acknowledged : Q → Bool) (more : M → Bool) (passed : Q → Bool) (frame : ℕ) (spot : Spot) (news : List (News M)) (back : List (Datagram M)) (came : Option (Bool × Option Found)) (l : Life M Q R) →
        (life_back x acknowledged more passed frame spot news back came l Stand.Open).era.side ≡ side_back x frame spot.station (own spot.station back) l.era.side }
    // The service that comes into hand is one that is left.
    ensures unpaused { (x : Speech M Q R) (acknowledged : Q → Bool) (more : M → Bool) (passed : Q → Bool) (frame : ℕ) (l : Life M Q R) (m : Memory) (t : Waits) (pick : Pick Q) → HeldUp x acknowledged L l m t →
        ((target : ℕ) → pick.begin ≡ Some (Service.State target) → ((era_next x acknowledged more passed frame l.era pick).account.started ≡ starts l.era.account (Service.State target) frame) × (L → ⊥)) → IsUnpaused pick m t }
{}

/// AT A WRITE IN VAIN, by its master's rule: where what may begin at a visit begins, and a state service might behind that write, none is left. The master may
/// speak otherwise than the slave's own client, as long as it speaks alike of the service in hand and of the one that it chose.
pub fn ends_law<V, A, M, Q, R, L>()
    ensures { (x : Exchange V A M Q R) (s : Stated V A Q) (processor : Processor V) (table : ℕ → Table) (spot : Spot) (e : Era M Q R) (opened last : ℕ) (fs : List (Frame M)) (v : V) (r : Registers) (slave : Slave V M) → IsLawful x → IsStated x s → EraIs x s processor table spot e opened last fs v r slave →
        (is : Q → Bool) (y : Speech M Q R) → Alike is y x.speech → RowIs is e.side.now → NowAnswered y e.side → (more : M → Bool) (passed : Q → Bool) (frame : ℕ) (pick : Pick Q) (station : ℕ) (back : List (Datagram M)) →
        (IsFree y s.acknowledged e.side → e.account.hand ≡ None → e.passing ≡ None → pick.begin ≡ None → L) → Took y s.acknowledged is more passed frame e pick →
        (let u = era_next y s.acknowledged more passed frame e pick in let k = side_back y frame station back u.side in u.account.hand ≡ None → u.passing ≡ None → HeldStill station back u.side k → IsFree y s.acknowledged k → L) }
{}

/// A SLAVE THAT IS SPENT, with nothing left to tell of its newest service: that service is over, as its master speaks of it.
pub fn spent_law<V, A, M, Q, R>()
    ensures { (x : Exchange V A M Q R) (s : Stated V A Q) (processor : Processor V) (table : ℕ → Table) (spot : Spot) (l : Life M Q R) (opened last : ℕ) (fs : List (Frame M)) (v : V) (r : Registers) (slave : Slave V M) → IsLawful x → IsStated x s → NeverWaits x → EraIs x s processor table spot l.era opened last fs v r slave →
        LifeSpent (serving x) l slave.node → (is : Q → Bool) (y : Speech M Q R) → Alike is y x.speech → RowIs is l.era.side.now → NowAnswered y l.era.side → NoneLeft y l.era.side → IsFree y s.acknowledged l.era.side }
{}
