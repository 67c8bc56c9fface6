//! AL states beside mails: the state services of a slave, their place among its services by mails, and what is done of them; both as one exchange;
//! and sessions of both, over a ring of slaves and its frames as data. Definitions and laws, no running code: the functions here do nothing, and
//! their contracts state the laws.
#![tactic(auto)]

pub mod state_exchange;
pub mod task_model;

ghost use Rattle.std.specs.Prelude.{◌≡◌, ◌≤◌, ◌+◌, ◌-◌, ℕ, suc, Bool, true, false, Option, Some, None, List, [], ◌∷◌, ◌++◌, length, take};
ghost use Rattle.segment_model.specs.of_exchange_model.Prefix.{IsPrefixOf};
ghost use Rattle.segment_model.specs.of_exchange_model.Exchange.{Exchange, IsLawful, after};
ghost use Rattle.segment_model.specs.of_exchange_model.Rows.{Row, Fits};
ghost use Rattle.segment_model.specs.of_exchange_model.Laws.{Moment};
ghost use Rattle.segment_model.specs.of_link_model.Link.{Link};
ghost use Rattle.segment_model.specs.of_link_model.Agree.{Agrees};
ghost use Rattle.segment_model.specs.Slaves.{Registers, Slave, Datagram, Access, Found, Processor, is_meant, datagram_meets, slave_after, slave_steps};
ghost use Rattle.segment_model.specs.Ends.{Task, state_ends};
ghost use Rattle.segment_model.specs.Record.{News};
ghost use Rattle.segment_model.specs.Seats.{is_over};
ghost use Rattle.state_model.specs.States.{Table, Event, carry, word_met, run, new_states};
ghost use Rattle.state_model.specs.Promises.{IsTable, StatesPromised, statuses};
ghost use Rattle.state_model.specs.Order.{Begun, count_of, done, services_of, Scripted, tasks_of, weighed, servers_behind, EachOne, IsQuiet};
ghost use Rattle.state_model.specs.Met.{Writes};

/// What state services promise, whatever frames are lost and however slow the slave's processor is. The AL state is the one behind the closed
/// services, or with one in hand that or its target's; a refusal leaves it. The error flag stands for a refusal of the service in hand alone, with
/// the table's code, and is gone when the service is closed. Each answer is what the slave's table says, and what the statuses read for it
/// complete.
pub fn states_law<M, R>()
    ensures promised { (table : Table) (start : ℕ) → IsTable table start → (r : Registers) (es : List Event) → StatesPromised table start (run table (new_states {M = M} {R = R} r start) es) }

    // Of the news that the record has of a slave, the statuses alone complete a state service.
    ensures statuses { (target : ℕ) (refusal : Option ℕ) (ns : List (News M)) → state_ends {R = R} target refusal ns ≡ state_ends target refusal (statuses ns) }
{}

/// What frames and steps do to the registers of a slave: the events of state services.
pub fn register_law<V, A, M, Q, R>()
    // A slave that meets a frame with the control word of a state service has that word in its register, and all else as it was.
    ensures written { (station : ℕ) (s : Slave V M) (word : Option (ℕ × Bool)) (ds : List (Datagram M)) → Writes s.registers word ds → (slave_after station s ds).registers ≡ word_met s.registers word }

    // A read of the status shows state and error flag as they stand, and a slave that isn't meant leaves what it shows.
    ensures status { (station : ℕ) (s : Slave V M) (d : Datagram M) → d.access ≡ Access.ReadState → is_meant s.registers d.address ≡ true →
        ((datagram_meets station s d).found ≡ Some (Found.State s.registers.state s.registers.refused)) × ((datagram_meets station s d).counter ≡ suc d.counter) }
    ensures kept { (station : ℕ) (s : Slave V M) (d : Datagram M) → is_meant s.registers d.address ≡ false →
        ((datagram_meets station s d).found ≡ d.found) × ((datagram_meets station s d).counter ≡ d.counter) }

    // A step of a processor that carries out words by the table does so beside its mailboxes, whatever it tells its server.
    ensures steps { (x : Exchange V A M Q R) (processor : Processor V) (table : Table) (s : Slave V M) → processor.carry s.registers ≡ carry table s.registers → (slave_steps x processor s).registers ≡ carry table s.registers }
{}

/// The drain: a state service begins to change the state only where the slave has carried out all services by mails before it.
pub fn drain_law<V, A, M, Q, R, S>()
    // A status of mailbox 0 that shows it empty comes from an empty mailbox 0.
    ensures seen { (station : ℕ) (s : Slave V M) (d : Datagram M) → d.access ≡ Access.ReadFull → is_meant s.registers d.address ≡ true → (datagram_meets station s d).found ≡ Some (Found.Full false) → s.node.out.box ≡ None }

    // With the newest row over and mailbox 0 empty, the server has carried out the services of all rows. A mail of an answered row may still be
    // held: it is a repeat.
    ensures drained { (x : Exchange V A M Q R) → IsLawful x → (v : V) → x.ready v ≡ true → (front last : List (Row M Q R)) (now : Row M Q R) (w : Link M S) → Agrees w →
        Moment x v front last now w.held w.taken w.accepted → (fresh : Bool) → is_over x.speech w.halves.out.holding fresh now ≡ true → w.node.out.box ≡ None →
        x.handled (after x.serve v w.taken) ≡ x.handled v + length (front ++ last ++ now ∷ []) }

    // With the newest row over all but one are carried out, so a state service may come into hand.
    ensures few { (x : Exchange V A M Q R) → IsLawful x → (v : V) → x.ready v ≡ true → (front last : List (Row M Q R)) (now : Row M Q R) (w : Link M S) → Agrees w →
        Moment x v front last now w.held w.taken w.accepted → (fresh : Bool) → is_over x.speech w.halves.out.holding fresh now ≡ true →
        x.handled v + length (front ++ last ++ now ∷ []) ≤ x.handled (after x.serve v w.taken) + 1 }

    // A drained slave stays so, whatever the server takes, while no further row begins.
    ensures stays { (x : Exchange V A M Q R) → IsLawful x → (v : V) (rows : List (Row M Q R)) (taken more accepted : List M) → x.handled (after x.serve v taken) ≡ x.handled v + length rows →
        Fits x v rows (after x.serve v (taken ++ more)) accepted → x.handled (after x.serve v (taken ++ more)) ≡ x.handled v + length rows }
{}

/// What is done of all that came into hand: the longest first part of it of which just so many count as the slave has carried out.
pub fn done_law<M, Q>()
    ensures first { (k : ℕ) (bs : List (Begun M Q)) → IsPrefixOf (done k bs) bs }
    ensures counts { (k : ℕ) (bs : List (Begun M Q)) → k ≤ count_of bs → count_of (done k bs) ≡ k }
    ensures longest { (k : ℕ) (bs p : List (Begun M Q)) → IsPrefixOf p bs → count_of p ≡ k → IsPrefixOf p (done k bs) }

    // All that stands before the last one counted is in its place, state services too.
    ensures places { (k : ℕ) (front back : List (Begun M Q)) → count_of front ≤ k → done k (front ++ back) ≡ front ++ done (k - count_of front) back }

    // Of scripted tasks it has just the first services by mails.
    ensures services { (k : ℕ) (bs : List (Begun M Q)) → Scripted bs → services_of (done k bs) ≡ take k (services_of bs) }
{}

/// A serving: mails that are passed on count where the server counts one more for them.
pub fn serving_law<V, A, M, Q, R>()
    ensures counts { (x : Exchange V A M Q R) (v : V) (ts : List (Task M Q)) → EachOne x v ts → x.handled (servers_behind x v ts) ≡ x.handled v + count_of (weighed x v ts) }

    // A server that has seen a first part of the tasks has the application of the fold over what is done: tasks of what is done that it has
    // not seen yet count nothing, and leave the application.
    ensures fits { (x : Exchange V A M Q R) → IsLawful x → IsQuiet x → (v : V) (ts us : List (Task M Q)) →
        x.app (servers_behind x v ts) ≡ x.app (servers_behind x v (tasks_of (done (count_of (weighed x v ts)) (weighed x v (ts ++ us))))) }
{}
