//! An open slave's epoch as its master leads it, turn by turn, over its registers: mails may be passed on in it. A definition and laws, no running code: the
//! functions here do nothing, and their contracts state the laws.

ghost use Rattle.std.specs.Prelude.{◌≡◌, ◌∷◌, ◌++◌, ℕ, suc, Bool, true, Option, None, List, [], length};
ghost use Rattle.served_places.specs.of_exchange_model.Exchange.{Exchange};
ghost use Rattle.run_work.specs.of_frame_view.Seen.{seen};
ghost use Rattle.run_work.specs.of_frame_view.View.{Lens};
ghost use Rattle.served_places.specs.of_life_model.Eras.{EraIs, planned};
ghost use Rattle.served_places.specs.of_life_model.Lives.{Spot, Era};
ghost use Rattle.served_places.specs.of_life_model.Own.{AreSeen, own};
ghost use Rattle.served_places.specs.of_link_mails.Body.{Body};
ghost use Rattle.run_work.specs.of_few_replies.Led.{IsLed, AreSingle, counts_behind, turn_after};
ghost use Rattle.served_places.specs.of_segment_model.Record.{Frame};
ghost use Rattle.served_places.specs.of_segment_model.Slaves.{Registers, Processor, Slave};
ghost use Rattle.run_work.specs.of_slave_lives.Ends.{IsAnswered, no_pick};
ghost use Rattle.run_work.specs.of_slave_lives.Lived.{Behind, IsBehind, RingFrame, OpensEra, frame_of, node_behind, node_seen, opened_era};
ghost use Rattle.run_work.specs.of_slave_lives.Opening.{Plan};
ghost use Rattle.run_work.specs.of_slave_node.Node.{Node};
ghost use Rattle.served_places.specs.of_state_model.Stated.{Stated, IsStated};
ghost use Rattle.served_places.specs.of_state_model.States.{Table};
ghost use Rattle.served_places.specs.of_state_model.Accounts.{Pick};
ghost use Rattle.served_places.specs.of_state_model.Steady.{IsSteady, NoneToInit, HandToInit};
ghost use Rattle.served_places.specs.of_state_model.Tasks.{IsTaskPlan};
ghost use Rattle.served_rings.specs.Led.{LedEra, LedFrame, turn_of};

/// A DATAGRAM OF OCTETS accesses a mailbox or another register, not both; so each of a slave's own in any frame. And a mailbox is accessed only by the station
/// that the datagram is addressed to.
pub fn single_law()
    ensures single { (lens : ℕ → Lens) (octets : List ℕ) (station : ℕ) → AreSingle (own station (seen lens octets)) }
    ensures addressed { (lens : ℕ → Lens) (octets : List ℕ) → AreSeen (seen lens octets) }
{}

/// AN EPOCH THAT ITS MASTER LEADS IS A SESSION, of whatever exchange, from the server and the registers on with which it began.
pub fn session_law<V, A, M, Q, R>()
    ensures { (x : Exchange V A M Q R) (s : Stated V A Q) (processor : Processor V) (table : ℕ → Table) (more : M → Bool) (passed : Q → Bool) (spot : Spot) (opened : ℕ) (v : V) (r : Registers) → IsTaskPlan x s processor table (planned spot v r ∷ []) → r.station ≡ spot.station →
        (fs : List (Frame M)) (counts : Bool) (e : Era M Q R) (n : Slave V M) → IsLed x s.acknowledged processor more passed spot opened v r fs counts e n → EraIs x s processor table spot e opened (length fs) fs v r n }
{}

/// AN OPEN SLAVE'S EPOCH is led by its master and lived by its node: it begins with the slave as its opening left it; by each frame of octets that the ring
/// exchanges, and the step behind it, it goes on as its master leads it; and by one without datagrams of the slave, before which nothing comes into hand, it
/// stays as it is. Meanwhile the slave isn't in Init, as long as no state service asks for it.
pub fn led_law<S, V, A, Q, R>()
    ensures begins { (w : Behind S V A Q R) → IsBehind w → IsStated w.exchange w.states → ((state : ℕ) (v : V) → w.processor.tell state v ≡ w.states.tell state v) → (more : Body → Bool) (passed : Q → Bool) (p : Plan) (spot : Spot) (al : ℕ) (cleared : Option ℕ) (opened : ℕ)
        (fs : List (Frame Body)) (n : Node S) → length fs ≡ suc opened → (cleared ≡ None → p.start ≡ spot.start) → OpensEra w p spot n → LedEra w more passed spot (w.exchange.app (w.sees al n.server).server) true (opened_era {Q = Q} {R = R} cleared p.start opened) fs n }
    ensures on { (w : Behind S V A Q R) → IsBehind w → (more : Body → Bool) (passed : Q → Bool) (spot : Spot) (from : A) (counts : Bool) (e : Era Body Q R) (fs : List (Frame Body)) (t : RingFrame S) (l : LedEra w more passed spot from counts e fs t.node) (pick : Pick Q) →
        LedFrame w more passed spot e fs t pick → let u = turn_of w more passed spot t pick in
        LedEra w more passed spot from (counts_behind spot.station u.steps (own spot.station u.back) counts) (turn_after w.exchange w.states.acknowledged w.processor more passed spot l.opened fs counts e u) (fs ++ frame_of w.lens t ∷ []) (node_behind w.running t) }
    ensures stays { (w : Behind S V A Q R) → IsBehind w → (more : Body → Bool) (passed : Q → Bool) (spot : Spot) (from : A) (counts : Bool) (e : Era Body Q R) (fs : List (Frame Body)) (t : RingFrame S) (l : LedEra w more passed spot from counts e fs t.node) →
        LedFrame w more passed spot e fs t no_pick → let u = turn_of w more passed spot t no_pick in own spot.station u.sent ≡ [] → own spot.station u.back ≡ [] → IsAnswered w.exchange.speech e.side.now →
        turn_after w.exchange w.states.acknowledged w.processor more passed spot l.opened fs counts e u ≡ e }
    ensures steady { (w : Behind S V A Q R) → IsBehind w → (more : Body → Bool) (passed : Q → Bool) (spot : Spot) (from : A) (counts : Bool) (e : Era Body Q R) (fs : List (Frame Body)) (n : Node S) → LedEra w more passed spot from counts e fs n →
        NoneToInit e.account.over → HandToInit e.account.hand → IsSteady (node_seen w n) }
{}
