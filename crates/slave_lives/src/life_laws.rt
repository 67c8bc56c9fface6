//! What a ring's frames make of its slaves' lives.

ghost use Rattle.std.specs.Prelude.{◌≡◌, ◌<◌, ◌≤◌, ◌==◌, ◌⊎◌, ◌+◌, ◌∷◌, ◌++◌, ℕ, [], suc, Bool, true, false, List, Option, None, length};
ghost use Rattle.frames_seen.specs.of_datagrams.Datagram as Raw;
ghost use Rattle.frames_seen.specs.of_slave_node.Passing.{datagrams_after};
ghost use Rattle.frames_seen.specs.of_frame_view.View.{Lens};
ghost use Rattle.frames_seen.specs.of_frame_view.Seen.{datagrams_seen};
ghost use Rattle.frames_seen.specs.of_esc_registers.declared.registers.Registers.{Registers};
ghost use Rattle.frames_seen.specs.Own.{own_seen, NoneMeant};
ghost use Rattle.frames_seen.specs.Ring.{all_after, AllApart};
ghost use Rattle.frames_seen.specs.of_life_model.Lives.{Spot, Era, Opening, Stand, Life, opening_back};
ghost use Rattle.frames_seen.specs.of_life_model.Eras.{Eras, Clearing};
ghost use Rattle.frames_seen.specs.of_life_model.Own.{own};
ghost use Rattle.frames_seen.specs.of_link_mails.Body.{Body};
ghost use Rattle.frames_seen.specs.of_segment_model.Record.{Frame, News};
ghost use Rattle.frames_seen.specs.of_segment_model.Slaves.{Found};
ghost use Rattle.slave_lives.specs.Lived.{Behind, IsBehind, RingFrame, OpenFrame, LivedOn, StandsBehind, node_behind, OpensEra, BegunEra, ClosedFrame, AccessBack, IsForOpen, LivesEra, table_of, frame_of};
ghost use Rattle.slave_lives.specs.Ends.{LeftEra, LeftEras, ClearsAs, YetFrame};
ghost use Rattle.slave_lives.specs.Nodes.{stepped};
ghost use Rattle.slave_lives.specs.Opening.{Plan, IsPlan, IsOpened, AtMostOne, JustOne};
ghost use Rattle.slave_lives.specs.Returning.{IsTurn};
ghost use Rattle.slave_lives.specs.Rings.{met, come_to};
ghost use Rattle.slave_lives.specs.Seats.{Seat, AllSeats, AreDistinct, AllCome, AllMeet, MeetsOne, nodes_of};
ghost use Rattle.slave_lives.specs.Stands.{turn_of, IsClosed, IsUp, ClosedAs, CameBack, Closing, MayStep, OpenUp, first_opening, opening_again};
ghost use Rattle.slave_lives.specs.Ways.{OneOnWay, JustOnWay, AllNotFor, ComesBack};
ghost use Rattle.frames_seen.specs.of_slave_node.Node.{Node, new_node};
ghost use Rattle.frames_seen.specs.of_state_model.Stated.{IsStated};
ghost use Rattle.slave_lives.specs.Steps.{Running};
ghost use Rattle.frames_seen.specs.of_state_model.Accounts.{Pick};

/// A slave's own datagrams among those of a frame are the same of octets and as data.
pub fn own_law()
    ensures { (lens : ℕ → Lens) (station : ℕ) (ds : List Raw.Datagram) → own station (datagrams_seen lens ds) ≡ own_seen lens station ds }
{}

/// A CLOSED SLAVE'S LIFE IS LIVED BY ITS NODE, as the table of openings has it: it begins with a slave as it is switched on, with an open slave
/// that met the first access of a reopening, and with one that an opening left which was given up. A frame leaves what is known, whether it meets
/// the slave or not; behind one that met it and came back the life is where its opening goes by what the access found; and a step leaves it.
/// Where the last access showed the state, the slave is open.
pub fn closed_life_law<S, M, Q, R>()
    ensures begins { (u : Running S) (boot : Bool) (lens : ℕ → Lens) (p : Plan) (s : S) → u.clear s ≡ s → u.next s ≡ None → IsClosed u boot lens p (first_opening p.start) (new_node p.out p.back boot s) }
    ensures freezes { (u : Running S) (boot : Bool) (lens : ℕ → Lens) (p : Plan) (o : Opening) (n : Node S) (ds : List Raw.Datagram) → OpenUp lens p n.registers → o.again ≡ true → (o.step ≡ 1) ⊎ (o.step ≡ 2) →
        JustOne p 1 n.registers ds → IsClosed u boot lens p o (met true n ds) }
    ensures left { (u : Running S) (boot : Bool) (lens : ℕ → Lens) (p : Plan) (o : Opening) (n : Node S) (start : ℕ) (own : Bool) → Closing u boot lens p o n → IsClosed u boot lens (record p { start = start }) (opening_again start own) n }
    ensures stays { (u : Running S) (boot : Bool) (lens : ℕ → Lens) (p : Plan) (o : Opening) (n : Node S) (is : Bool) (ds : List Raw.Datagram) → Closing u boot lens p o n → AtMostOne p (turn_of o) n.registers ds → IsClosed u boot lens p o (met is n ds) }
    ensures goes { (u : Running S) (boot : Bool) (lens : ℕ → Lens) (p : Plan) (o : Opening) (n : Node S) (ds : List Raw.Datagram) (d : Raw.Datagram) (frame : ℕ) (l : Life M Q R) (done : Bool) (found : Option Found) →
        Closing u boot lens p o n → l.stand ≡ Stand.Opens o → JustOne p (turn_of o) n.registers ds → CameBack lens p (turn_of o) n.registers d done found → ClosedAs u boot lens p (opening_back frame l o done found).stand (met true n ds) }
    ensures steps { (u : Running S) (boot : Bool) (lens : ℕ → Lens) (p : Plan) (o : Opening) (n : Node S) → Closing u boot lens p o n → MayStep u boot n → IsClosed u boot lens p o (stepped u n) }
    ensures up { (u : Running S) (boot : Bool) (lens : ℕ → Lens) (p : Plan) (n : Node S) → IsPlan boot lens p → MayStep u boot n → IsUp u p n → IsUp u p (stepped u n) }
    ensures opens { (u : Running S) (boot : Bool) (lens : ℕ → Lens) (p : Plan) (n : Node S) → IsPlan boot lens p → IsUp u p n → IsOpened lens p n.registers n.kept n.server × (u.next n.server ≡ None) }
{}

/// A frame of the master comes to a closed slave past others that are apart, as one in which at most the access in hand means it: that access
/// where the frame has it, and nothing where it hasn't.
pub fn closed_way_law<S>()
    ensures just { (p : Plan) (n place behind : ℕ) (rs : List Registers) (ds : List Raw.Datagram) → IsTurn n → place < 16 → behind + length rs ≤ place → AllApart p.station rs ds → JustOnWay p n place behind ds →
        JustOnWay p n place (behind + length rs) (all_after rs ds) }
    ensures comes { (u : Running S) (boot : Bool) (lens : ℕ → Lens) (p : Plan) (o : Opening) (n : Node S) (place : ℕ) (ds : List Raw.Datagram) → place < 16 → Closing u boot lens p o n → OneOnWay p (turn_of o) place place ds → AtMostOne p (turn_of o) n.registers ds }
    ensures meets { (u : Running S) (boot : Bool) (lens : ℕ → Lens) (p : Plan) (o : Opening) (n : Node S) (place : ℕ) (ds : List Raw.Datagram) → place < 16 → Closing u boot lens p o n → JustOnWay p (turn_of o) place place ds → JustOne p (turn_of o) n.registers ds }
    ensures none { (u : Running S) (boot : Bool) (lens : ℕ → Lens) (p : Plan) (o : Opening) (n : Node S) (place : ℕ) (ds : List Raw.Datagram) → place < 16 → Closing u boot lens p o n → AllNotFor p place place ds → NoneMeant n.registers ds }
{}

/// The access of an opening comes back from its slave as the slave made it: the slaves behind it, apart from its station, leave it.
pub fn access_law()
    ensures { (lens : ℕ → Lens) (p : Plan) (n : ℕ) (r : Registers) (rs : List Registers) (ds : List Raw.Datagram) → IsTurn n → length rs < 16 → AllApart p.station rs (datagrams_after r ds) → JustOne p n r ds → ComesBack lens p n r ds (all_after rs (datagrams_after r ds)) }
{}

/// An epoch begins with the slave as its opening leaves it, behind the frame that showed the state and the step that follows: both mailboxes
/// empty, its server told the state.
pub fn begin_law<S, V, A, Q, R>()
    ensures { (w : Behind S V A Q R) → IsBehind w → IsStated w.exchange w.states → ((state : ℕ) (v : V) → w.processor.tell state v ≡ w.states.tell state v) → (p : Plan) (spot : Spot) (al : ℕ) (cleared : Option ℕ) (opened : ℕ) (fs : List (Frame Body)) (n : Node S) →
        length fs ≡ suc opened → (cleared ≡ None → p.start ≡ spot.start) → OpensEra w p spot n → BegunEra w p spot al cleared opened fs n }
{}

/// AN OPEN SLAVE'S LIFE IS LIVED BY ITS NODE: by each frame of octets that the ring exchanges, met by all slaves or by the first of them, and by
/// the step behind it, the epoch goes on as the master has it, and the node at the slave's place is the slave of it.
pub fn open_life_law<S, V, A, Q, R>()
    ensures stands { (u : Running S) (t : RingFrame S) → StandsBehind u t (node_behind u t) }
    ensures lives { (w : Behind S V A Q R) → IsBehind w → (more : Body → Bool) (passed : Q → Bool) (spot : Spot) (from : A) (e : Era Body Q R) (fs : List (Frame Body)) (t : RingFrame S) (pick : Pick Q) (news : List (News Body)) →
        OpenFrame w more passed spot from e fs t pick → LivedOn w more passed spot from e fs t pick news }
{}

/// A CLOSED SLAVE'S LIFE by each frame of octets that the ring exchanges, met or not, and by the step behind it: what is known of its node
/// stays, and where the access came back the life is where its opening goes by what that found.
pub fn closed_frame_law<S, M, Q, R>()
    ensures stays { (u : Running S) (boot : Bool) (lens : ℕ → Lens) (p : Plan) (o : Opening) (t : RingFrame S) → ClosedFrame u boot lens p o t → IsClosed u boot lens p o (node_behind u t) }
    ensures goes { (u : Running S) (boot : Bool) (lens : ℕ → Lens) (p : Plan) (o : Opening) (t : RingFrame S) (d : Raw.Datagram) (frame : ℕ) (l : Life M Q R) (done : Bool) (found : Option Found) →
        ClosedFrame u boot lens p o t → l.stand ≡ Stand.Opens o → AccessBack lens p o t d done found → ClosedAs u boot lens p (opening_back frame l o done found).stand (node_behind u t) }
{}

/// ONE FRAME OF THE MASTER AND ALL SLAVES OF A RING, each with its own services: sent so that it has for each what its stand allows, it comes to
/// each so, past the others, which it leaves alone: to an open slave as a frame that is for it alone, and to a closed one with at most its access.
pub fn seats_law<S>()
    ensures meets { (lens : ℕ → Lens) (ss : List (Seat S)) (ds : List Raw.Datagram) → length ss < 17 → AreDistinct ss → AllSeats lens ss → AllCome 0 0 ss ds → AllMeet ss ds }
    ensures each { (before : List (Seat S)) (s : Seat S) (behind : List (Seat S)) (ds : List Raw.Datagram) → AllMeet (before ++ s ∷ behind) ds → MeetsOne s (come_to (nodes_of before) ds) }
    ensures opens { (before : List (Seat S)) (s : Seat S) (behind : List (Seat S)) (ds : List Raw.Datagram) → s.stand ≡ Stand.Open → s.node.registers.station ≡ s.plan.station → (0 == s.plan.station) ≡ false →
        AreDistinct (before ++ s ∷ behind) → AllMeet (before ++ s ∷ behind) ds → IsForOpen (nodes_of before) s.node (nodes_of behind) ds }
{}

/// A SLAVE WHOSE REOPENING HAS BEGUN lives its epoch yet, as long as the frames don't reach it with that: a frame without datagrams of its own
/// leaves the master's view of the epoch, and the node lives it on.
pub fn yet_law<S, V, A, Q, R>()
    ensures { (w : Behind S V A Q R) → IsBehind w → (spot : Spot) (from : A) (e : Era Body Q R) (fs : List (Frame Body)) (t : RingFrame S) → YetFrame w spot from e fs t → LivesEra w spot from e (fs ++ frame_of w.lens t ∷ []) (node_behind w.running t) }
{}

/// AN EPOCH IS OVER where its slave meets what returns it to Init: it left the server that its node has, stays over as frames follow, and the
/// server behind the return has that application, cleared. All that are over are epochs as the model has them, one behind the other.
pub fn end_law<S, V, A, Q, R>()
    ensures ends { (w : Behind S V A Q R) (spot : Spot) (from : A) (e : Era Body Q R) (fs : List (Frame Body)) (n : Node S) → LivesEra w spot from e fs n → LeftEra w spot from e fs n.server }
    ensures stays { (w : Behind S V A Q R) (spot : Spot) (from : A) (e : Era Body Q R) (fs gs : List (Frame Body)) (s : S) → LeftEra w spot from e fs s → LeftEra w spot from e (fs ++ gs) s }
    ensures all_stay { (w : Behind S V A Q R) (cleared : A → A) (spot : Spot) (fs gs : List (Frame Body)) (a : A) (es : List (Era Body Q R)) (b : A) → LeftEras w cleared spot fs a es b → LeftEras w cleared spot (fs ++ gs) a es b }
    ensures chain { (w : Behind S V A Q R) (cleared : A → A) (spot : Spot) (fs : List (Frame Body)) (a : A) (es : List (Era Body Q R)) (b : A) → LeftEras w cleared spot fs a es b →
        Eras w.exchange w.states w.processor (table_of w) cleared spot fs a es b }
    ensures clears { (w : Behind S V A Q R) (c : Clearing V A) → ClearsAs w c → (al : ℕ) (s : S) → w.exchange.app (w.sees al (w.running.clear s)).server ≡ c.cleared (w.exchange.app (w.sees al s).server) }
{}
