//! What a slave that is opened shows behind a step of its processor: the state that the access in hand awaits. No running code: the function here does
//! nothing, and its contract states the law.

ghost use Rattle.std.specs.Prelude.{◌≡◌, ◌==◌, ◌||◌, ◌&&◌, ℕ, suc, Bool, true, false, Option, List};
ghost use Rattle.frames_seen.specs.of_datagrams.Datagram as Raw;
ghost use Rattle.frames_seen.specs.of_frame_view.View.{Lens};
ghost use Rattle.frames_seen.specs.of_life_model.Repairs.{awaits_at, awaited};
ghost use Rattle.frames_seen.specs.of_life_model.Lives.{Opening, shows_clear, last_step, is_shown};
ghost use Rattle.frames_seen.specs.of_segment_model.Slaves.{Found, Datagram, Serving};
ghost use Rattle.frames_seen.specs.of_segment_ring.Ring.{is_in_pace};
ghost use Rattle.slave_lives.specs.Lived.{RingFrame, node_behind, ClosedFrame, AccessBack};
ghost use Rattle.frames_seen.specs.of_mailbox_slave.Registers.{in_len, request_of, acknowledge_of};
ghost use Rattle.slave_lives.specs.Nodes.{IsRunning, IsRoomy, stepped};
ghost use Rattle.slave_lives.specs.Returning.{Clears};
ghost use Rattle.slave_lives.specs.Opening.{Plan};
ghost use Rattle.slave_lives.specs.Stands.{Closing, MayStep, CameBack, turn_of};
ghost use Rattle.slave_lives.specs.Steps.{Running};
ghost use Rattle.frames_seen.specs.of_slave_node.Node.{Node};
ghost use Rattle.frames_seen.specs.of_esc_registers.declared.registers.Registers.{Registers};
ghost use Rattle.frames_seen.specs.of_slave_node.Passing.{registers_after};
ghost use Rattle.frames_seen.specs.Own.{own_seen};
ghost use Rattle.frames_seen.specs.Ring.{all_after, IsRingMet};
ghost use Rattle.frames_seen.specs.of_link_mails.Body.{Body};
ghost use Rattle.frames_seen.specs.of_link_model.Frames.{in_ask};
ghost use Rattle.frames_seen.specs.of_link_model.Master.{InState};
ghost use Rattle.frames_seen.specs.of_mailbox_slave.Kept.{Kept};
ghost use Rattle.slave_lives.specs.Asked.{IsOwn, ComesBack, NoRequest, SameBits};
ghost use Rattle.slave_lives.specs.Shown.{Shows, StandsFor};

/// BEHIND A STEP A SLAVE SHOWS WHAT ITS OPENING AWAITS, Init or the state that is opened: where the access that awaits it is in hand, the state stands or
/// its word waits; a frame, met or lost before the slave or behind it, leaves that; and a step carries the word out.
pub fn shown_law<S>()
    // A slave that is returned to Init, from whatever state it was in, while that is watched.
    ensures watched { (u : Running S) (boot : Bool) (lens : ℕ → Lens) (p : Plan) (o : Opening) (n : Node S) → Closing u boot lens p o n → o.again ≡ true → o.step ≡ 2 → StandsFor false o n.registers }
    ensures steps { (u : Running S) (boot : Bool) (lens : ℕ → Lens) (p : Plan) (o : Opening) (n : Node S) (before : Bool) → Closing u boot lens p o n → MayStep u boot n → StandsFor before o n.registers → StandsFor true o (stepped u n).registers }
    // By each frame of its ring and the step behind it, while the same access is in hand, and where it came back and the next one is.
    ensures stays { (u : Running S) (boot : Bool) (lens : ℕ → Lens) (p : Plan) (o : Opening) (t : RingFrame S) (before : Bool) → ClosedFrame u boot lens p o t → StandsFor before o t.node.registers →
        StandsFor (is_in_pace t.pace t.ring.number || before) o (node_behind u t).registers }
    ensures goes { (u : Running S) (boot : Bool) (lens : ℕ → Lens) (p : Plan) (o : Opening) (t : RingFrame S) (d : Raw.Datagram) (done : Bool) (found : Option Found) → ClosedFrame u boot lens p o t → AccessBack lens p o t d done found →
        shows_clear o ≡ false → (o.step == last_step o) ≡ false → StandsFor (is_in_pace t.pace t.ring.number) (record o { step = suc o.step }) (node_behind u t).registers }
    // What comes back of an access that no slave before met shows the state that stands.
    ensures shows { (u : Running S) (boot : Bool) (lens : ℕ → Lens) (p : Plan) (o : Opening) (n : Node S) (d : Raw.Datagram) (done : Bool) (found : Option Found) → Closing u boot lens p o n → awaits_at o.again o.step ≡ true →
        CameBack lens p (turn_of o) n.registers d done found → d.head.counter ≡ 0 → Shows (awaited o) n.registers → (done && is_shown (awaited o) found) ≡ true }

    // A step acknowledges the repeat request that stands, in whatever state the slave is.
    ensures acknowledges { (u : Running S) (n : Node S) → Clears u → IsRunning u n → IsRoomy u (in_len n.registers) n.server → (request_of (stepped u n).registers ≡ request_of n.registers) × (acknowledge_of (stepped u n).registers ≡ request_of n.registers) }
{}

/// AN OPEN SLAVE ANSWERS ITS MASTER'S INWARD HALF, whatever slaves are before and behind it in its ring: the repeat request is met and stands, the
/// acknowledge that is read is the one that stands, and no other datagram of a session changes either. So behind a step the acknowledge is the request.
pub fn asked_law<V>()
    ensures requests { (lens : ℕ → Lens) (before : List Registers) (r : Registers) (behind : List Registers) (k : Kept) (v : Serving V Body) (sent : List Raw.Datagram) (x : Datagram Body) (bit : Bool) → IsRingMet lens before r behind k v sent → IsOwn lens r.station sent x →
        x.gram.ask ≡ in_ask InState.Doubt bit → ComesBack lens before r behind sent × (request_of (registers_after r (all_after before sent)) ≡ bit) × (acknowledge_of (registers_after r (all_after before sent)) ≡ acknowledge_of r) }
    ensures reads { (lens : ℕ → Lens) (before : List Registers) (r : Registers) (behind : List Registers) (k : Kept) (v : Serving V Body) (sent : List Raw.Datagram) (x : Datagram Body) (bit : Bool) → IsRingMet lens before r behind k v sent → IsOwn lens r.station sent x →
        x.gram.ask ≡ in_ask InState.Asked bit → (b : ComesBack lens before r behind sent) × (b.datagram.gram.acknowledge ≡ acknowledge_of r) }
    ensures stays { (lens : ℕ → Lens) (before : List Registers) (r : Registers) (behind : List Registers) (k : Kept) (v : Serving V Body) (sent : List Raw.Datagram) → IsRingMet lens before r behind k v sent → NoRequest (own_seen lens r.station sent) →
        SameBits r (registers_after r (all_after before sent)) }
{}
