//! The running slave, octet by octet.

ghost use Rattle.std.specs.Prelude.{◌≡◌, ◌∷◌, ◌++◌, ℕ, Bool, List, length};
ghost use Rattle.frames_seen.specs.of_datagrams.Datagram as Raw;
ghost use Rattle.frames_seen.specs.of_datagrams.Frame.{IsFrame};
ghost use Rattle.frames_seen.specs.of_mailbox_slave.Registers.{in_len};
ghost use Rattle.frames_seen.specs.of_segment_ring.Ring.{RingState};
ghost use Rattle.frames_seen.specs.of_slave_node.Node.{Node, new_node, node_passed};
ghost use Rattle.slave_lives.specs.Nodes.{IsRunning, IsRoomy, StepsOn, stepped};
ghost use Rattle.slave_lives.specs.Returning.{Clears};
ghost use Rattle.slave_lives.specs.Rings.{met, IsExchanged};
ghost use Rattle.slave_lives.specs.Steps.{Running};

/// A running slave, from the moment it is switched on: octets that pass it and steps of its processor leave what always holds of it. A step, in
/// whatever state, makes of registers, box and server what the session's step says: the word that waits is carried out, in Init the repeat
/// request alone is answered, the way into Init makes box and server anew, and in any other state the box looks and serves.
pub fn node_law<S>()
    ensures begins { (u : Running S) (out back : ℕ) (boot : Bool) (s : S) → u.clear s ≡ s → IsRunning u (new_node out back boot s) }
    ensures passes { (u : Running S) (n : Node S) (octets : List ℕ) → IsRunning u n → IsRunning u (node_passed n octets).0 }
    ensures steps { (u : Running S) → Clears u → (n : Node S) → IsRunning u n → IsRoomy u (in_len n.registers) n.server → StepsOn u n (stepped u n) }
{}

/// A frame of octets that a ring exchanges, for the slave at any place of it: it meets the frame's datagrams as the slaves before it leave them,
/// where the frame comes so far, and its processor makes its step behind it. What comes back is a frame of these datagrams behind all slaves.
pub fn ring_law<S>()
    ensures exchanges { (u : Running S) (ring : RingState (Node S)) (octets : List ℕ) (ds : List Raw.Datagram) (before : List (Node S)) (n : Node S) (behind : List (Node S)) (front : List ℕ) (pace : ℕ) (rest : List ℕ) →
        IsFrame octets ds → ring.nodes ≡ before ++ n ∷ behind → ring.paces ≡ front ++ pace ∷ rest → length front ≡ length before → IsExchanged u ring octets ds before n behind pace }
    ensures runs { (u : Running S) (is : Bool) (n : Node S) (ds : List Raw.Datagram) → IsRunning u n → IsRunning u (met is n ds) }
{}
