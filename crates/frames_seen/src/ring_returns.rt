//! What comes back of a frame from a ring is the return of what was sent. No running code: the function here does nothing, and its contract states
//! a law.

ghost use Rattle.std.specs.Prelude.{◌≡◌, ℕ, List};
ghost use Rattle.slave_node.specs.of_datagrams.Datagram as Raw;
ghost use Rattle.slave_node.specs.of_datagrams.Frame.{IsFrame};
ghost use Rattle.frame_view.specs.View.{Lens};
ghost use Rattle.frame_view.specs.Seen.{seen};
ghost use Rattle.frame_view.specs.of_segment_model.Returned.{Returns};
ghost use Rattle.slave_node.specs.of_segment_ring.declared.wire.Fate.TheVariants.{Pass};
ghost use Rattle.slave_node.specs.of_segment_ring.Ring.{RingState, ring_returned};
ghost use Rattle.slave_node.specs.of_segment_ring.Schedule.{fate_at};
ghost use Rattle.slave_node.specs.Node.{Node, node_passed};

/// A FRAME THAT ISN'T LOST comes back from any ring of slaves, whatever their registers, as the return of what was sent: datagram by datagram with
/// the same station, ask and access, and addressed to the same station. So a master may go by what it asked.
pub fn ring_return_law<S>()
    ensures { (lens : ℕ → Lens) (ring : RingState (Node S)) (octets : List ℕ) (ds : List Raw.Datagram) → IsFrame octets ds → fate_at ring.lose ring.number ≡ Pass →
        Returns (seen lens octets) (seen lens (ring_returned node_passed ring octets)) }
{}
