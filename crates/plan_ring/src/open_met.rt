//! The open slaves of a ring by a frame that came back: what comes back to each, and how its node stands behind the step that follows. A definition and a
//! law, no running code: the function here does nothing, and its contract states the law.

ghost use Rattle.std.specs.Prelude.{◌≡◌, ℕ, Bool, List, length};
ghost use Rattle.run_frames.specs.of_datagrams.Datagram as Raw;
ghost use Rattle.run_frames.specs.of_datagrams.Frame.{IsFrame, chained};
ghost use Rattle.whole_ring.specs.of_frame_view.Seen.{seen};
ghost use Rattle.whole_ring.specs.of_frame_view.View.{Lens};
ghost use Rattle.whole_ring.specs.of_life_model.Lives.{Spot};
ghost use Rattle.slave_server.specs.of_link_mails.Body.{Body};
ghost use Rattle.slave_server.specs.of_segment_model.Record.{Frame};
ghost use Rattle.run_frames.specs.of_segment_ring.Ring.{RingState, ring_returned};
ghost use Rattle.run_frames.specs.of_segment_ring.Schedule.{fate_at};
ghost use Rattle.run_frames.specs.of_segment_ring.declared.wire.Fate.{Fate};
ghost use Rattle.slave_server.specs.of_slave_node.Node.{Node, node_passed};
ghost use Rattle.whole_ring.specs.Members.{Member, IsRing, Passes};
ghost use Rattle.whole_ring.specs.Turning.{Turn, AllTurn, frame_at, behind_frame};
ghost use Rattle.plan_ring.specs.Met.{AllOpenMet};

/// WHAT COMES BACK TO AN OPEN SLAVE'S STATION of a frame that its ring's master made is what the slave makes of what was sent to it; and behind the step that
/// follows its node is the slave behind these datagrams and that step.
pub fn open_met_law<S, V, A, Q, R>()
    ensures { (lens : ℕ → Lens) (step : Node S → Node S) (test : Spot → S → Bool) (more : Body → Bool) (passed : Q → Bool) (fs : List (Frame Body)) (ring : RingState (Node S)) (octets : List ℕ) (ds : List Raw.Datagram) (ms : List (Member S V A Q R)) (turns : List (Turn Q)) →
        IsFrame octets (chained ds) → IsRing lens step (Passes test) fs ring ms → AllTurn more passed lens (length fs) ds ms turns → fate_at ring.lose ring.number ≡ Fate.Pass →
        let ns = behind_frame more passed (length fs) (frame_at lens ring octets) (fate_at ring.lose ring.number) 0 ms turns (chained ds) in AllOpenMet (seen lens octets) (seen lens (ring_returned node_passed ring octets)) (length fs) ms ns }
{}
