//! The clocks of all slaves of a ring by a frame of its master, and what each slave answers by one that came back. Definitions and laws, no running code:
//! the function here does nothing, and its contract states the laws.

ghost use Rattle.std.specs.Prelude.{◌≡◌, ℕ, Bool, List, length};
ghost use Rattle.run_frames.specs.of_datagrams.Datagram as Raw;
ghost use Rattle.run_frames.specs.of_datagrams.Frame.{IsFrame, chained};
ghost use Rattle.whole_ring.specs.of_frame_view.Seen.{seen};
ghost use Rattle.whole_ring.specs.of_frame_view.View.{Lens};
ghost use Rattle.whole_ring.specs.of_life_model.Lives.{Spot};
ghost use Rattle.slave_server.specs.of_link_mails.Body.{Body};
ghost use Rattle.slave_server.specs.of_segment_model.Record.{Frame};
ghost use Rattle.run_frames.specs.of_segment_ring.Ring.{RingState, ring_returned};
ghost use Rattle.run_frames.specs.of_segment_ring.Schedule.{fate_at};
ghost use Rattle.run_frames.specs.of_segment_ring.declared.wire.Fate.{Fate};
ghost use Rattle.slave_server.specs.of_slave_node.Node.{Node, node_passed};
ghost use Rattle.whole_ring.specs.Members.{Member, IsRing, Passes};
ghost use Rattle.whole_ring.specs.Turning.{Turn, AllTurn, frame_at, behind_frame};
ghost use Rattle.plan_ring.specs.Clocks.{AllStand, clocks_on, AllAsked, AllAnswered};

/// THE CLOCKS OF A RING'S SLAVES ARE RIGHT behind each frame that its master made, whether it came back or was lost, and behind the steps that follow it.
pub fn ring_clocks_law<S, V, A, Q, R>()
    ensures turns { (lens : ℕ → Lens) (step : Node S → Node S) (test : Spot → S → Bool) (more : Body → Bool) (passed : Q → Bool) (fs : List (Frame Body)) (ring : RingState (Node S)) (octets : List ℕ) (ds : List Raw.Datagram) (ms : List (Member S V A Q R)) (turns : List (Turn Q)) (clocks : List Bool) →
        IsFrame octets (chained ds) → IsRing lens step (Passes test) fs ring ms → AllTurn more passed lens (length fs) ds ms turns → AllStand clocks ms →
        let ns = behind_frame more passed (length fs) (frame_at lens ring octets) (fate_at ring.lose ring.number) 0 ms turns (chained ds) in AllStand (clocks_on (length fs) clocks ms ns) ns }

    // By one that came back each slave answers what awaits a step, where an open one is asked by its inward half.
    ensures answers { (lens : ℕ → Lens) (step : Node S → Node S) (test : Spot → S → Bool) (more : Body → Bool) (passed : Q → Bool) (fs : List (Frame Body)) (ring : RingState (Node S)) (octets : List ℕ) (ds : List Raw.Datagram) (ms : List (Member S V A Q R)) (turns : List (Turn Q)) (clocks : List Bool) →
        IsFrame octets (chained ds) → IsRing lens step (Passes test) fs ring ms → AllTurn more passed lens (length fs) ds ms turns → AllStand clocks ms → fate_at ring.lose ring.number ≡ Fate.Pass →
        AllAsked more passed (length fs) (seen lens octets) ms turns → AllAnswered more passed (length fs) (seen lens (ring_returned node_passed ring octets)) clocks ms turns }
{}
