//! The lives of all slaves of a ring by epochs that their master leads, mails that are passed on among them, with the counters that its records keep. A
//! definition and a law, no running code: the function here does nothing, and its contract states the law.

ghost use Rattle.std.specs.Prelude.{◌≡◌, ◌∷◌, ◌++◌, ℕ, suc, Bool, List, [], length, map};
ghost use Rattle.served_places.specs.of_datagrams.Datagram as Raw;
ghost use Rattle.served_places.specs.of_datagrams.Frame.{IsFrame, chained};
ghost use Rattle.run_work.specs.of_frame_view.View.{Lens};
ghost use Rattle.served_rings.specs.LedRings.{Counters, AllLedMembers, AllTold, all_counters};
ghost use Rattle.served_rings.specs.StoodLives.{AllStoodMembers};
ghost use Rattle.served_places.specs.of_life_model.Lives.{Spot};
ghost use Rattle.served_places.specs.of_link_mails.Body.{Body};
ghost use Rattle.served_places.specs.of_segment_model.Record.{Frame};
ghost use Rattle.served_places.specs.of_segment_ring.Ring.{RingState};
ghost use Rattle.served_places.specs.of_segment_ring.Schedule.{fate_at};
ghost use Rattle.run_work.specs.of_slave_node.Node.{Node};
ghost use Rattle.run_work.specs.of_whole_ring.Members.{AllNew, IsRing, Member, Passes};
ghost use Rattle.run_work.specs.of_whole_ring.Turning.{AllTurn, Turn, behind_frame, frame_at};

/// THE LIVES OF A RING'S SLAVES ARE LED from the moment these are switched on; and by each exchange of a frame that the master made, where mails that are passed
/// on go on by the news that the records say of it; and the records' counters are those that stand behind it. Each epoch begins with what its slave had, cleared,
/// behind the frame that showed the return to Init before it, and a slave that is given up for good while it is open stays up and lives its epoch on. Lives that
/// are so are lives that are led.
pub fn led_ring_law<S, V, A, Q, R>()
    ensures begins { (lens : ℕ → Lens) (step : Node S → Node S) (test : Spot → S → Bool) (more : Body → Bool) (passed : Q → Bool) (nodes : ℕ → List (Node S)) (ms : List (Member S V A Q R)) (ks : List Counters) → length ks ≡ length ms → AllNew lens step (Passes test) 0 ms →
        AllStoodMembers more passed nodes [] ms ks }
    ensures turns { (lens : ℕ → Lens) (step : Node S → Node S) (test : Spot → S → Bool) (more : Body → Bool) (passed : Q → Bool) (nodes : ℕ → List (Node S)) (fs : List (Frame Body)) (ring : RingState (Node S)) (octets : List ℕ) (ds : List Raw.Datagram) (ms : List (Member S V A Q R)) (ks : List Counters) (turns : List (Turn Q)) →
        IsFrame octets (chained ds) → IsRing lens step (Passes test) fs ring ms → AllTurn more passed lens (length fs) ds ms turns → AllStoodMembers more passed nodes fs ms ks → let f = frame_at lens ring octets in AllTold more passed f ms ks turns →
        let behind = behind_frame more passed (length fs) f (fate_at ring.lose ring.number) 0 ms turns (chained ds) in nodes (suc (length fs)) ≡ map (λ (m : Member S V A Q R). m.node) behind →
        AllStoodMembers more passed nodes (fs ++ f ∷ []) behind (all_counters (length fs) f ms ks) }
    ensures led { (more : Body → Bool) (passed : Q → Bool) (nodes : ℕ → List (Node S)) (fs : List (Frame Body)) (ms : List (Member S V A Q R)) (ks : List Counters) → AllStoodMembers more passed nodes fs ms ks → AllLedMembers more passed fs ms ks }
{}
