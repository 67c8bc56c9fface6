//! All slaves of a ring, their lives and the frames so far. No running code: each function here does nothing, and its contract states a law.
#![tactic(auto)]

ghost use Rattle.slave_lives.specs.of_datagrams.Datagram as Raw;
ghost use Rattle.slave_lives.specs.of_datagrams.Frame.{IsFrame, chained};
ghost use Rattle.slave_lives.specs.of_exchange_model.Exchange.{IsLawful};
ghost use Rattle.slave_lives.specs.of_frame_view.View.{Lens};
ghost use Rattle.slave_lives.specs.of_life_model.Eras.{Eras};
ghost use Rattle.slave_lives.specs.of_life_model.Lives.{Spot, Stand};
ghost use Rattle.slave_lives.specs.of_link_mails.Body.{Body};
ghost use Rattle.slave_lives.specs.of_segment_model.Record.{Frame};
ghost use Rattle.slave_lives.specs.Lived.{table_of};
ghost use Rattle.std.specs.Prelude.{◌≡◌, ◌<◌, ◌∷◌, ◌++◌, ℕ, Bool, List, [], length};
ghost use Rattle.whole_ring.specs.Members.{Member, MemberIs, AreDistinct, IsRing, AllNew, Passes, first_ring};
ghost use Rattle.whole_ring.specs.Promises.{IsPromised};
ghost use Rattle.whole_ring.specs.Turning.{Turn, AllTurn, frame_at, behind_frame, given_up};
ghost use Rattle.slave_lives.specs.of_segment_ring.Ring.{RingState, ring_behind};
ghost use Rattle.slave_lives.specs.of_segment_ring.Schedule.{fate_at};
ghost use Rattle.slave_lives.specs.of_slave_node.Node.{Node, node_passed};

pub mod steady_eras;
pub mod whole_lives;

/// ALL LIVES OF A RING ARE LIVED BY ITS NODES, whose servers pass a test that mails and steps leave (`Serves`), from the moment the slaves are switched on; by each exchange of a frame that the master made, met by
/// all of them, lost before, between or behind them, and by the steps that follow at each pace; and where slaves are given up.
pub fn whole_ring_law<S, V, A, Q, R>()
    ensures begins { (lens : ℕ → Lens) (step : Node S → Node S) (test : Spot → S → Bool) (lose : List (ℕ × ℕ)) (ms : List (Member S V A Q R)) → length ms < 17 → AreDistinct ms → AllNew lens step (Passes test) 0 ms →
        IsRing lens step (Passes test) [] (first_ring lose ms) ms }
    ensures turns { (lens : ℕ → Lens) (step : Node S → Node S) (test : Spot → S → Bool) (more : Body → Bool) (passed : Q → Bool) (fs : List (Frame Body)) (ring : RingState (Node S)) (octets : List ℕ) (ds : List Raw.Datagram) (ms : List (Member S V A Q R)) (turns : List (Turn Q)) →
        IsFrame octets (chained ds) → IsRing lens step (Passes test) fs ring ms → AllTurn more passed lens (length fs) ds ms turns →
        IsRing lens step (Passes test) (fs ++ frame_at lens ring octets ∷ []) (ring_behind node_passed step ring octets) (behind_frame more passed (length fs) (frame_at lens ring octets) (fate_at ring.lose ring.number) 0 ms turns (chained ds)) }
    ensures gives { (lens : ℕ → Lens) (step : Node S → Node S) (test : Spot → S → Bool) (fs : List (Frame Body)) (ring : RingState (Node S)) (recover frame : ℕ) (ms : List (Member S V A Q R)) (carried : List Bool) →
        IsRing lens step (Passes test) fs ring ms → IsRing lens step (Passes test) fs ring (given_up recover frame ms carried) }
{}

/// Of each slave of such a ring the epochs that are over are epochs of the model, one behind the other; and while it is open its epoch promises what
/// an open epoch of the model does, of its node as it is seen.
pub fn ring_promises_law<S, V, A, Q, R>()
    ensures lives { (lens : ℕ → Lens) (step : Node S → Node S) (test : Spot → S → Bool) (fs : List (Frame Body)) (ring : RingState (Node S)) (before : List (Member S V A Q R)) (m : Member S V A Q R) (behind : List (Member S V A Q R)) →
        IsRing lens step (Passes test) fs ring (before ++ m ∷ behind) → MemberIs lens step (Passes test) fs m.spot.place m }
    ensures chain { (lens : ℕ → Lens) (step : Node S → Node S) (test : Spot → S → Bool) (fs : List (Frame Body)) (place : ℕ) (m : Member S V A Q R) → (i : MemberIs lens step (Passes test) fs place m) →
        Eras m.services.exchange m.services.states m.services.processor (table_of m.services) m.clearing.cleared m.spot fs m.first m.life.past i.lived.from }
    ensures promises { (lens : ℕ → Lens) (step : Node S → Node S) (test : Spot → S → Bool) (fs : List (Frame Body)) (place : ℕ) (m : Member S V A Q R) → (i : MemberIs lens step (Passes test) fs place m) → IsLawful m.services.exchange → m.life.stand ≡ Stand.Open →
        IsPromised m.services m.spot i.lived.from m.life.era fs m.node }
{}
