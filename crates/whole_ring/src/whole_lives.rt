//! All epochs of a slave's life, its node and the frames so far. No running code: each function here does nothing, and its contract states a law.

ghost use Rattle.std.specs.Prelude.{◌≡◌, ◌==◌, ◌∷◌, ◌++◌, ℕ, Bool, true, false, Option, None, List, [], length};
ghost use Rattle.slave_lives.specs.of_link_mails.Body.{Body};
ghost use Rattle.slave_lives.specs.of_segment_model.Record.{Frame, News};
ghost use Rattle.slave_lives.specs.of_segment_model.Slaves.{Found};
ghost use Rattle.slave_lives.specs.of_slave_node.Node.{Node, new_node};
ghost use Rattle.slave_lives.specs.of_state_model.Accounts.{Pick};
ghost use Rattle.slave_lives.specs.of_life_model.Eras.{Clearing, Eras};
ghost use Rattle.slave_lives.specs.of_life_model.Lives.{Spot, Life, Stand, new_life, gives_up};
ghost use Rattle.slave_lives.specs.of_mailbox_slave.Registers.{in_len};
ghost use Rattle.slave_lives.specs.of_segment_ring.Ring.{is_in_pace};
ghost use Rattle.slave_lives.specs.Lived.{Behind, RingFrame, node_met, node_behind, frame_of, table_of};
ghost use Rattle.slave_lives.specs.Nodes.{IsRoomy};
ghost use Rattle.slave_lives.specs.Seats.{Seat, KnownAs, ComesAs, AreDistinct, AllMeet, nodes_of};
ghost use Rattle.slave_lives.specs.Opening.{Plan};
ghost use Rattle.whole_ring.specs.Whole.{IsWhole, OwesLaws, IsLived};
ghost use Rattle.whole_ring.specs.Turns.{FrameComes, TurnsAs, life_by, plan_at, seat_at};
ghost use Rattle.whole_ring.specs.Promises.{IsPromised};

/// A LIFE IS LIVED BY ITS NODE from the moment the slave is switched on; by each frame that the ring exchanges, met by the slave, lost before it or
/// behind it, and by the step behind it, at any pace; and where the slave is given up, for good or not.
pub fn life_law<S, V, A, Q, R>()
    ensures begins { (w : Behind S V A Q R) (c : Clearing V A) (p : Plan) (spot : Spot) (al : ℕ) (s : S) → IsWhole w c p spot → w.running.clear s ≡ s → w.running.next s ≡ None →
        IsLived w c p spot (w.exchange.app (w.sees al s).server) (new_life {M = Body} {Q = Q} {R = R} spot.start) [] (new_node p.out p.back w.boot s) }
    ensures turns { (w : Behind S V A Q R) (c : Clearing V A) (p : Plan) (spot : Spot) (first : A) (l : Life Body Q R) (fs : List (Frame Body)) (t : RingFrame S) (more : Body → Bool) (passed : Q → Bool) (pick : Pick Q) (news : List (News Body)) (came : Option (Bool × Option Found)) →
        IsWhole w c p spot → IsLived w c p spot first l fs t.node → FrameComes w p spot l.stand t → TurnsAs w more passed p spot fs t pick news came l.era l.stand →
        IsLived w c p spot first (life_by w more passed spot fs t pick news came (frame_of w.lens t).fate l l.stand) (fs ++ frame_of w.lens t ∷ []) (node_behind w.running t) }
    ensures gives { (w : Behind S V A Q R) (c : Clearing V A) (p : Plan) (spot : Spot) (first : A) (l : Life Body Q R) (fs : List (Frame Body)) (n : Node S) (recover frame : ℕ) →
        IsWhole w c p spot → IsLived w c p spot first l fs n → IsLived w c p spot first (gives_up recover spot frame l) fs n }
{}

/// Of a life that is lived the epochs that are over are epochs of the model, one behind the other, up to the application with which the newest
/// begins; and while the slave is open its epoch promises what an open epoch of the model does, of the node as it is seen, where its services owe the laws.
pub fn open_epoch_law<S, V, A, Q, R>()
    ensures chain { (w : Behind S V A Q R) (c : Clearing V A) (p : Plan) (spot : Spot) (first : A) (l : Life Body Q R) (fs : List (Frame Body)) (n : Node S) → (i : IsLived w c p spot first l fs n) →
        Eras w.exchange w.states w.processor (table_of w) c.cleared spot fs first l.past i.from }
    ensures promises { (w : Behind S V A Q R) (c : Clearing V A) (p : Plan) (spot : Spot) (first : A) (l : Life Body Q R) (fs : List (Frame Body)) (n : Node S) → OwesLaws w c p spot → (i : IsLived w c p spot first l fs n) → l.stand ≡ Stand.Open →
        IsPromised w spot i.from l.era fs n }
{}

/// Of a life that is lived what is known of its node is what the law of a ring's seats asks for, by how the master stands to it; and a frame that
/// comes to all seats as it is for each comes so to its slave.
pub fn seated_law<S, V, A, Q, R>()
    ensures known { (w : Behind S V A Q R) (c : Clearing V A) (p : Plan) (spot : Spot) (first : A) (l : Life Body Q R) (fs : List (Frame Body)) (n : Node S) → IsWhole w c p spot → IsLived w c p spot first l fs n →
        KnownAs w.running w.boot w.lens (plan_at p l.stand) l.stand n }
    ensures comes { (w : Behind S V A Q R) (p : Plan) (spot : Spot) (stand : Stand) (t : RingFrame S) (before behind : List (Seat S)) → t.before ≡ nodes_of before → t.behind ≡ nodes_of behind → length t.before ≡ spot.place → (0 == p.station) ≡ false →
        AreDistinct (before ++ seat_at w p stand t.node ∷ behind) → AllMeet (before ++ seat_at w p stand t.node ∷ behind) t.datagrams →
        ComesAs (plan_at p stand) stand spot.place 0 t.datagrams → (is_in_pace t.pace t.ring.number ≡ true → IsRoomy w.running (in_len (node_met t).registers) (node_met t).server) → FrameComes w p spot stand t }
{}
