//! The clock of a slave's processor, as the count of frames has it, and the steps that the slave made. Definitions and laws, no running code: the function
//! here does nothing, and its contract states the laws.

ghost use Rattle.whole_ring.specs.of_esc_registers.declared.registers.Registers.{Registers};
ghost use Rattle.whole_ring.specs.of_life_model.Repairs.{way_of};
ghost use Rattle.whole_ring.specs.of_life_model.Eras.{Clearing};
ghost use Rattle.whole_ring.specs.of_life_model.Lives.{Spot, Life, Stand, gives_up};
ghost use Rattle.slave_server.specs.of_link_mails.Body.{Body};
ghost use Rattle.run_frames.specs.Goes.{is_same, stepped_behind};
ghost use Rattle.slave_server.specs.of_segment_model.Record.{Frame, News};
ghost use Rattle.slave_server.specs.of_segment_model.Slaves.{Found};
ghost use Rattle.plan_ring.specs.Stands.{StandsTo};
ghost use Rattle.whole_ring.specs.of_slave_lives.Lived.{Behind, RingFrame, node_behind, frame_of};
ghost use Rattle.whole_ring.specs.of_slave_lives.Opening.{Plan};
ghost use Rattle.std.specs.Prelude.{◌≡◌, ℕ, Bool, List, Option};
ghost use Rattle.slave_server.specs.of_state_model.Accounts.{Pick};
ghost use Rattle.whole_ring.specs.Turns.{FrameComes, TurnsAs, life_by};
ghost use Rattle.whole_ring.specs.Whole.{IsWhole, IsLived};

/// THE CLOCK OF A SLAVE IS RIGHT: where it says that the slave made a step since the access in hand is in hand, the slave shows what that access awaits.
/// It stays so by each frame that its ring exchanges, met by the slave, lost before it or behind it, and by the step behind it, whatever the frame makes of
/// its life; and where the slave is given up.
pub fn clock_law<S, V, A, Q, R>()
    ensures turns { (w : Behind S V A Q R) (c : Clearing V A) (p : Plan) (spot : Spot) (first : A) (l : Life Body Q R) (fs : List (Frame Body)) (t : RingFrame S) (more : Body → Bool) (passed : Q → Bool) (pick : Pick Q) (news : List (News Body)) (came : Option (Bool × Option Found)) (stepped : Bool) →
        IsWhole w c p spot → IsLived w c p spot first l fs t.node → FrameComes w p spot l.stand t → TurnsAs w more passed p spot fs t pick news came l.era l.stand → StandsTo stepped l l.stand t.node.registers →
        let k = life_by w more passed spot fs t pick news came (frame_of w.lens t).fate l l.stand in StandsTo (stepped_behind t.pace t.ring.number (is_same (way_of 1 1 l) (way_of 1 1 k)) stepped) k k.stand (node_behind w.running t).registers }
    ensures gives { (recover frame : ℕ) (spot : Spot) (l : Life Body Q R) (stepped : Bool) (r : Registers) → (let k = gives_up recover spot frame l in StandsTo stepped k k.stand r) }
{}
