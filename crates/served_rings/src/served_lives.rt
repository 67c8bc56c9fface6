//! The lives of the slaves of a serving as their nodes live them, and what its master's speech makes of them. Definitions and a law, no running code: the
//! function here does nothing, and its contract states the law.

ghost use Rattle.std.specs.Prelude.{◌≡◌, ℕ, Bool, true, List};
ghost use Rattle.run_work.specs.of_frame_view.View.{Lens};
ghost use Rattle.served_rings.specs.Lives.{IsLedLived};
ghost use Rattle.served_places.specs.of_life_model.Lives.{Life, Spot};
ghost use Rattle.served_places.specs.of_link_mails.Body.{Body};
ghost use Rattle.run_work.specs.of_master_duty.Reply.{Reply};
ghost use Rattle.run_work.specs.of_master_hand.Spoken.{Asked, is_followed, is_passed};
ghost use Rattle.served_rings.specs.Speakers.{cleared_whole, processor_of, seer_of, speaker, spoken, table_of};
ghost use Rattle.served_rings.specs.SeenLed.{IsLedLife};
ghost use Rattle.served_places.specs.of_segment_model.Record.{Frame, Kept};
ghost use Rattle.served_rings.specs.Serves.{serves};
ghost use Rattle.run_work.specs.of_few_replies.Packets.{is_calm};
ghost use Rattle.run_work.specs.of_slave_lives.Opening.{Plan};
ghost use Rattle.run_work.specs.of_slave_model.Profile.{Profile};
ghost use Rattle.run_work.specs.of_slave_parts.Parts.{Server};
ghost use Rattle.run_work.specs.of_slave_server.Serving.{Serving};
ghost use Rattle.run_work.specs.of_slave_node.Node.{Node};
ghost use Rattle.served_places.specs.of_state_model.Families.{InState};
ghost use Rattle.served_rings.specs.Clearing.{in_init, serves_clearing};

/// A LIFE THAT A SLAVE'S NODE LIVES by epochs that its master leads is one that the master leads of the slave it speaks with, from the server in Init with which
/// it was switched on, which has no download unfinished that sends a packet.
pub fn led_life_law()
    ensures { (p : Profile) (boot : Bool) (lens : ℕ → Lens) (spot : Spot) (plan : Plan) (kept : Kept) (counts : Bool) (first : InState Server) (l : Life Body Asked Reply) (fs : List (Frame Body)) (n : Node Serving) → is_calm first ≡ true →
        IsLedLived (serves p boot lens) is_followed is_passed spot serves_clearing.cleared plan kept counts first l fs n → IsLedLife (speaker p) (seer_of p boot) (table_of boot) spot (spoken p) (processor_of boot) cleared_whole (in_init first) l }
{}
