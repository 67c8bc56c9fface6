//! The epochs of a plan's slave in a serving, as its node lives them and its master leads them. A definition and laws, no running code: the functions here do
//! nothing, and their contracts state the laws.

ghost use Rattle.std.specs.Prelude.{◌≡◌, ℕ, Bool, true, List};
ghost use Rattle.run_work.specs.of_frame_view.View.{Lens};
ghost use Rattle.served_rings.specs.Led.{LedEra};
ghost use Rattle.served_places.specs.of_life_model.Lives.{Spot, Era};
ghost use Rattle.served_places.specs.of_link_mails.Body.{Body};
ghost use Rattle.run_work.specs.of_master_duty.Reply.{Reply};
ghost use Rattle.run_work.specs.of_master_hand.Spoken.{Asked, is_followed, is_passed};
ghost use Rattle.served_rings.specs.Speakers.{speaker, spoken, table_of, processor_of, seer_of};
ghost use Rattle.served_rings.specs.SeenLed.{WasLed};
ghost use Rattle.served_places.specs.of_segment_model.Record.{Frame};
ghost use Rattle.run_work.specs.of_few_replies.Packets.{is_calm};
ghost use Rattle.run_work.specs.of_slave_lives.Lived.{IsBehind, node_seen};
ghost use Rattle.run_work.specs.of_slave_model.Profile.{Profile};
ghost use Rattle.run_work.specs.of_slave_parts.Parts.{Server};
ghost use Rattle.run_work.specs.of_slave_server.Serving.{Serving};
ghost use Rattle.run_work.specs.of_slave_node.Node.{Node};
ghost use Rattle.served_places.specs.of_state_model.Families.{InState};
ghost use Rattle.served_rings.specs.Serves.{serves};

/// THE SERVICES OF A SLAVE IN A SERVING are those that its node runs.
pub fn behind_law()
    ensures { (p : Profile) (boot : Bool) (lens : ℕ → Lens) → IsBehind (serves p boot lens) }
{
    plan_ring::server_lives::real_server_law();
}

/// AN EPOCH THAT ITS MASTER LED AND ITS NODE LIVED is one of those of which such a life is made, up to what the node is seen as; where no download was
/// unfinished before it that sends a packet.
pub fn led_law()
    ensures { (p : Profile) (boot : Bool) (lens : ℕ → Lens) (spot : Spot) (from : InState Server) (counts : Bool) (e : Era Body Asked Reply) (fs : List (Frame Body)) (n : Node Serving) → LedEra (serves p boot lens) is_followed is_passed spot from counts e fs n → is_calm from ≡ true →
        WasLed (speaker p) (seer_of p boot) (table_of boot) spot (spoken p) (processor_of boot) from e (node_seen (serves p boot lens) n).node.server.server }
{}
