//! What a frame that came back brought of a slave besides replies.

ghost use Rattle.std.specs.Prelude.{◌≡◌, List, Option, option_map};
ghost use Rattle.eoe_switch.specs.of_eoe.declared.joining.Unfinished.{Unfinished};
ghost use Rattle.life_runs.specs.of_link_mails.Body.{Body};
ghost use Rattle.life_runs.specs.of_master_hand.Brings.{Brings, as_list, emergencies_in};
ghost use Rattle.life_runs.specs.of_master_hand.Joins.{Completes, packets_in};
ghost use Rattle.life_runs.specs.of_master_side.Heard.{Brought};

use crate::node::MasterNode;
use arrayvec::ArrayVec;
use eoe::Packet;
use master_hand::InHand;
use master_side::Side;

// The emergency that the last returned frame brought.
fn emergency_of(side: &Side<InHand>) -> Option<&ArrayVec<u8, 8>>
    ensures { (ms : List Body) → Brought (Brings side.now.hand.found) side.now.heard ms → as_list (option_map (λ octets. octets.now.items) result) ≡ emergencies_in ms }
{
    match side.heard {
        None => None,
        Some(_) => side.hand.emergency(),
    }
}

// The packet that it completed.
fn packet_of(side: &Side<InHand>) -> Option<&Packet>
    ensures { (before : Option Unfinished) (ms : List Body) → Brought (Completes side.now.hand.found before) side.now.heard ms → as_list (option_map (λ packet. packet.now.items) result) ≡ packets_in before ms }
{
    match side.heard {
        None => None,
        Some(_) => side.hand.packet(),
    }
}

impl MasterNode {
    ghost use Rattle.std.specs.Prelude.{◌≡◌, ◌<◌, ℕ, List, Option, IfSome, slice_get, vec_len, option_map};
    ghost use Rattle.eoe_switch.specs.of_eoe.declared.joining.Unfinished.{Unfinished};
    ghost use Rattle.life_runs.specs.Led.{Turn};
    ghost use Rattle.life_runs.specs.of_link_mails.Body.{Body};
    ghost use Rattle.life_runs.specs.of_segment_model.Slaves.{Datagram};
    ghost use Rattle.life_runs.specs.of_master_hand.Brings.{as_list, emergencies_in};
    ghost use Rattle.life_runs.specs.of_master_tour.Brings.{accepted_in};
    ghost use Rattle.master_node.specs.Brought.{HasBrought};
    ghost use Rattle.life_runs.specs.of_master_hand.Joins.{packets_in};
    ghost use Rattle.master_node.specs.Joined.{HasCompleted, mails_back};

    /// The octets of the emergency that the last returned frame brought of a slave.
    pub fn emergency(&self, slave: u32) -> Option<&ArrayVec<u8, 8>>
        requires { slave < vec_len self.now.posts }
        ensures { (us : List Turn) (back : List (Datagram Body)) → HasBrought self.now us back →
            IfSome (slice_get us slave) (λ u. as_list (option_map (λ octets. octets.now.items) result) ≡ emergencies_in (accepted_in u.lived.spot u.lived.life back)) }
    {
        emergency_of(&self.tour.stops[slave as usize].side)
    }

    /// The octets of the packet that the last returned frame completed, by its fragments of a slave.
    pub fn packet(&self, slave: u32) -> Option<&Packet>
        requires { slave < vec_len self.now.posts }
        ensures { (us : List Turn) (befores : List (Option Unfinished)) (back : List (Datagram Body)) → HasCompleted self.now us befores back →
            IfSome (slice_get us slave) (λ u. IfSome (slice_get befores slave) (λ before. as_list (option_map (λ packet. packet.now.items) result) ≡ packets_in before (mails_back back u))) }
    {
        packet_of(&self.tour.stops[slave as usize].side)
    }
}
