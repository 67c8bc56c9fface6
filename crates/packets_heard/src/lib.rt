//! The packets that slaves send: cut into fragments, heard one by one and joined again by the master, over the frames of a run, and switched between
//! host and slaves. No running code: each function here does nothing, and its contract states a law.
#![tactic(auto)]

pub mod packet_model;
pub mod packets_begun;
pub mod port_events;
pub mod recalled_runs;
pub mod switch_model;
pub mod visit_orders;

ghost use Rattle.master_node.specs.of_eoe.declared.message.Fragment.{Fragment};
ghost use Rattle.slave_server.specs.of_exchange_model.Prefix.{IsPrefixOf};
ghost use Rattle.master_node.specs.of_frame_view.View.{Lens};
ghost use Rattle.master_node.specs.of_frame_view.Shares.{AllBoth};
ghost use Rattle.master_node.specs.of_life_runs.Led.{Exchanged, Leads, Turn, IsLed, IsLedFrame};
ghost use Rattle.slave_server.specs.of_link_mails.Body.{Body};
ghost use Rattle.master_node.specs.of_master_hand.Joins.{fragment_in, packets_in};
ghost use Rattle.packets_heard.specs.Packets.{Emitted, ArePackets, all_fragments, octets_of, parts};
ghost use Rattle.packets_heard.specs.Heard.{IsJoined, times_in, joined_in, joined_on};
ghost use Rattle.packets_heard.specs.Servings.{served_joined, served_times};
ghost use Rattle.master_node.specs.of_life_runs.Served.{Serves, IsServedLed};
ghost use Rattle.std.specs.Prelude.{◌≡◌, ◌≤◌, ◌++◌, ℕ, None, List, length};

/// FRAME BY FRAME a slave's packets are joined as from its mails at once: over a run they are, in order, just those that the mails of each time that it
/// was open join to, with nothing unfinished before. And where the fragments of such a time are the first of those of packets that the slave sent, the
/// first of these packets are joined, each whole as sent; of all fragments all packets are.
pub fn packets_law()
    ensures runs { (lens : ℕ → Lens) (recover retry missed : ℕ) (first as' : List Leads) (fs : List Exchanged) (led : IsLed lens recover retry first fs missed as') → AllBoth IsJoined (times_in led) (joined_in led) }
    // So it is over a serving.
    ensures servings { (lens : ℕ → Lens) (recover retry missed : ℕ) (first ws : List Serves) (fs : List Exchanged) (led : IsServedLed lens recover retry first fs missed ws) → AllBoth IsJoined (served_times led) (served_joined led) }
    ensures goes_on { (lens : ℕ → Lens) (recover retry missed : ℕ) (first as' : List Leads) (fs : List Exchanged) (f : Exchanged) (us : List Turn) (led : IsLed lens recover retry first fs missed as') (frame : IsLedFrame lens (length fs) f.sent as' us) →
        joined_in (IsLed.on fs missed as' f us led frame) ≡ joined_on lens f (joined_in led) us }
    ensures whole { (room : ℕ) (ps : List Emitted) (ms : List Body) (rest : List Fragment) → 64 ≤ room → ArePackets ps → parts fragment_in ms ++ rest ≡ all_fragments room ps → IsPrefixOf (packets_in None ms) (octets_of ps) }
    ensures all { (room : ℕ) (ps : List Emitted) (ms : List Body) → 64 ≤ room → ArePackets ps → parts fragment_in ms ≡ all_fragments room ps → packets_in None ms ≡ octets_of ps }
{}
