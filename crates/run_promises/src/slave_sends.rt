//! The packets that a slave sends of itself, by the services of its master. Definitions and a law, no running code: the function here does nothing, and its
//! contract states the law.

ghost use Rattle.std.specs.Prelude.{◌≡◌, ℕ, true, false, List, [], sum_by};
ghost use Rattle.packets_heard.specs.of_protocol_models.Network.{Station};
ghost use Rattle.served_rings.specs.of_few_replies.Packets.{is_calm, is_fair};
ghost use Rattle.packets_heard.specs.of_link_mails.Body.{Body};
ghost use Rattle.packets_heard.specs.of_master_hand.Joins.{fragment_in};
ghost use Rattle.packets_heard.specs.Packets.{parts as packet_parts};
ghost use Rattle.served_rings.specs.of_slave_model.Product.{side};
ghost use Rattle.served_rings.specs.of_slave_model.Profile.{Protocol, Profile, IsProfile};
ghost use Rattle.served_rings.specs.of_slave_model.Server.{ServiceOf};
ghost use Rattle.served_rings.specs.of_slave_parts.Parts.{Core, Server, parts};
ghost use Rattle.served_rings.specs.of_slave_parts.Served.{product_whole};
ghost use Rattle.packets_heard.specs.of_state_model.Families.{InState};
ghost use Rattle.run_promises.specs.Sends.{MaySend, Sends, is_network, may_send};

/// WHAT A SLAVE SENDS BY A SERVICE, in whatever AL state, are the fragments of the packet that a download emits or of the one that goes back, or an
/// emergency, or nothing; and it may send packets behind it.
pub fn emits_law()
    ensures emits { (weigh : List ℕ → ℕ) (p : Profile) → IsProfile p → (al : ℕ) (s : Station Core) (i : Protocol) (q : ServiceOf i) → MaySend s → Sends weigh p.back ((side parts p al i).emits s q) (sum_by weigh (may_send p i q)) }
    ensures stays { (p : Profile) (al : ℕ) (s : Station Core) (i : Protocol) (q : ServiceOf i) → MaySend s → MaySend ((side parts p al i).exec s q) }
    // A fair mail that is passed on, and isn't of EoE, makes it send no packet, as long as it is calm.
    ensures passed { (p : Profile) (v : InState Server) (m : Body) → is_calm v ≡ true → is_fair m ≡ true → is_network m ≡ false → packet_parts fragment_in ((product_whole parts p).serve v m).1 ≡ [] }
{}
