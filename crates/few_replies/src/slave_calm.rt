//! That a slave is calm: it answers each mail that is passed on with few, as long as none begins a download that sends a packet. Definitions and laws,
//! no running code: the functions here do nothing, and their contracts state the laws.

ghost use Rattle.std.specs.Prelude.{◌≡◌, ℕ, length, replicate};
ghost use Rattle.slave_parts.specs.of_slave_model.Application.{Parts, ArePartsLawful};
ghost use Rattle.slave_parts.specs.of_slave_model.Profile.{Profile, IsProfile};
ghost use Rattle.slave_parts.specs.Served.{product_whole};
ghost use Rattle.slave_parts.specs.of_protocol_models.Elements.{target};
ghost use Rattle.slave_parts.specs.of_protocol_models.SoeMails.{fragments_of};
ghost use Rattle.few_replies.specs.Most.{Tells, AreEnough};
ghost use Rattle.few_replies.specs.Calm.{IsCalm};
ghost use Rattle.few_replies.specs.Packets.{is_calm, is_fair};

/// THE ONE EXCHANGE OF A SLAVE IS CALM: it answers each fair mail with few, whatever transfers are unfinished, and neither a fair mail nor a service
/// leaves a download unfinished that sends a packet.
pub fn slave_calm<T, F, I>()
    ensures calm { (o : Parts T F I) (p : Profile) (information element most : ℕ) → ArePartsLawful o → IsProfile p → Tells o information element → AreEnough p information element most → IsCalm (product_whole o p) is_calm is_fair most }
    // No lawful parts tell more than a transfer has, which takes 316 mails through the smallest mailbox.
    ensures tells { (o : Parts T F I) → ArePartsLawful o → Tells o 16384 16384 }
    ensures enough { (p : Profile) → IsProfile p → AreEnough p 16384 16384 316 }
    // Where lists have 1,024 octets and elements 4,096, as of a plan's slaves, 76 are enough.
    ensures smaller { (p : Profile) → IsProfile p → AreEnough p 1024 4096 76 }
{}

/// A worked row: an element of 4,096 octets goes through a mailbox of 64 in just as many fragments.
pub fn element_row()
    ensures { length (fragments_of 64 2 (target 0 100 64) (replicate 4096 7)) ≡ 76 }
{}
