//! EoE as a model: the server as what it does with one mail, the client's mails and the reply that the mails it hears complete, and the law
//! between them (ETG.1000.6, "Ethernet over EtherCAT"). Packets and address blocks are whole, mails are data, and nothing here runs: the
//! functions do nothing, and their contracts state the laws.

ghost use Rattle.std.specs.Prelude.{◌≡◌, ◌≤◌, ◌⊎◌, ◌*◌, ◌/◌, ◌-◌, ℕ, suc, true, false, List, [], ◌∷◌, ◌++◌, length, Option, Some};
ghost use Rattle.eoe.specs.declared.joining.Unfinished.{Unfinished};
ghost use Rattle.eoe.specs.Cutting.{fragments_of};
ghost use Rattle.eoe.specs.Joining.{joins, GivesWhole};
ghost use Rattle.exchange_model.specs.Areas.{Areas, AreMailboxes};
ghost use Rattle.exchange_model.specs.Exchange.{IsLawful, Before, Behind, after, given, plain, emitted};
ghost use Rattle.exchange_model.specs.Prefix.{IsPrefixOf};
ghost use Rattle.protocol_models.specs.EoeMails.{EoeMail, is_emission};
ghost use Rattle.protocol_models.specs.Network.{Network, IsSound, IsSpelled, is_ready};
ghost use Rattle.protocol_models.specs.EoeServer.{Server, serve};
ghost use Rattle.protocol_models.specs.EoeClient.{Service, is_service, is_handed, mails_of, meaning_of, ends};
ghost use Rattle.protocol_models.specs.EoeModel.{eoe_exchange};
ghost use Rattle.protocol_models.specs.EoeOctets.{eoe_mail_exchange};

/// EoE keeps the laws of an exchange: for each packet of 14 to 1,514 octets with any frame number, each address block and each pair of mailbox
/// lengths, and a server with any unfinished packet, over any sound application.
pub fn eoe_is_lawful<S>()
    ensures { (o : Network S) (areas : Areas) → IsSound o → AreMailboxes areas → IsLawful (eoe_exchange o areas) }
{}

/// The client's mails against the server, in plain words. All of them: the station is the one that the service means, one service more was
/// carried out, the emissions are its own, and an address service has the reply that it means, a packet none. A first part of them has carried
/// out nothing, or the whole service; one that lacks the last mail, as a packet without its last fragment, has carried out nothing. What the server
/// gives for a first part it gives first for all.
pub fn client_against_server<S>()
    ensures app { (o : Network S) (areas : Areas) → IsSound o → AreMailboxes areas → (v : Server S) (q : Service) → is_ready o v.station ≡ true → is_service q ≡ true →
        (after (serve o areas.back) v (mails_of areas.out q)).station ≡ (meaning_of o areas.back v.station q).station }
    ensures handled { (o : Network S) (areas : Areas) → IsSound o → AreMailboxes areas → (v : Server S) (q : Service) → is_ready o v.station ≡ true → is_service q ≡ true →
        (after (serve o areas.back) v (mails_of areas.out q)).handled ≡ suc v.handled }
    ensures emits { (o : Network S) (areas : Areas) → IsSound o → AreMailboxes areas → (v : Server S) (q : Service) → is_ready o v.station ≡ true → is_service q ≡ true →
        emitted is_emission (given (serve o areas.back) v (mails_of areas.out q)) ≡ (meaning_of o areas.back v.station q).emits }
    ensures reply { (o : Network S) (areas : Areas) → IsSound o → AreMailboxes areas → (v : Server S) (q : Service) → is_ready o v.station ≡ true → is_service q ≡ true →
        is_handed q ≡ false → ends q (plain is_emission (given (serve o areas.back) v (mails_of areas.out q))) ≡ Some (meaning_of o areas.back v.station q).reply }
    ensures silent { (o : Network S) (areas : Areas) → IsSound o → AreMailboxes areas → (v : Server S) (q : Service) → is_ready o v.station ≡ true → is_service q ≡ true →
        is_handed q ≡ true → plain is_emission (given (serve o areas.back) v (mails_of areas.out q)) ≡ [] }
    ensures part { (o : Network S) (areas : Areas) → IsSound o → AreMailboxes areas → (v : Server S) (q : Service) → is_ready o v.station ≡ true → is_service q ≡ true →
        (p r : List EoeMail) → mails_of areas.out q ≡ p ++ r → Before (eoe_exchange o areas) v p ⊎ Behind (eoe_exchange o areas) v q p }
    ensures late { (o : Network S) (areas : Areas) → IsSound o → AreMailboxes areas → (v : Server S) (q : Service) → is_service q ≡ true →
        (p r : List EoeMail) (m : EoeMail) → mails_of areas.out q ≡ p ++ m ∷ r → Before (eoe_exchange o areas) v p }
    ensures begins { (o : Network S) (areas : Areas) (v : Server S) (q : Service) (p r : List EoeMail) → mails_of areas.out q ≡ p ++ r →
        IsPrefixOf (given (serve o areas.back) v p) (given (serve o areas.back) v (mails_of areas.out q)) }
{}

/// The same over mailbox mails: each mail is written in its one spelling, and read by the grammar from whatever came. The application sends no
/// packet of more than 1,514 octets.
pub fn eoe_mails_are_lawful<S>()
    ensures { (o : Network S) (areas : Areas) → IsSound o → IsSpelled o → AreMailboxes areas → IsLawful (eoe_mail_exchange o areas) }
{}

/// A packet arrives as it was sent, from client or server: its fragments, cut for a mailbox of any length and taken in order, leave more to
/// come each, and the last one gives that packet, whatever was unfinished before.
pub fn packets_arrive()
    ensures { (before : Option Unfinished) (octets : List ℕ) (room frame : ℕ) → 14 ≤ length octets → length octets ≤ 1514 → 64 ≤ room →
        GivesWhole octets (joins before (fragments_of octets (32 * ((room - 10) / 32)) frame)) }
{}
