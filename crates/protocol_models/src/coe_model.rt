//! CoE as a model: the server as what it does with one mail, the client's mails and the reply that the mails it hears complete, and the law
//! between them (ETG.1000.6, "CANopen over EtherCAT"; CiA 301, "SDO protocol"). Values are whole, mails are data, and nothing here runs: the
//! functions do nothing, and their contracts state the law.

ghost use Rattle.std.specs.Prelude.{◌≡◌, ◌⊎◌, ℕ, suc, Bool, true, List, [], ◌∷◌, ◌++◌, Some};
ghost use Rattle.exchange_model.specs.Areas.{Areas, AreMailboxes};
ghost use Rattle.exchange_model.specs.Prefix.{IsPrefixOf};
ghost use Rattle.exchange_model.specs.Exchange.{IsLawful, Before, Behind, after, given, plain, emitted};
ghost use Rattle.protocol_models.specs.CoeMails.{CoeMail, is_emission};
ghost use Rattle.protocol_models.specs.Tables.{Tables, AreLawful};
ghost use Rattle.protocol_models.specs.CoeServer.{Server, serve};
ghost use Rattle.protocol_models.specs.CoeMeaning.{Service, meaning_of};
ghost use Rattle.protocol_models.specs.CoeClient.{ends};
ghost use Rattle.protocol_models.specs.CoeOctets.{AreSpelled, coe_mail_exchange};
ghost use Rattle.protocol_models.specs.CoeModel.{planned, full, coe_exchange};

/// CoE keeps the laws of an exchange: for each service, value and size, each pair of mailbox lengths, and a server with any unfinished SDO
/// transfer, over any lawful tables.
pub fn coe_is_lawful<S>()
    ensures { (o : Tables S) (eoe : Bool) (areas : Areas) → AreLawful o → AreMailboxes areas → IsLawful (coe_exchange o eoe areas) }
{}

/// The same over mailbox mails: each mail is written in its one spelling, and read by the grammar from whatever came. The tables give codes of
/// 32 bits and emergencies of 8 octets.
pub fn coe_mails_are_lawful<S>()
    ensures { (o : Tables S) (eoe : Bool) (areas : Areas) → AreLawful o → AreSpelled o → AreMailboxes areas → IsLawful (coe_mail_exchange o eoe areas) }
{}

/// The client's mails against the server, in plain words. All of them: the reply that the server's mails complete is the one that the service
/// means, the tables are those that it means, one service more was carried out, and the emissions are its own.
pub fn client_against_server<S>()
    ensures app { (o : Tables S) (eoe : Bool) (areas : Areas) → AreLawful o → AreMailboxes areas → (v : Server S) (q : Service) → o.valid v.app ≡ true →
        (after (serve o eoe areas.back) v (full o eoe areas v q)).app ≡ (meaning_of o eoe v.app q).app }
    ensures handled { (o : Tables S) (eoe : Bool) (areas : Areas) → AreLawful o → AreMailboxes areas → (v : Server S) (q : Service) → o.valid v.app ≡ true →
        (after (serve o eoe areas.back) v (full o eoe areas v q)).handled ≡ suc v.handled }
    ensures reply { (o : Tables S) (eoe : Bool) (areas : Areas) → AreLawful o → AreMailboxes areas → (v : Server S) (q : Service) → o.valid v.app ≡ true →
        ends areas.out q (plain is_emission (given (serve o eoe areas.back) v (full o eoe areas v q))) ≡ Some (meaning_of o eoe v.app q).reply }
    ensures emits { (o : Tables S) (eoe : Bool) (areas : Areas) → AreLawful o → AreMailboxes areas → (v : Server S) (q : Service) → o.valid v.app ≡ true →
        emitted is_emission (given (serve o eoe areas.back) v (full o eoe areas v q)) ≡ (meaning_of o eoe v.app q).emits }
    // a first part of the mails has carried out nothing, or the whole service, and what it brings is a first part of what all bring
    ensures part { (o : Tables S) (eoe : Bool) (areas : Areas) → AreLawful o → AreMailboxes areas → (v : Server S) (q : Service) → o.valid v.app ≡ true → (p r : List CoeMail) →
        full o eoe areas v q ≡ p ++ r → Before (coe_exchange o eoe areas) v p ⊎ Behind (coe_exchange o eoe areas) v q p }
    ensures begins { (o : Tables S) (eoe : Bool) (areas : Areas) (v : Server S) (q : Service) (p r : List CoeMail) → full o eoe areas v q ≡ p ++ r →
        IsPrefixOf (given (serve o eoe areas.back) v p) (given (serve o eoe areas.back) v (full o eoe areas v q)) }
    // a client that has heard all replies to a first part of them has the next one to send, until it has sent all
    ensures goes_on { (o : Tables S) (eoe : Bool) (areas : Areas) → AreLawful o → AreMailboxes areas → (v : Server S) (q : Service) → o.valid v.app ≡ true → (p : List CoeMail) (m : CoeMail) (r : List CoeMail) →
        full o eoe areas v q ≡ p ++ m ∷ r → IsPrefixOf (p ++ m ∷ []) (planned areas.out q (plain is_emission (given (serve o eoe areas.back) v p))) }
{}
