//! SoE as a model: the server as what it does with one mail, the client's mails and the reply that the mails it hears complete, and the law
//! between them (ETG.1000.6, "SoE"). Elements are whole, mails are data, and nothing here runs: the functions do nothing, and their contracts
//! state the laws.

ghost use Rattle.std.specs.Prelude.{◌≡◌, ◌⊎◌, suc, true, false, List, [], ◌∷◌, ◌++◌, Some};
ghost use Rattle.exchange_model.specs.Areas.{Areas, AreMailboxes};
ghost use Rattle.exchange_model.specs.Prefix.{IsPrefixOf};
ghost use Rattle.exchange_model.specs.Exchange.{IsLawful, AnswersLast, Before, Behind, after, given};
ghost use Rattle.protocol_models.specs.Elements.{Elements, AreLawful};
ghost use Rattle.protocol_models.specs.SoeMails.{SoeMail};
ghost use Rattle.protocol_models.specs.SoeServer.{Server, serve};
ghost use Rattle.protocol_models.specs.SoeClient.{Service, is_service, mails_of, meaning_of, ends};
ghost use Rattle.protocol_models.specs.SoeModel.{is_ready, soe_exchange};
ghost use Rattle.protocol_models.specs.SoeOctets.{soe_mail_exchange};

/// SoE keeps the laws of an exchange: for each element that is read or written, with a value of up to 16,384 octets, each pair of mailbox
/// lengths, and a server without an unfinished join, over any lawful table of IDNs.
pub fn soe_is_lawful<S>()
    ensures { (o : Elements S) (areas : Areas) → AreLawful o → AreMailboxes areas → IsLawful (soe_exchange o areas) }
{}

/// The same over mailbox mails: each mail is written in its one spelling, and read by the grammar from whatever came.
pub fn soe_mails_are_lawful<S>()
    ensures { (o : Elements S) (areas : Areas) → AreLawful o → AreMailboxes areas → IsLawful (soe_mail_exchange o areas) }
{}

/// An element's service is answered at its last mail, so where all replies came, all mails were taken.
pub fn soe_answers_last<S>()
    ensures messages { (o : Elements S) (areas : Areas) → AreLawful o → AreMailboxes areas → AnswersLast (soe_exchange o areas) (λ q. false) }
    ensures octets { (o : Elements S) (areas : Areas) → AreLawful o → AreMailboxes areas → AnswersLast (soe_mail_exchange o areas) (λ q. false) }
{}

/// The client's mails against the server, in plain words. All of them: the table is the one that the service means, one service more was
/// carried out, and the answers are the reply that it means. A first part of them has carried out nothing, or the whole service; before the
/// last mail the server gives nothing.
pub fn client_against_server<S>()
    ensures app { (o : Elements S) (areas : Areas) → AreLawful o → AreMailboxes areas → (v : Server S) (q : Service) → is_ready o v ≡ true → is_service q ≡ true →
        (after (serve o areas.back) v (mails_of areas.out q)).app ≡ (meaning_of o v.app q).app }
    ensures handled { (o : Elements S) (areas : Areas) → AreLawful o → AreMailboxes areas → (v : Server S) (q : Service) → is_ready o v ≡ true → is_service q ≡ true →
        (after (serve o areas.back) v (mails_of areas.out q)).handled ≡ suc v.handled }
    ensures reply { (o : Elements S) (areas : Areas) → AreLawful o → AreMailboxes areas → (v : Server S) (q : Service) → is_ready o v ≡ true → is_service q ≡ true →
        ends q (given (serve o areas.back) v (mails_of areas.out q)) ≡ Some (meaning_of o v.app q).reply }
    ensures part { (o : Elements S) (areas : Areas) → AreLawful o → AreMailboxes areas → (v : Server S) (q : Service) → is_ready o v ≡ true → is_service q ≡ true →
        (p r : List SoeMail) → mails_of areas.out q ≡ p ++ r → Before (soe_exchange o areas) v p ⊎ Behind (soe_exchange o areas) v q p }
    ensures late { (o : Elements S) (areas : Areas) → AreLawful o → AreMailboxes areas → (v : Server S) (q : Service) → is_ready o v ≡ true → is_service q ≡ true →
        (p r : List SoeMail) (m : SoeMail) → mails_of areas.out q ≡ p ++ m ∷ r → given (serve o areas.back) v p ≡ [] }
    ensures begins { (o : Elements S) (areas : Areas) (v : Server S) (q : Service) (p r : List SoeMail) → mails_of areas.out q ≡ p ++ r →
        IsPrefixOf (given (serve o areas.back) v p) (given (serve o areas.back) v (mails_of areas.out q)) }
{}
