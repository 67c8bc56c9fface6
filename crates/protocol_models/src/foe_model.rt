//! FoE as a model: the server as what it does with one mail, the client's mails and the reply that the mails it hears complete, and the law
//! between them (ETG.1000.6, "File access over EtherCAT"). Files are whole, mails are data, and nothing here runs: the functions do nothing,
//! and their contracts state the law.

ghost use Rattle.std.specs.Prelude.{◌≡◌, ◌⊎◌, ℕ, suc, true, List, ◌++◌, Some};
ghost use Rattle.exchange_model.specs.Areas.{Areas, AreMailboxes};
ghost use Rattle.exchange_model.specs.Prefix.{IsPrefixOf};
ghost use Rattle.exchange_model.specs.Exchange.{IsLawful, AnswersLast, Before, Behind, after, given};
ghost use Rattle.protocol_models.specs.FoeMails.{FoeMail};
ghost use Rattle.protocol_models.specs.Files.{Files, AreLawful, AreSpelled};
ghost use Rattle.protocol_models.specs.FoeServer.{Server, serve};
ghost use Rattle.protocol_models.specs.FoeMeaning.{Service, is_file_read, meaning_of};
ghost use Rattle.protocol_models.specs.FoeClient.{ends};
ghost use Rattle.protocol_models.specs.FoeOctets.{foe_mail_exchange};
ghost use Rattle.protocol_models.specs.FoeModel.{full, foe_exchange};

/// FoE keeps the laws of an exchange: for each read and each write of 0 to 131,072 octets, with any number of busy answers and with files whose
/// room ends in mid-transfer, each pair of mailbox lengths, and a server with any unfinished transfer, over any lawful files.
pub fn foe_is_lawful<S>()
    ensures { (o : Files S) (areas : Areas) → AreLawful o → AreMailboxes areas → IsLawful (foe_exchange o areas) }
{}

/// The same over mailbox mails: each mail is written in its one spelling, and read by the grammar from whatever came. The files give codes of 32
/// bits and are busy fewer than 65,536 times.
pub fn foe_mails_are_lawful<S>()
    ensures { (o : Files S) (areas : Areas) → AreLawful o → AreSpelled o → AreMailboxes areas → IsLawful (foe_mail_exchange o areas) }
{}

/// Each mail of a write brings a reply, so where all replies came, all mails were taken. Of a read the acknowledgement of the last packet brings
/// none.
pub fn foe_answers_last<S>()
    ensures messages { (o : Files S) (areas : Areas) → AreLawful o → AreMailboxes areas → AnswersLast (foe_exchange o areas) is_file_read }
    ensures octets { (o : Files S) (areas : Areas) → AreLawful o → AreSpelled o → AreMailboxes areas → AnswersLast (foe_mail_exchange o areas) is_file_read }
{}

/// The client's mails against the server, in plain words. All of them: the files are those that the service means, one service more was carried
/// out, and the reply that the server's mails complete is the service's. A first part of them has carried out nothing, or the whole service, so a
/// file that is being written is the old one until it is the new one.
pub fn client_against_server<S>()
    ensures app { (o : Files S) (areas : Areas) → AreLawful o → AreMailboxes areas → (v : Server S) (q : Service) → o.valid v.app ≡ true →
        (after (serve o areas.out areas.back) v (full o areas v q)).app ≡ (meaning_of o v.app q).app }
    ensures handled { (o : Files S) (areas : Areas) → AreLawful o → AreMailboxes areas → (v : Server S) (q : Service) → o.valid v.app ≡ true →
        (after (serve o areas.out areas.back) v (full o areas v q)).handled ≡ suc v.handled }
    ensures reply { (o : Files S) (areas : Areas) → AreLawful o → AreMailboxes areas → (v : Server S) (q : Service) → o.valid v.app ≡ true →
        ends areas q (given (serve o areas.out areas.back) v (full o areas v q)) ≡ Some (meaning_of o v.app q).reply }
    ensures part { (o : Files S) (areas : Areas) → AreLawful o → AreMailboxes areas → (v : Server S) (q : Service) → o.valid v.app ≡ true → (p r : List FoeMail) →
        full o areas v q ≡ p ++ r → Before (foe_exchange o areas) v p ⊎ Behind (foe_exchange o areas) v q p }
    ensures begins { (o : Files S) (areas : Areas) (v : Server S) (q : Service) (p r : List FoeMail) → full o areas v q ≡ p ++ r →
        IsPrefixOf (given (serve o areas.out areas.back) v p) (given (serve o areas.out areas.back) v (full o areas v q)) }
{}
