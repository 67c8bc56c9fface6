ghost use Rattle.std.specs.Prelude.{◌≡◌, ℕ, Bool, List};
ghost use Rattle.protocol_models.specs.of_exchange_model.Areas.{Areas, AreMailboxes};
ghost use Rattle.protocol_models.specs.of_exchange_model.Exchange.{IsLawful};
ghost use Rattle.file_store.specs.Files.{Kept};
ghost use Rattle.file_store.specs.Stored.{Stored};
ghost use Rattle.protocol_models.specs.Files.{Files, AreLawful, AreSpelled};
ghost use Rattle.protocol_models.specs.FoeServer.{Server, foe_outcome};
ghost use Rattle.protocol_models.specs.FoeOctets.{body_heard, mail_with, foe_mail_exchange};
ghost use Rattle.protocol_models.specs.of_mailbox_mail.declared.mail.Kind.TheVariants.{FoE};
ghost use Rattle.foe_server.specs.Stores.{store_files};
ghost use Rattle.foe_server.specs.Serving.{Serving, transfer_of, outcome_of, served_of};

/// The files of a store, at each AL state, are such as the exchange between FoE client and server speaks of; so over a store, reads and writes
/// keep the laws of an exchange of mailbox mails.
pub fn store_files_are_lawful()
    ensures lawful { (al : ℕ) → AreLawful (store_files al) }
    ensures spelled { (al : ℕ) → AreSpelled (store_files al) }
    ensures exchange { (al : ℕ) (areas : Areas) → AreMailboxes areas → IsLawful (foe_mail_exchange (store_files al) areas) }
{}

/// What `take` did with a mail's body is the step of the exchange of mails: the same files, transfer and count, and the mail that `next` then
/// gives. It holds of the files of a store however they are asked, so at each AL state.
pub fn calls_are_the_exchange()
    ensures { (o : Files Kept) (areas : Areas) (v : Server Kept) (old new : Serving) (before behind : Stored) (counts : Bool) (body : List ℕ) →
        v.app ≡ before.kept → v.transfer ≡ transfer_of old before → areas.out ≡ old.out → areas.back ≡ old.back →
        foe_outcome o old.out old.back before.kept (transfer_of old before) (body_heard body) ≡ outcome_of behind new counts →
        (foe_mail_exchange o areas).serve v (mail_with FoE body) ≡ served_of behind v.handled new counts }
{}
