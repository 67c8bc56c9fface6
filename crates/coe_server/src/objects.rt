ghost use Rattle.std.specs.Prelude.{◌≡◌, ℕ, Bool, List, true};
ghost use Rattle.object_dictionary.specs.Dictionary.{Table};
ghost use Rattle.protocol_models.specs.of_exchange_model.Areas.{Areas};
ghost use Rattle.protocol_models.specs.of_exchange_model.Lifted.{EachOf};
ghost use Rattle.protocol_models.specs.of_mailbox_mail.declared.mail.Kind.TheVariants.{CoE};
ghost use Rattle.protocol_models.specs.Tables.{Tables, AreLawful};
ghost use Rattle.protocol_models.specs.CoeServer.{Server, coe_outcome};
ghost use Rattle.protocol_models.specs.CoeOctets.{AreSpelled, is_fragment, body_heard, mail_with, coe_mail_exchange};
ghost use Rattle.coe_server.specs.Serving.{Serving, transfer_of, outcome_of, served_of};
ghost use Rattle.coe_server.specs.ObjectTables.{tables_with, object_tables};

use crate::dictionary::{Dictionary, Question, Target};
use ec_fields::Transfer;
use object_dictionary::{Objects, SdoService};

impl Dictionary for Objects {
    ghost tables = { object_tables };

    fn check(&self, target: Target, size: u32, al: u8) -> Option<u32> {
        if target.all {
            self.check_download_all(target.index, target.sub, size, al)
        } else {
            self.check_download(target.index, target.sub, size, al)
        }
    }

    fn download(&mut self, target: Target, bytes: &[u8], al: u8) -> Option<u32> {
        if target.all {
            self.download_all(target.index, target.sub, bytes, al)
        } else {
            self.download(target.index, target.sub, bytes, al)
        }
    }

    fn upload(&self, target: Target, al: u8, into: &mut Transfer) -> Option<u32> {
        if target.all {
            self.upload_all(target.index, target.sub, al, into)
        } else {
            self.upload(target.index, target.sub, al, into)
        }
    }

    fn info(&self, question: Question, _al: u8, into: &mut Transfer) -> Option<u32> {
        let service = match question {
            Question::List { kind } => SdoService::List { kind },
            Question::Object { index } => SdoService::ObjectInfo { index },
            Question::Entry { index, sub, info } => SdoService::EntryInfo { index, sub, info },
        };
        self.info(&service, into)
    }
}

/// The object dictionary keeps the laws of a server's tables, at each AL state and however its slave's sender cuts packets: what the size
/// refuses is refused, values are no longer than a transfer, and a download leaves a dictionary as sound as it was.
pub fn objects_are_lawful()
    ensures { (cut : List ℕ → List (List ℕ)) (al : ℕ) → AreLawful (tables_with cut al) }
{}

/// Each of its answers has a spelling: abort codes of 32 bits, emergencies of 8 octets, and packets cut into fragments.
pub fn objects_are_spelled()
    ensures { (cut : List ℕ → List (List ℕ)) (al : ℕ) → ((octets : List ℕ) → EachOf (λ body. is_fragment body ≡ true) (cut octets)) → AreSpelled (tables_with cut al) }
{}

/// What `take` did with a mail's body is the step of the exchange of mails: the same objects, transfer and count, and the mails that `next`
/// then gives.
pub fn calls_are_the_exchange<S>()
    ensures { (o : Tables S) (areas : Areas) (v : Server S) (old new : Serving) (app : S) (counts : Bool) (body : List ℕ) → v.transfer ≡ transfer_of old → areas.back ≡ old.room →
        coe_outcome o old.eoe old.room v.app (transfer_of old) (body_heard body) ≡ outcome_of app new counts →
        (coe_mail_exchange o old.eoe areas).serve v (mail_with CoE body) ≡ served_of o app v.handled new counts }
{}
