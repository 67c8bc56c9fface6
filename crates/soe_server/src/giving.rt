ghost use Rattle.std.specs.Prelude.{◌≡◌, ◌≢◌, ◌≤◌, ◌+◌, ◌↔◌, [], false, true, length};
ghost use Rattle.soe_parts.specs.Parts.{IsFirst};
ghost use Rattle.soe_server.specs.Serving.{join_of, waiting_mails, is_message, GivesNext};

use crate::server::SoeServer;
use crate::state::Pending;
use arrayvec::ArrayVec;
use mailbox_mail::{Kind, Mail, error_mail};
use soe_codec::{READ_ANSWER, WRITE_ANSWER};
use soe_parts::{Subject, write_message, write_part, write_refusal};

impl SoeServer {
    /// Whether a mail waits.
    pub fn waiting(&self) -> bool
        ensures { result ≡ false ↔ (waiting_mails self.now ≡ []) }
    {
        // A field is named so that the proof has what holds of the fields.
        let _ = &self.room;
        match self.pending {
            Pending::Nothing => false,
            Pending::Written { subject: _ }
            | Pending::Refused {
                opcode: _,
                subject: _,
                code: _,
            }
            | Pending::Failed { detail: _ }
            | Pending::Parts {
                subject: _,
                from: _,
            } => true,
        }
    }

    // Writes the next part of an element.
    fn write_part(&mut self, subject: Subject, from: u32, body: &mut ArrayVec<u8, 1480>)
        requires { self.old.pending ≡ Pending.Parts subject from }
        ensures first { IsFirst (waiting_mails self.old) body.new.items (waiting_mails self.new) }
        ensures same { self.new ≡ record self.old { pending = self.new.pending } }
        ensures short { length body.new.items + 6 ≤ self.old.room }
    {
        let told = self.told.bytes();
        self.pending = match write_part(READ_ANSWER, subject, self.room, told, from, body) {
            Some(next) => Pending::Parts {
                subject,
                from: next,
            },
            None => Pending::Nothing,
        };
    }

    // Writes the message that waits, in place of what the body held.
    fn write_next(&mut self, body: &mut ArrayVec<u8, 1480>)
        requires { is_message self.old.pending ≡ true }
        ensures first { IsFirst (waiting_mails self.old) body.new.items (waiting_mails self.new) }
        ensures same { self.new ≡ record self.old { pending = self.new.pending } }
        ensures short { length body.new.items + 6 ≤ self.old.room }
    {
        match self.pending {
            Pending::Nothing | Pending::Failed { detail: _ } => unreachable!(),
            Pending::Parts { subject, from } => return self.write_part(subject, from, body),
            Pending::Written { subject } => write_message(WRITE_ANSWER, subject, body),
            Pending::Refused {
                opcode,
                subject,
                code,
            } => write_refusal(opcode, subject, code, body),
        }
        self.pending = Pending::Nothing;
    }

    /// Gives the next of the mails that wait, to nobody and not yet counted, in place of the mail that stood there. It fits the mailbox for
    /// answers.
    pub fn next_into(&mut self, mail: &mut Mail)
        requires { waiting_mails self.old ≢ [] }
        ensures next { GivesNext self.old mail.new self.new }
        ensures fits { length mail.new.body.items + 6 ≤ self.old.room }
        ensures join { join_of self.new ≡ join_of self.old }
        ensures room { self.new.room ≡ self.old.room }
    {
        if let Pending::Failed { detail } = self.pending {
            self.pending = Pending::Nothing;
            *mail = error_mail(detail);
            return;
        }
        mail.address = 0;
        mail.kind = Kind::SoE;
        mail.counter = 0;
        self.write_next(&mut mail.body);
    }

    /// Gives the next of the mails that wait, to nobody and not yet counted. Each fits the mailbox for answers.
    pub fn next(&mut self) -> Mail
        requires { waiting_mails self.old ≢ [] }
        ensures next { GivesNext self.old result self.new }
        ensures fits { length result.body.items + 6 ≤ self.old.room }
        ensures join { join_of self.new ≡ join_of self.old }
        ensures room { self.new.room ≡ self.old.room }
    {
        let mut mail = Mail {
            address: 0,
            kind: Kind::SoE,
            counter: 0,
            body: ArrayVec::new(),
        };
        self.next_into(&mut mail);
        mail
    }
}
