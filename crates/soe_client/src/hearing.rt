ghost use Rattle.std.specs.Prelude.{◌≡◌, ◌≤◌, ◌+◌, length};
ghost use Rattle.soe_parts.specs.of_soe_codec.View.{soe_seen};
ghost use Rattle.soe_parts.specs.of_protocol_models.SoeClient.{is_answer, is_refusal};
ghost use Rattle.soe_parts.specs.of_protocol_models.SoeOctets.{body_heard, soe_mail_heard};
ghost use Rattle.soe_parts.specs.Parts.{subject_view};
ghost use Rattle.soe_client.specs.Talk.{about};
ghost use Rattle.soe_client.specs.Hear.{closed, valued, hear_refusal, hear_part, hear_answer, hear_message, hear_failed, hear_mail, TookIs};

use crate::client::SoeClient;
use crate::state::{Awaits, Unsent};
use ec_fields::u16_at;
use mailbox_mail::{Kind, Mail, ReplyKind, Took};
use soe_codec::{READ_ANSWER, SoeView, WRITE_ANSWER};
use soe_parts::{MOST, Subject};

// Whether a message is an answer of this opcode about this subject.
fn is_answer(opcode: u8, subject: Subject, message: SoeView<'_>) -> bool
    ensures { result ≡ is_answer opcode (subject_view subject) (soe_seen message.entry) }
{
    message.opcode == opcode
        && message.drive == subject.drive
        && message.elements == subject.elements
        && (message.incomplete || message.field == subject.idn)
}

// Whether it is a refusal, with a code.
fn is_refusal(opcode: u8, subject: Subject, message: SoeView<'_>) -> bool
    ensures { result ≡ is_refusal opcode (subject_view subject) (soe_seen message.entry) }
{
    message.error
        && !message.incomplete
        && message.bytes.len() >= 2
        && is_answer(opcode, subject, message)
}

impl SoeClient {
    // The service is over, without a value.
    fn close(&mut self, kind: ReplyKind) -> Took
        ensures { (result, self.new) ≡ closed self.old kind }
    {
        self.awaits = Awaits::Over(kind);
        self.value.clear();
        self.unsent = Unsent::Nothing;
        Took::Done
    }

    // The service is over with the value whose last octets these are.
    fn valued(&mut self, bytes: &[u8]) -> Took
        requires { length self.old.value + length bytes.now ≤ 16384 }
        ensures { (result, self.new) ≡ valued self.old bytes.now }
    {
        let _fits = self.value.add(bytes);
        self.awaits = Awaits::Over(ReplyKind::Value);
        self.unsent = Unsent::Nothing;
        Took::Done
    }

    // A message in the place of an answer of this opcode.
    fn hear_refusal(&mut self, opcode: u8, message: SoeView<'_>) -> Took
        ensures { (result, self.new) ≡ hear_refusal self.old opcode (soe_seen message.entry) }
    {
        if !is_refusal(opcode, self.subject(), message) {
            return Took::Foreign;
        }
        self.close(ReplyKind::SoeError(u16_at(message.bytes, 0)))
    }

    // A message while parts of an element are awaited.
    fn hear_part(&mut self, message: SoeView<'_>) -> Took
        ensures { (result, self.new) ≡ hear_part self.old (soe_seen message.entry) }
    {
        let bytes = message.bytes;
        if message.error || !is_answer(READ_ANSWER, self.subject(), message) {
            return self.hear_refusal(READ_ANSWER, message);
        }
        if bytes.len() > MOST - self.value.bytes().len() {
            return Took::Foreign;
        }
        if !message.incomplete {
            return self.valued(bytes);
        }
        let _fits = self.value.add(bytes);
        Took::More
    }

    // A message while the answer to a write is awaited.
    fn hear_answer(&mut self, message: SoeView<'_>) -> Took
        ensures { (result, self.new) ≡ hear_answer self.old (soe_seen message.entry) }
    {
        let subject = self.subject();
        if message.error || message.incomplete || !is_answer(WRITE_ANSWER, subject, message) {
            return self.hear_refusal(WRITE_ANSWER, message);
        }
        self.close(ReplyKind::Done)
    }

    fn hear_message(&mut self, message: SoeView<'_>) -> Took
        ensures { (result, self.new) ≡ hear_message self.old self.old.awaits (soe_seen message.entry) }
    {
        match self.awaits {
            Awaits::Parts => self.hear_part(message),
            Awaits::Answer => self.hear_answer(message),
            Awaits::Nothing | Awaits::Over(_) => Took::Foreign,
        }
    }

    fn hear_failed(&mut self, detail: u16) -> Took
        ensures { (result, self.new) ≡ hear_failed self.old self.old.awaits detail }
    {
        match self.awaits {
            Awaits::Parts | Awaits::Answer => self.close(ReplyKind::MailboxError(detail)),
            Awaits::Nothing | Awaits::Over(_) => Took::Foreign,
        }
    }

    // An SoE body: the message in it, if it is one.
    fn hear_body(&mut self, body: &[u8]) -> Took
        requires { length body.now ≤ 1480 }
        ensures { (result, self.new) ≡ hear_mail self.old (body_heard body.now) }
    {
        match soe_codec::view(body) {
            Ok(message) => self.hear_message(message),
            Err(_) => Took::Foreign,
        }
    }

    fn hear_mail(&mut self, mail: &Mail) -> Took
        ensures { (result, self.new) ≡ hear_mail self.old (soe_mail_heard mail.now) }
    {
        let body = mail.body.as_slice();
        match mail.kind {
            Kind::SoE => self.hear_body(body),
            Kind::Error => {
                if body.len() < 4 || u16_at(body, 0) != 1 {
                    return Took::Foreign;
                }
                self.hear_failed(u16_at(body, 2))
            }
            Kind::AoE | Kind::EoE | Kind::CoE | Kind::FoE | Kind::VoE => Took::Foreign,
        }
    }

    /// Takes a mail that came from the slave. `Done` where it completes the reply of the service, and then no mail is left to send; `More` where
    /// it is awaited and the reply isn't complete yet; `Foreign` where it is none that may come next, and then the client is unchanged
    /// (ETG.1000.6, "SoE").
    pub fn take(&mut self, mail: &Mail) -> Took
        ensures { TookIs result self.old (soe_mail_heard mail.now) self.new }
    {
        // A field is named so that the proof has what holds of the fields.
        let _ = &self.awaits;
        self.hear_mail(mail)
    }
}
