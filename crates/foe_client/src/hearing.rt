ghost use Rattle.std.specs.Prelude.{◌≡◌, ◌≤◌, length};
ghost use Rattle.protocol_models.specs.of_foe_codec.View.{foe_seen};
ghost use Rattle.protocol_models.specs.FoeOctets.{body_heard, foe_mail_heard};
ghost use Rattle.foe_client.specs.Hear.{onward, refused, hear_data, hear_ack, hear_busy, hear_refusal, hear_message, hear_mail, TookIs};

use crate::client::{FoeClient, HEADER, MOST};
use crate::state::{Awaits, Unsent};
use ec_fields::u16_at;
use foe_codec::FoeView;
use mailbox_mail::{Kind, Mail, ReplyKind, Took};

impl FoeClient {
    // The number of mails that may go, behind an answer that lets one more go.
    fn onward(&self) -> u64
        ensures { result ≡ onward self.now.quota }
    {
        if self.quota == u64::MAX {
            self.quota
        } else {
            self.quota + 1
        }
    }

    // The service is over, without a value; no mail may go any more.
    fn refused(&mut self, kind: ReplyKind) -> Took
        ensures { (result, self.new) ≡ refused self.old kind }
    {
        self.awaits = Awaits::Over(kind);
        self.value.clear();
        self.quota = 0;
        Took::Done
    }

    fn hear_data(&mut self, packet: u32, bytes: &[u8]) -> Took
        ensures { (result, self.new) ≡ hear_data self.old self.old.awaits packet bytes.now }
    {
        match self.awaits {
            Awaits::Packet { number } => {
                if packet != number || bytes.len() > MOST - self.value.bytes().len() {
                    return Took::Foreign;
                }
                let last = bytes.len() < (self.back as usize) - HEADER;
                let _fits = self.value.add(bytes);
                if last {
                    self.awaits = Awaits::Over(ReplyKind::Value);
                    self.unsent = Unsent::Ack { number: packet };
                    self.quota = 1;
                    return Took::Done;
                }
                self.quota += 1;
                self.awaits = Awaits::Packet { number: number + 1 };
                Took::More
            }
            Awaits::Nothing | Awaits::Ack { left: _, number: _ } | Awaits::Over(_) => Took::Foreign,
        }
    }

    fn hear_ack(&mut self, packet: u32) -> Took
        ensures { (result, self.new) ≡ hear_ack self.old self.old.awaits packet }
    {
        match self.awaits {
            Awaits::Ack { left, number } => {
                if packet != number {
                    return Took::Foreign;
                }
                if left == 0 {
                    self.awaits = Awaits::Over(ReplyKind::Done);
                    self.quota = 0;
                    return Took::Done;
                }
                self.quota = self.onward();
                self.awaits = Awaits::Ack {
                    left: left - 1,
                    number: number + 1,
                };
                Took::More
            }
            Awaits::Nothing | Awaits::Packet { number: _ } | Awaits::Over(_) => Took::Foreign,
        }
    }

    fn hear_busy(&mut self) -> Took
        ensures { (result, self.new) ≡ hear_busy self.old self.old.awaits }
    {
        match self.awaits {
            Awaits::Ack { left, number: _ } => {
                if left != 0 {
                    return Took::Foreign;
                }
                self.quota = self.onward();
                Took::More
            }
            Awaits::Nothing | Awaits::Packet { number: _ } | Awaits::Over(_) => Took::Foreign,
        }
    }

    fn hear_refusal(&mut self, kind: ReplyKind) -> Took
        ensures { (result, self.new) ≡ hear_refusal self.old self.old.awaits kind }
    {
        match self.awaits {
            Awaits::Packet { number: _ } | Awaits::Ack { left: _, number: _ } => self.refused(kind),
            Awaits::Nothing | Awaits::Over(_) => Took::Foreign,
        }
    }

    fn hear_message(&mut self, message: FoeView<'_>) -> Took
        ensures { (result, self.new) ≡ hear_message self.old (foe_seen message.entry) }
    {
        match message {
            FoeView::Data { packet, bytes } => self.hear_data(packet, bytes),
            FoeView::Ack { packet } => self.hear_ack(packet),
            FoeView::Busy { done: _, entire: _ } => self.hear_busy(),
            FoeView::Error { code } => self.hear_refusal(ReplyKind::FoeError(code)),
            FoeView::Read { pass: _, name: _ } | FoeView::Write { pass: _, name: _ } => {
                Took::Foreign
            }
        }
    }

    // An FoE body: the message in it, if it is one.
    fn hear_body(&mut self, body: &[u8]) -> Took
        requires { length body.now ≤ 1480 }
        ensures { (result, self.new) ≡ hear_mail self.old (body_heard body.now) }
    {
        match foe_codec::view(body) {
            Ok(message) => self.hear_message(message),
            Err(_) => Took::Foreign,
        }
    }

    fn hear_mail(&mut self, mail: &Mail) -> Took
        ensures { (result, self.new) ≡ hear_mail self.old (foe_mail_heard mail.now) }
    {
        let body = mail.body.as_slice();
        match mail.kind {
            Kind::FoE => self.hear_body(body),
            Kind::Error => {
                if body.len() < 4 || u16_at(body, 0) != 1 {
                    return Took::Foreign;
                }
                self.hear_refusal(ReplyKind::MailboxError(u16_at(body, 2)))
            }
            Kind::AoE | Kind::EoE | Kind::CoE | Kind::SoE | Kind::VoE => Took::Foreign,
        }
    }

    /// Takes a mail that came from the slave. `Done` where it completes the reply of the service, and then no mail is left to send but the
    /// acknowledgement of a file's last packet; `More` where it is awaited and the reply isn't complete yet; `Foreign` where it is none that may
    /// come next, and then the client is unchanged (ETG.1000.6, "File access over EtherCAT").
    pub fn take(&mut self, mail: &Mail) -> Took
        ensures { TookIs result self.old (foe_mail_heard mail.now) self.new }
    {
        // A field is named so that the proof has what holds of the fields.
        let _ = &self.awaits;
        self.hear_mail(mail)
    }
}
