ghost use Rattle.std.specs.Prelude.{◌≡◌, ◌≤◌, ◌<◌, ◌+◌, ◌-◌, true, length};
ghost use Rattle.protocol_models.specs.CoeServer.{parts_of};
ghost use Rattle.protocol_models.specs.CoeClient.{is_of};
ghost use Rattle.protocol_models.specs.CoeOctets.{body_heard, coe_mail_heard};
ghost use Rattle.coe_client.specs.Talk.{target_of, paced_with};
ghost use Rattle.protocol_models.specs.of_coe_codec.View.{coe_seen, IsWithin};
ghost use Rattle.coe_client.specs.Hear.{onward, refused, valued, answered, parted, hear_acceptance, hear_segment, hear_whole, hear_first, hear_part, hear_information, hear_abort, hear_error, hear_failed, hear_message, hear_mail, TookIs};

use crate::client::{CoeClient, MOST};
use crate::state::{Awaits, Task, Unsent};
use coe_codec::CoeView;
use ec_fields::u16_at;
use mailbox_mail::{Kind, Mail, ReplyKind, Took};

impl CoeClient {
    // The number of mails that may go, behind an answer that lets one more go.
    fn onward(&self) -> u32
        requires { self.now.quota < 16387 }
        ensures { result ≡ onward self.now }
    {
        if self.going {
            self.quota + 1
        } else {
            self.quota
        }
    }

    // The service is over, without a value.
    fn refused(&mut self, kind: ReplyKind) -> Took
        ensures { (result, self.new) ≡ refused self.old kind }
    {
        self.unsent = Unsent::Nothing;
        self.awaits = Awaits::Over(kind);
        self.value.clear();
        self.going = false;
        Took::Done
    }

    // The service is over with the value whose last octets these are.
    fn valued(&mut self, bytes: &[u8]) -> Took
        requires { length self.old.value + length bytes.now ≤ 16384 }
        ensures { (result, self.new) ≡ valued self.old bytes.now }
    {
        let _fits = self.value.add(bytes);
        self.unsent = Unsent::Nothing;
        self.awaits = Awaits::Over(ReplyKind::Value);
        self.going = false;
        Took::Done
    }

    // A download goes on with so many segments that are not yet answered.
    fn answered(&mut self, left: u32, toggle: bool) -> Took
        requires few { self.old.quota + 1 + left ≤ 16387 }
        requires empty { length self.old.value ≡ 0 }
        requires paced { 0 < left → paced_with self.old (onward self.old) (Awaits.SegmentAnswers left toggle) ≡ true }
        ensures { (result, self.new) ≡ answered self.old left toggle }
    {
        self.quota = self.onward();
        if left == 0 {
            self.unsent = Unsent::Nothing;
            self.awaits = Awaits::Over(ReplyKind::Done);
            return Took::Done;
        }
        self.awaits = Awaits::SegmentAnswers { left, toggle };
        Took::More
    }

    // Whether an answer names the entry that was asked for.
    fn is_asked(&self, index: u16, sub: u8) -> bool
        ensures { result ≡ is_of (target_of self.now.task) index sub }
    {
        match self.task {
            Task::Download {
                index: asked,
                sub: at,
                all: _,
            }
            | Task::Upload {
                index: asked,
                sub: at,
                all: _,
            } => index == asked && sub == at,
            Task::Nothing
            | Task::List { kind: _ }
            | Task::Object { index: _ }
            | Task::Entry {
                index: _,
                sub: _,
                info: _,
            } => index == 0 && sub == 0,
        }
    }

    // How many segments a download has behind its first mail.
    fn segments(&self) -> u32
        ensures count { result ≡ parts_of (self.now.room - 9) (length self.now.bytes - (self.now.room - 16)) }
        ensures few { result ≤ 16384 }
    {
        let part = self.room as usize - 9;
        let left = self
            .bytes
            .bytes()
            .len()
            .saturating_sub(self.room as usize - 16);
        ((left + part - 1) / part) as u32
    }

    fn hear_acceptance(&mut self, index: u16, sub: u8) -> Took
        ensures { (result, self.new) ≡ hear_acceptance self.old self.old.awaits index sub }
    {
        match self.awaits {
            Awaits::Acceptance => {
                if !self.is_asked(index, sub) {
                    return Took::Foreign;
                }
                let left = self.segments();
                self.answered(left, false)
            }
            Awaits::Nothing
            | Awaits::SegmentAnswers { left: _, toggle: _ }
            | Awaits::FirstAnswer
            | Awaits::Parts { size: _, toggle: _ }
            | Awaits::Information { opcode: _ }
            | Awaits::Over(_) => Took::Foreign,
        }
    }

    fn hear_segment(&mut self, toggle: bool) -> Took
        ensures { (result, self.new) ≡ hear_segment self.old self.old.awaits toggle }
    {
        match self.awaits {
            Awaits::SegmentAnswers {
                left,
                toggle: expected,
            } => {
                if expected != toggle {
                    return Took::Foreign;
                }
                self.answered(left - 1, !expected)
            }
            Awaits::Nothing
            | Awaits::Acceptance
            | Awaits::FirstAnswer
            | Awaits::Parts { size: _, toggle: _ }
            | Awaits::Information { opcode: _ }
            | Awaits::Over(_) => Took::Foreign,
        }
    }

    fn hear_whole(&mut self, index: u16, sub: u8, bytes: &[u8]) -> Took
        requires { length bytes.now ≤ 4 }
        ensures { (result, self.new) ≡ hear_whole self.old self.old.awaits index sub bytes.now }
    {
        match self.awaits {
            Awaits::FirstAnswer => {
                if !self.is_asked(index, sub) {
                    return Took::Foreign;
                }
                self.valued(bytes)
            }
            Awaits::Nothing
            | Awaits::Acceptance
            | Awaits::SegmentAnswers { left: _, toggle: _ }
            | Awaits::Parts { size: _, toggle: _ }
            | Awaits::Information { opcode: _ }
            | Awaits::Over(_) => Took::Foreign,
        }
    }

    // The parts of a value go on behind these octets.
    fn parted(&mut self, size: u32, toggle: bool, bytes: &[u8]) -> Took
        requires sized { size ≤ 16384 }
        requires fits { length self.old.value + length bytes.now ≤ size }
        requires few { self.old.quota + 1 + (size - (length self.old.value + length bytes.now)) ≤ 16387 }
        ensures { (result, self.new) ≡ parted self.old size toggle bytes.now }
    {
        let quota = self.onward();
        let _fits = self.value.add(bytes);
        self.quota = quota;
        self.awaits = Awaits::Parts { size, toggle };
        Took::More
    }

    fn hear_first(&mut self, index: u16, sub: u8, size: u32, bytes: &[u8]) -> Took
        ensures { (result, self.new) ≡ hear_first self.old self.old.awaits index sub size bytes.now }
    {
        match self.awaits {
            Awaits::FirstAnswer => {
                if !self.is_asked(index, sub)
                    || size as usize > MOST
                    || bytes.len() > size as usize
                {
                    return Took::Foreign;
                }
                if bytes.len() == size as usize {
                    return self.valued(bytes);
                }
                self.parted(size, false, bytes)
            }
            Awaits::Nothing
            | Awaits::Acceptance
            | Awaits::SegmentAnswers { left: _, toggle: _ }
            | Awaits::Parts { size: _, toggle: _ }
            | Awaits::Information { opcode: _ }
            | Awaits::Over(_) => Took::Foreign,
        }
    }

    fn hear_part(&mut self, toggle: bool, last: bool, bytes: &[u8]) -> Took
        requires { 1 ≤ length bytes.now }
        ensures { (result, self.new) ≡ hear_part self.old self.old.awaits toggle last bytes.now }
    {
        match self.awaits {
            Awaits::Parts {
                size,
                toggle: expected,
            } => {
                let left = size as usize - self.value.bytes().len();
                if expected != toggle || bytes.len() > left {
                    return Took::Foreign;
                }
                if !last {
                    return self.parted(size, !expected, bytes);
                }
                if bytes.len() != left {
                    return Took::Foreign;
                }
                self.valued(bytes)
            }
            Awaits::Nothing
            | Awaits::Acceptance
            | Awaits::SegmentAnswers { left: _, toggle: _ }
            | Awaits::FirstAnswer
            | Awaits::Information { opcode: _ }
            | Awaits::Over(_) => Took::Foreign,
        }
    }

    fn hear_information(&mut self, opcode: u8, incomplete: bool, bytes: &[u8]) -> Took
        ensures { (result, self.new) ≡ hear_information self.old self.old.awaits opcode incomplete bytes.now }
    {
        match self.awaits {
            Awaits::Information { opcode: expected } => {
                if opcode != expected || bytes.len() > MOST - self.value.bytes().len() {
                    return Took::Foreign;
                }
                if !incomplete {
                    return self.valued(bytes);
                }
                let _fits = self.value.add(bytes);
                self.going = false;
                Took::More
            }
            Awaits::Nothing
            | Awaits::Acceptance
            | Awaits::SegmentAnswers { left: _, toggle: _ }
            | Awaits::FirstAnswer
            | Awaits::Parts { size: _, toggle: _ }
            | Awaits::Over(_) => Took::Foreign,
        }
    }

    fn hear_abort(&mut self, code: u32) -> Took
        ensures { (result, self.new) ≡ hear_abort self.old self.old.awaits code }
    {
        match self.awaits {
            Awaits::Acceptance
            | Awaits::SegmentAnswers { left: _, toggle: _ }
            | Awaits::FirstAnswer
            | Awaits::Parts { size: _, toggle: _ } => self.refused(ReplyKind::Abort(code)),
            Awaits::Nothing | Awaits::Information { opcode: _ } | Awaits::Over(_) => Took::Foreign,
        }
    }

    fn hear_error(&mut self, code: u32) -> Took
        ensures { (result, self.new) ≡ hear_error self.old self.old.awaits code }
    {
        match self.awaits {
            Awaits::Information { opcode: _ } => self.refused(ReplyKind::Abort(code)),
            Awaits::Nothing
            | Awaits::Acceptance
            | Awaits::SegmentAnswers { left: _, toggle: _ }
            | Awaits::FirstAnswer
            | Awaits::Parts { size: _, toggle: _ }
            | Awaits::Over(_) => Took::Foreign,
        }
    }

    fn hear_failed(&mut self, detail: u16) -> Took
        ensures { (result, self.new) ≡ hear_failed self.old self.old.awaits detail }
    {
        match self.awaits {
            Awaits::Nothing | Awaits::Over(_) => Took::Foreign,
            Awaits::Acceptance
            | Awaits::SegmentAnswers { left: _, toggle: _ }
            | Awaits::FirstAnswer
            | Awaits::Parts { size: _, toggle: _ }
            | Awaits::Information { opcode: _ } => self.refused(ReplyKind::MailboxError(detail)),
        }
    }

    fn hear_message(&mut self, message: CoeView<'_>) -> Took
        requires { IsWithin message }
        ensures { (result, self.new) ≡ hear_message self.old (coe_seen message.entry) }
    {
        match message {
            CoeView::DownloadAnswer { index, sub } => self.hear_acceptance(index, sub),
            CoeView::SegmentAnswer { toggle } => self.hear_segment(toggle),
            CoeView::ExpeditedAnswer { index, sub, bytes } => self.hear_whole(index, sub, bytes),
            CoeView::FirstAnswer {
                index,
                sub,
                size,
                bytes,
            } => self.hear_first(index, sub, size, bytes),
            CoeView::UploadSegmentAnswer {
                toggle,
                last,
                bytes,
            } => self.hear_part(toggle, last, bytes),
            CoeView::Information {
                opcode,
                incomplete,
                left: _,
                bytes,
            } => self.hear_information(opcode, incomplete, bytes),
            CoeView::Abort {
                index: _,
                sub: _,
                code,
            } => self.hear_abort(code),
            CoeView::InformationError { code } => self.hear_error(code),
            CoeView::Emergency { octets: _ }
            | CoeView::Expedited {
                index: _,
                sub: _,
                all: _,
                bytes: _,
            }
            | CoeView::First {
                index: _,
                sub: _,
                all: _,
                size: _,
                bytes: _,
            }
            | CoeView::Upload {
                index: _,
                sub: _,
                all: _,
            }
            | CoeView::Segment {
                toggle: _,
                last: _,
                bytes: _,
            }
            | CoeView::UploadSegment { toggle: _ }
            | CoeView::ListRequest { kind: _ }
            | CoeView::ObjectRequest { index: _ }
            | CoeView::EntryRequest {
                index: _,
                sub: _,
                info: _,
            } => Took::Foreign,
        }
    }

    // A CoE body: the message in it, if it is one.
    fn hear_body(&mut self, body: &[u8]) -> Took
        requires { length body.now ≤ 1480 }
        ensures { (result, self.new) ≡ hear_mail self.old (body_heard body.now) }
    {
        match coe_codec::view(body) {
            Ok(message) => self.hear_message(message),
            Err(_) => Took::Foreign,
        }
    }

    fn hear_mail(&mut self, mail: &Mail) -> Took
        ensures { (result, self.new) ≡ hear_mail self.old (coe_mail_heard mail.now) }
    {
        let body = mail.body.as_slice();
        match mail.kind {
            Kind::CoE => self.hear_body(body),
            Kind::Error => {
                if body.len() < 4 || u16_at(body, 0) != 1 {
                    return Took::Foreign;
                }
                self.hear_failed(u16_at(body, 2))
            }
            Kind::AoE | Kind::EoE | Kind::FoE | Kind::SoE | Kind::VoE => Took::Foreign,
        }
    }

    /// Takes a mail that came from the slave. `Done` where it completes the reply of the service, and then nothing is left to send; `More` where it is awaited and the reply isn't
    /// complete yet, `Foreign` where it is none that may come next; then the client is unchanged (ETG.1000.6, "CANopen over EtherCAT").
    pub fn take(&mut self, mail: &Mail) -> Took
        ensures { TookIs result self.old (coe_mail_heard mail.now) self.new }
    {
        // What the type keeps of its fields is wanted in the proof: reading one brings it there.
        let _ = &self.awaits;
        self.hear_mail(mail)
    }
}
