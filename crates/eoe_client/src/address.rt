ghost use Rattle.std.specs.Prelude.{◌≡◌, ◌≤◌, ◌+◌, ◌↔◌, List, [], ◌++◌, true, false, length, None, Some, OnOk, OnErr};
ghost use Rattle.std.specs.Bool.{OnTrue, OnFalse};
ghost use Rattle.protocol_models.specs.EoeMails.{EoeMail};
ghost use Rattle.protocol_models.specs.EoeClient.{set_ip, get_ip, mails_of, ends};
ghost use Rattle.protocol_models.specs.EoeOctets.{eoe_mail_heard, heard};
ghost use Rattle.protocol_models.specs.of_eoe.Message.{eoe_read};
ghost use Rattle.eoe_client.specs.Talk.{left, awaited, awaits_nothing, SendsNext};
ghost use Rattle.eoe_client.specs.Hear.{closed, hear_set, hear_get, hear_failed, hear_mail, TookIs};

use arrayvec::ArrayVec;
use ec_fields::{NoMemory, Octets, refill, u16_at};
use eoe::{Block, EoeView};
use mailbox_mail::{Kind, Mail, ReplyKind, Took};
use std::marker::Model;

/// What of a service is not yet sent.
#[derive(Clone, Copy)]
pub enum Unsent {
    Nothing,
    /// The request to set the address block.
    Set,
    /// The request for the address block.
    Get,
}

/// What answer comes next.
#[derive(Clone, Copy)]
pub enum Awaits {
    Nothing,
    /// The answer to a set.
    SetAnswer,
    /// The answer to a get.
    GetAnswer,
    /// None: the service is over.
    Over(ReplyKind),
}

/// A client for one address service at a time. It takes no memory.
#[derive(Drop)]
pub struct AddressClient {
    pub(crate) room: u16,
    pub(crate) block: Block,
    pub(crate) unsent: Unsent,
    pub(crate) awaits: Awaits,
    pub(crate) value: Block,
}

impl Model for AddressClient {
    ghost use Rattle.std.specs.Prelude.{◌≤◌, ◌+◌, length};
    ghost use Rattle.eoe_client.specs.Talk.{Talking};

    ghost Value = { Talking };

    ghost view = { λ c. record { room = c.room; block = c.block.items; unsent = c.unsent; awaits = c.awaits; value = c.value.items } };

    ghost invariant = { λ c. length c.block.items + 10 ≤ c.room };
}

impl AddressClient {
    /// A client of a slave whose mailbox for requests has this length.
    pub fn new(room: u16) -> AddressClient
        requires { 64 ≤ room }
        ensures idle { (ms : List EoeMail) → awaited result ms ≡ None }
        ensures silent { left result ≡ [] }
        ensures room { result.room ≡ room }
    {
        AddressClient {
            room,
            block: Block::new(),
            unsent: Unsent::Nothing,
            awaits: Awaits::Nothing,
            value: Block::new(),
        }
    }

    /// Begins to set the address block, in place of the service before. The client then has the request to send.
    pub fn start_set(&mut self, block: &[u8])
        requires short { length block.now ≤ 1476 }
        requires fits { length block.now + 10 ≤ self.old.room }
        ensures replies { (ms : List EoeMail) → awaited self.new ms ≡ ends (set_ip block.now) ms }
        ensures mails { left self.new ≡ mails_of self.old.room (set_ip block.now) }
        ensures room { self.new.room ≡ self.old.room }
    {
        refill(&mut self.block, block);
        self.value.clear();
        self.unsent = Unsent::Set;
        self.awaits = Awaits::SetAnswer;
    }

    /// Begins to read the address block, in place of the service before. The client then has the request to send.
    pub fn start_get(&mut self)
        ensures replies { (ms : List EoeMail) → awaited self.new ms ≡ ends get_ip ms }
        ensures mails { left self.new ≡ mails_of self.old.room get_ip }
        ensures room { self.new.room ≡ self.old.room }
    {
        self.block.clear();
        self.value.clear();
        self.unsent = Unsent::Get;
        self.awaits = Awaits::GetAnswer;
    }

    /// Whether a mail is left to send.
    pub fn has_next(&self) -> bool
        ensures { result ≡ false ↔ (left self.now ≡ []) }
    {
        match self.unsent {
            Unsent::Nothing => false,
            Unsent::Set | Unsent::Get => true,
        }
    }

    /// Puts the body of the next mail in place of what `body` has. `false` where the client has no mail left; then nothing changed. The body
    /// fits the mailbox that requests go through.
    pub fn next_mail(&mut self, body: &mut ArrayVec<u8, 1480>) -> bool
        ensures sends { OnTrue result (SendsNext self.old body.new.items self.new) }
        ensures fits { OnTrue result (length body.new.items + 6 ≤ self.old.room) }
        ensures waits { OnFalse result (left self.old ≡ []) }
        ensures same { OnFalse result ((self.new ≡ self.old) × (body.new ≡ body.old)) }
        ensures replies { (ms : List EoeMail) → awaited self.new ms ≡ awaited self.old ms }
    {
        match self.unsent {
            Unsent::Nothing => return false,
            Unsent::Set => eoe::write_view(EoeView::SetIp(self.block.as_slice()), body),
            Unsent::Get => eoe::write_view(EoeView::GetIp, body),
        }
        self.unsent = Unsent::Nothing;
        true
    }

    // The service is over with this reply.
    fn close(&mut self, kind: ReplyKind, value: &[u8]) -> Took
        requires { length value.now ≤ 1476 }
        ensures { (result, self.new) ≡ closed self.old kind value.now }
    {
        self.awaits = Awaits::Over(kind);
        refill(&mut self.value, value);
        Took::Done
    }

    // An answer to a set.
    fn hear_set(&mut self, code: u16) -> Took
        ensures { (result, self.new) ≡ hear_set self.old self.old.awaits code }
    {
        match self.awaits {
            Awaits::SetAnswer if code == 0 => self.close(ReplyKind::Done, &[]),
            Awaits::SetAnswer => self.close(ReplyKind::EoeResult(code), &[]),
            Awaits::Nothing | Awaits::GetAnswer | Awaits::Over(_) => Took::Foreign,
        }
    }

    // An answer to a get.
    fn hear_get(&mut self, code: u16, block: &[u8]) -> Took
        requires { length block.now ≤ 1476 }
        ensures { (result, self.new) ≡ hear_get self.old self.old.awaits code block.now }
    {
        match self.awaits {
            Awaits::GetAnswer if code == 0 => self.close(ReplyKind::Value, block),
            Awaits::GetAnswer => self.close(ReplyKind::EoeResult(code), &[]),
            Awaits::Nothing | Awaits::SetAnswer | Awaits::Over(_) => Took::Foreign,
        }
    }

    // A mailbox error in the place of an answer.
    fn hear_failed(&mut self, detail: u16) -> Took
        ensures { (result, self.new) ≡ hear_failed self.old self.old.awaits detail }
    {
        match self.awaits {
            Awaits::SetAnswer | Awaits::GetAnswer => {
                self.close(ReplyKind::MailboxError(detail), &[])
            }
            Awaits::Nothing | Awaits::Over(_) => Took::Foreign,
        }
    }

    // An EoE body: the message in it, if it is one.
    fn hear_body(&mut self, body: &[u8]) -> Took
        requires { length body.now ≤ 1480 }
        ensures { (result, self.new) ≡ hear_mail self.old (heard body.now (eoe_read body.now)) }
    {
        match eoe::view(body) {
            Ok(EoeView::SetIpAnswer(code)) => self.hear_set(code),
            Ok(EoeView::GetIpAnswer { result_code, block }) => self.hear_get(result_code, block),
            Ok(EoeView::Fragment(_) | EoeView::SetIp(_) | EoeView::GetIp) | Err(_) => Took::Foreign,
        }
    }

    fn hear_mail(&mut self, mail: &Mail) -> Took
        ensures { (result, self.new) ≡ hear_mail self.old (eoe_mail_heard mail.now) }
    {
        let body = mail.body.as_slice();
        match mail.kind {
            Kind::EoE => self.hear_body(body),
            Kind::Error => {
                if body.len() < 4 || u16_at(body, 0) != 1 {
                    return Took::Foreign;
                }
                self.hear_failed(u16_at(body, 2))
            }
            Kind::AoE | Kind::CoE | Kind::FoE | Kind::SoE | Kind::VoE => Took::Foreign,
        }
    }

    /// Takes a mail that came from the slave. `Done` where it is the answer to the service, or a mailbox error in its place; mails that are left to
    /// send stay. `Foreign` where it is neither; then the client is unchanged (ETG.1000.6, "EoE").
    pub fn take(&mut self, mail: &Mail) -> Took
        ensures { TookIs result self.old (eoe_mail_heard mail.now) self.new }
    {
        // A field is named so that the proof has what holds of the fields.
        let _ = &self.awaits;
        self.hear_mail(mail)
    }

    /// The reply of the service that is done.
    pub fn reply(&self) -> ReplyKind
        requires { awaits_nothing self.now.awaits ≡ true }
        ensures { awaited self.now [] ≡ Some (result, self.now.value) }
    {
        match self.awaits {
            Awaits::Over(kind) => kind,
            Awaits::Nothing | Awaits::SetAnswer | Awaits::GetAnswer => unreachable!(),
        }
    }

    /// Appends the value of the service that is done; it is empty where the reply has none. After `NoMemory` the list is as before.
    pub fn value(&self, into: &mut Octets) -> Result<(), NoMemory>
        ensures ok { OnOk result (into.new ≡ into.old ++ self.now.value) }
        ensures err { OnErr result (into.new ≡ into.old) }
    {
        into.add(self.value.as_slice())
    }
}
