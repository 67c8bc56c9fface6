ghost use Rattle.std.specs.Prelude.{◌≡◌, ◌==◌, ◌↔◌, IsTrue, All, [], ◌∷◌, replicate, slice_index, option_map, IfOk};
ghost use Rattle.std.specs.Str.{bytes_eq};
ghost use Rattle.capture_view.specs.of_mailbox_mail.Mail.{mail_read};
ghost use Rattle.capture_view.specs.of_mailbox_mail.Counter.{counter_behind};
ghost use Rattle.capture_audit.specs.Rules.{new_link, write_rule, inward_rule, sent_rule, brings_due, return_rule, link_rule, accept_on, read_on, request_on, acknowledge_on, mail_new, mail_back, bit_1, same_bit, request_octet, is_done};
ghost use Rattle.capture_audit.specs.Seen.{datagram_seen, return_seen};
ghost use Rattle.capture_audit.specs.Moves.{sent_by, accepted_by, IsWritten, GoesOn};

use crate::access::MailAccess;
use crate::exchange::{Datagram, Return};
use crate::rule::Rule;
use ec_fields::{NoMemory, Octets};
use mailbox_mail::{Mail, mail_of, view};
use std::alloc::Global;

/// What the master's inward half sends next (ETG.1000.4, mailbox with repeat request and acknowledge).
#[derive(Clone, Copy)]
pub enum Inward {
    /// Nothing is in doubt: mailbox 1 is read.
    Clear,
    /// A read was lost: the repeat request is written.
    Doubt,
    /// The repeat request was written: its acknowledge is read.
    Asked,
    /// The request is acknowledged: mailbox 1 is read again.
    Refetch,
}

/// The master's side of an open link, as its datagrams so far show it.
#[derive(Drop)]
pub struct Link {
    /// The lengths of the areas that it opened with.
    pub out_len: u16,
    pub in_len: u16,
    /// The counter of the last mail sent, 0 where there is none.
    pub last_sent: u8,
    /// The octets of the last write to mailbox 0, and whether it hasn't returned with working counter 1.
    pub written: Octets,
    pub waits: bool,
    /// The counter of the last mail accepted, 0 where there is none.
    pub last_accepted: u8,
    /// The inward half's state, and the repeat request that it wrote last or is to write.
    pub state: Inward,
    pub bit: bool,
}

/// The mail that an access moved.
#[derive(Drop)]
pub enum Moved {
    /// None, or one that was moved before.
    Nothing,
    /// A new mail was sent.
    Sent(Mail),
    /// A new mail was accepted.
    Accepted(Mail),
}

// Whether a counter is the one behind another: 1 to 7 and 1 again (ETG.1000.4, mailbox counter).
fn is_next(last: u8, counter: u8) -> bool
    ensures { result ≡ (counter == counter_behind last) }
{
    counter == last % 7 + 1
}

// Whether it returned with working counter 1.
pub fn is_done(back: Option<Return<'_>>) -> bool
    ensures { result ≡ is_done (option_map return_seen back.entry) }
{
    match back {
        Some(back) => back.counter == 1,
        None => false,
    }
}

fn are_zero(octets: &[u8]) -> bool
    ensures { IsTrue result ↔ All (λ octet. octet ≡ 0) octets.now }
{
    octets.iter().all(|octet| *octet == 0)
}

// Whether these are so many blank octets.
fn is_blank(octets: &[u8], len: usize) -> bool
    ensures { result ≡ bytes_eq octets.now (replicate len 0) }
{
    octets.len() == len && are_zero(octets)
}

// Whether this is one octet, of this value.
fn is_octet(octets: &[u8], value: u8) -> bool
    ensures { result ≡ bytes_eq octets.now (value ∷ []) }
{
    octets.len() == 1 && octets[0] == value
}

// What a repeat request writes: the manager is enabled, and the request is this bit.
fn request(bit: bool) -> u8
    ensures { result ≡ request_octet bit }
{
    if bit { 3 } else { 1 }
}

// Whether bit 1 of the first octet is this one.
fn acknowledges(octets: &[u8], bit: bool) -> bool
    ensures { result ≡ same_bit (bit_1 (slice_index octets.now 0)) bit }
{
    let octet = octets.first().copied().unwrap_or(0);
    (octet / 2 % 2 == 1) == bit
}

impl Link {
    /// The link of areas of these lengths, as it opens.
    pub fn new(alloc: Global, out_len: u16, in_len: u16) -> Link
        ensures { result ≡ new_link out_len in_len }
    {
        Link {
            out_len,
            in_len,
            last_sent: 0,
            written: Octets::new(alloc),
            waits: false,
            last_accepted: 0,
            state: Inward::Clear,
            bit: false,
        }
    }

    // The rule that a write to mailbox 0 breaks.
    fn write_rule(&self, body: &[u8]) -> Option<Rule>
        ensures { result ≡ write_rule self.now body.now (mail_read body.now) }
    {
        let Ok(mail) = view(body) else {
            return Some(Rule::NoMail);
        };
        if body.len() != self.out_len as usize {
            return Some(Rule::NoMail);
        }
        let goes_on = if self.waits {
            body == self.written.bytes()
        } else {
            is_next(self.last_sent, mail.counter)
        };
        if goes_on { None } else { Some(Rule::OtherMail) }
    }

    // The rule that a datagram of the inward half breaks.
    fn inward_rule(&self, access: MailAccess, body: &[u8]) -> Option<Rule>
        ensures { result ≡ inward_rule self.now access body.now }
    {
        let awaited = match (self.state, access) {
            (Inward::Clear | Inward::Refetch, MailAccess::ReadMail) => {
                is_blank(body, self.in_len as usize)
            }
            (Inward::Doubt, MailAccess::WriteRequest) => is_octet(body, request(self.bit)),
            (Inward::Asked, MailAccess::ReadAcknowledge) => is_blank(body, 1),
            _ => false,
        };
        if awaited {
            None
        } else {
            Some(Rule::OtherAccess)
        }
    }

    // The rule that a sent access breaks.
    fn sent_rule(&self, access: MailAccess, body: &[u8]) -> Option<Rule>
        ensures { result ≡ sent_rule self.now access body.now }
    {
        match access {
            MailAccess::WriteMail => self.write_rule(body),
            _ => self.inward_rule(access, body),
        }
    }

    // Whether what a read brought is due; the other accesses bring no mail.
    fn brings_due(&self, access: MailAccess, body: &[u8]) -> bool
        ensures { result ≡ brings_due self.now access body.now }
    {
        if access != MailAccess::ReadMail {
            return true;
        }
        match view(body) {
            Ok(mail) => {
                mail.counter != 0
                    && (mail.counter == self.last_accepted
                        || is_next(self.last_accepted, mail.counter))
            }
            Err(_) => false,
        }
    }

    // The rule that what returned breaks.
    fn return_rule(&self, access: MailAccess, back: Option<Return<'_>>) -> Option<Rule>
        ensures { result ≡ return_rule self.now access (option_map return_seen back.entry) }
    {
        let back = back?;
        if back.counter == 0 || back.counter == 1 && self.brings_due(access, back.body) {
            None
        } else {
            Some(Rule::BadReturn)
        }
    }

    /// The first rule that an access breaks, `None` where it breaks none.
    pub fn rule(&self, access: MailAccess, datagram: &Datagram<'_>) -> Option<Rule>
        ensures { result ≡ link_rule self.now access (datagram_seen datagram.now) }
    {
        match self.sent_rule(access, datagram.body) {
            Some(rule) => Some(rule),
            None => self.return_rule(access, datagram.back),
        }
    }

    // A mail is written to mailbox 0.
    fn write(&mut self, body: &[u8], done: bool) -> Result<Moved, NoMemory>
        ensures { IfOk result (IsWritten self.old self.new body.now done (mail_read body.now)) }
    {
        let Ok(mail) = view(body) else {
            return Ok(Moved::Nothing);
        };
        let again = self.waits;
        self.waits = !done;
        if again {
            return Ok(Moved::Nothing);
        }
        self.written.clear();
        self.written.add(body)?;
        self.last_sent = mail.counter;
        Ok(Moved::Sent(mail_of(mail)))
    }

    // A read of mailbox 1 brought this.
    fn accept(&mut self, area: &[u8]) -> Moved
        ensures link { self.new ≡ accept_on self.old (mail_read area.now) }
        ensures sent { sent_by result ≡ [] }
        ensures accepted { accepted_by result ≡ mail_new self.old (mail_read area.now) }
    {
        self.state = Inward::Clear;
        let Ok(mail) = view(area) else {
            return Moved::Nothing;
        };
        if mail.counter == self.last_accepted {
            return Moved::Nothing;
        }
        self.last_accepted = mail.counter;
        Moved::Accepted(mail_of(mail))
    }

    // Mailbox 1 is read.
    fn read(&mut self, back: Option<Return<'_>>) -> Moved
        ensures link { self.new ≡ read_on self.old (option_map return_seen back.entry) }
        ensures sent { sent_by result ≡ [] }
        ensures accepted { accepted_by result ≡ mail_back self.old (option_map return_seen back.entry) }
    {
        match back {
            None => {
                self.state = Inward::Doubt;
                self.bit = !self.bit;
                Moved::Nothing
            }
            Some(back) if back.counter == 0 => {
                self.state = Inward::Clear;
                Moved::Nothing
            }
            Some(back) => self.accept(back.body),
        }
    }

    // The repeat request is written.
    fn request(&mut self, back: Option<Return<'_>>)
        ensures { self.new ≡ request_on self.old (option_map return_seen back.entry) }
    {
        if let Some(back) = back {
            if back.counter != 0 {
                self.state = Inward::Asked;
            }
        }
    }

    // Its acknowledge is read.
    fn acknowledge(&mut self, back: Option<Return<'_>>)
        ensures { self.new ≡ acknowledge_on self.old (option_map return_seen back.entry) }
    {
        if let Some(back) = back {
            if back.counter != 0 && acknowledges(back.body, self.bit) {
                self.state = Inward::Refetch;
            }
        }
    }

    /// Goes on by an access that breaks no rule, and tells the new mail that it moved.
    pub fn go_on(&mut self, access: MailAccess, datagram: &Datagram<'_>) -> Result<Moved, NoMemory>
        ensures { IfOk result (GoesOn self.old self.new access (datagram_seen datagram.now)) }
    {
        match access {
            MailAccess::WriteMail => self.write(datagram.body, is_done(datagram.back)),
            MailAccess::ReadMail => Ok(self.read(datagram.back)),
            MailAccess::WriteRequest => {
                self.request(datagram.back);
                Ok(Moved::Nothing)
            }
            MailAccess::ReadAcknowledge => {
                self.acknowledge(datagram.back);
                Ok(Moved::Nothing)
            }
        }
    }
}
