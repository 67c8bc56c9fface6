//! The slave's side of EoE over its addresses (ETG.1000.6, "Ethernet over EtherCAT"): packets joined from fragments, and the address block.
#![tactic(auto)]

ghost use Rattle.std.specs.Prelude.{◌≡◌, ◌≢◌, ◌≤◌, ◌<◌, ◌+◌, ◌-◌, ◌%◌, ◌↔◌, ◌++◌, ◌∷◌, ℕ, true, false, List, [], None, length, option_map};
ghost use Rattle.protocol_models.specs.of_eoe.Joining.{taken};
ghost use Rattle.protocol_models.specs.EoeServer.{addressed, delivered, joined, eoe_outcome, set_answer, takes_unread};
ghost use Rattle.protocol_models.specs.EoeOctets.{heard, eoe_mail_written};
ghost use Rattle.protocol_models.specs.of_eoe.Message.{IsSpellable, eoe_read, octets_of};
ghost use Rattle.protocol_models.specs.EoeMails.{mail, part, packet_mails, unsupported};
ghost use Rattle.protocol_models.specs.of_eoe.declared.message.EoeFault.TheVariants.{WrongType};
ghost use Rattle.protocol_models.specs.Echo.{is_echo, echo_of};
ghost use Rattle.eoe_server.specs.Serving.{Serving, answer_mail, cut_mails, waiting_mails, outcome_of, fresh, addresses_network, is_roomy, GivesNext};
ghost use Rattle.eoe_server.specs.declared.Addresses.{Addresses};

use arrayvec::ArrayVec;
use ec_fields::{bits, buffer_of, u16_at};
use eoe::{Block, Eoe, EoeFault, Fragment, Fragmenter, Joined, Packet, Reassembler};
use mailbox_mail::{Kind, Mail, error_mail};
use std::marker::Model;

/// What a slave answers to an address service, or in place of an answer.
#[derive(Clone, Copy)]
pub enum Answer {
    Nothing,
    SetIp(u16),
    GetIp,
    Unsupported(u8),
    Failed(u16),
}

/// The addresses of a slave.
#[derive(Drop)]
pub struct Addresses {
    pub block: Block,
    pub mac: ArrayVec<u8, 6>,
    pub fixed: bool,
}

const EVERYONE: [u8; 6] = [255; 6];

// Whether a packet is of EtherType 88B5, to the slave or to all.
fn is_echo(mac: &[u8], octets: &[u8]) -> bool
    ensures { result ≡ is_echo mac.now octets.now }
{
    if octets.len() > 1514 || octets.len() < 14 {
        return false;
    }
    octets[12] == 0x88
        && (octets[13] == 0xB5 && (&octets[..6] == mac || &octets[..6] == EVERYONE.as_slice()))
}

/// The packet that a slave of this address sends on a packet, if it does.
pub fn echo(mac: &ArrayVec<u8, 6>, packet: &[u8]) -> Option<Packet>
    ensures { option_map (λ p. p.items) result ≡ echo_of mac.now.items packet.now }
{
    if !is_echo(mac.as_slice(), packet) {
        return None;
    }
    let mut sent: Packet = buffer_of(&packet[6..12]);
    append(&mut sent, mac.as_slice());
    append(&mut sent, &[0x88, 0xB6]);
    append(&mut sent, &packet[14..]);
    Some(sent)
}

// Appends octets that fit.
fn append(packet: &mut Packet, octets: &[u8])
    requires { length packet.old.items + length octets.now ≤ 1514 }
    ensures { packet.new.items ≡ packet.old.items ++ octets.now }
{
    match packet.try_extend_from_slice(octets) {
        Ok(()) => {}
        Err(_) => unreachable!(),
    }
}

/// A server. No call takes memory.
#[derive(Drop)]
pub struct EoeServer {
    room: u16,
    join: Reassembler,
    frame: u8,
    answer: Answer,
    sending: Option<Fragmenter>,
}

impl Model for EoeServer {
    ghost use Rattle.std.specs.Prelude.{◌≡◌, ◌≤◌, ◌<◌, true};
    ghost use Rattle.eoe_server.specs.Serving.{Serving, is_sending};

    ghost Value = { Serving };

    ghost view = { λ c. record { room = c.room; unfinished = c.join; frame = c.frame; answer = c.answer; sending = c.sending } };

    ghost invariant = { λ c. (64 ≤ c.room) × (c.room ≤ 1486) × (c.frame < 16) × (is_sending c.room c.sending ≡ true) };
}

impl EoeServer {
    /// A server without a packet and without a mail, that sends through a mailbox of this length.
    pub fn new(in_len: u16) -> EoeServer
        requires least { 64 ≤ in_len }
        requires most { in_len ≤ 1486 }
        ensures { result ≡ fresh in_len }
    {
        EoeServer {
            room: in_len,
            join: Reassembler::new(),
            frame: 0,
            answer: Answer::Nothing,
            sending: None,
        }
    }

    /// The server as it was made.
    pub fn clear(&mut self)
        ensures { self.new ≡ fresh self.old.room }
    {
        *self = EoeServer::new(self.room);
    }

    // The server is the same, with this answer and nothing on its way.
    fn tell(&mut self, answer: Answer)
        ensures { self.new ≡ record self.old { answer = answer; sending = None } }
    {
        self.answer = answer;
        self.sending = None;
    }

    // Set IP: any other block than one of the grammar, one too long for the answer to get IP, and fixed addresses are refused by result 1.
    fn set_ip(&mut self, addresses: &mut Addresses, block: Block) -> bool
        ensures does { set_answer (record { app = addresses.old; frame = self.old.frame }) self.old.unfinished (addressed addresses_network self.old.room addresses.old block.items) ≡ outcome_of addresses.new self.new result }
        ensures room { self.new.room ≡ self.old.room }
        ensures roomy { is_roomy self.old.room addresses.old ≡ true → is_roomy self.old.room addresses.new ≡ true }
        ensures mac { addresses.new.mac ≡ addresses.old.mac }
        ensures fixed { addresses.new.fixed ≡ addresses.old.fixed }
    {
        let fits = block.len() <= self.room as usize - 10;
        if eoe::is_block(block.as_slice()) && fits && !addresses.fixed {
            addresses.block = block;
            self.tell(Answer::SetIp(0));
        } else {
            self.tell(Answer::SetIp(1));
        }
        true
    }

    // A whole packet: the slave may send one back, which takes the next frame number.
    fn deliver(&mut self, addresses: &Addresses, packet: &Packet)
        requires idle { self.old.sending ≡ None }
        ensures sends { let d = delivered addresses_network self.old.room (record { app = addresses.now; frame = self.old.frame }) packet.now.items in
            (d.0 ≡ record { app = addresses.now; frame = self.new.frame }) × (d.1 ≡ cut_mails self.new.sending) }
        ensures same { self.new ≡ record self.old { frame = self.new.frame; sending = self.new.sending } }
    {
        if let Some(sent) = echo(&addresses.mac, packet.as_slice()) {
            self.sending = Some(eoe::cut(&sent, self.room, self.frame));
            self.frame = (self.frame + 1) % 16;
        }
    }

    // A fragment: only a whole packet has an effect, and only a last fragment counts.
    fn take_fragment(&mut self, addresses: &Addresses, fragment: &Fragment) -> bool
        ensures does { let t = taken self.old.unfinished fragment.now in
            joined addresses_network self.old.room (record { app = addresses.now; frame = self.old.frame }) fragment.now.last t.unfinished t.joined ≡ outcome_of addresses.now self.new result }
        ensures room { self.new.room ≡ self.old.room }
    {
        self.tell(Answer::Nothing);
        if let Joined::Whole(packet) = self.join.take(fragment) {
            self.deliver(addresses, &packet);
        }
        fragment.last
    }

    // A type that isn't served: an even one is answered by the type behind it with result 2.
    fn wrong_type(&mut self, addresses: &Addresses, kind: u8) -> bool
        requires { kind < 16 }
        ensures does { takes_unread (record { app = addresses.now; frame = self.old.frame }) self.old.unfinished WrongType kind ≡ outcome_of addresses.now self.new result }
        ensures room { self.new.room ≡ self.old.room }
    {
        if kind % 2 == 0 {
            self.tell(Answer::Unsupported(kind + 1));
        } else {
            self.tell(Answer::Nothing);
        }
        true
    }

    /// Takes the body of a mail. `true` exactly where a service was carried out by it, be it by a refusal.
    pub fn take(&mut self, addresses: &mut Addresses, body: &[u8]) -> bool
        requires { length body.now ≤ 1480 }
        ensures does { eoe_outcome addresses_network self.old.room (record { app = addresses.old; frame = self.old.frame }) self.old.unfinished (heard body.now (eoe_read body.now)) ≡ outcome_of addresses.new self.new result }
        ensures room { self.new.room ≡ self.old.room }
        ensures roomy { is_roomy self.old.room addresses.old ≡ true → is_roomy self.old.room addresses.new ≡ true }
        ensures mac { addresses.new.mac ≡ addresses.old.mac }
        ensures fixed { addresses.new.fixed ≡ addresses.old.fixed }
    {
        match eoe::read(body) {
            Ok(Eoe::Fragment(fragment)) => self.take_fragment(addresses, &fragment),
            Ok(Eoe::SetIp(block)) => self.set_ip(addresses, block),
            Ok(Eoe::GetIp) => {
                self.tell(Answer::GetIp);
                true
            }
            Ok(_) => {
                self.tell(Answer::Nothing);
                true
            }
            Err(EoeFault::Short) => {
                self.tell(Answer::Failed(6));
                true
            }
            Err(EoeFault::Offset) => {
                self.tell(Answer::Nothing);
                false
            }
            Err(EoeFault::WrongType) => {
                let kind = bits(u16_at(body, 0), 0, 4) as u8;
                self.wrong_type(addresses, kind)
            }
        }
    }

    /// Puts a packet on its way, behind the answer that waits: its frame number is the next one.
    pub fn send(&mut self, packet: &Packet)
        ensures sends { cut_mails self.new.sending ≡ packet_mails self.old.room packet.now.items self.old.frame }
        ensures frame { self.new.frame ≡ (self.old.frame + 1) % 16 }
        ensures same { self.new ≡ record self.old { frame = self.new.frame; sending = self.new.sending } }
    {
        self.sending = Some(eoe::cut(packet, self.room, self.frame));
        self.frame = (self.frame + 1) % 16;
    }

    /// Whether a mail waits.
    pub fn waiting(&self) -> bool
        ensures { (block : List ℕ) → result ≡ false ↔ (waiting_mails self.now block ≡ []) }
    {
        match self.answer {
            Answer::Nothing => self.is_sending(),
            Answer::SetIp(_) | Answer::GetIp | Answer::Unsupported(_) | Answer::Failed(_) => true,
        }
    }

    // Whether a fragment is left of a packet on its way.
    fn is_sending(&self) -> bool
        ensures { result ≡ false ↔ (cut_mails self.now.sending ≡ []) }
    {
        let _ = &self.room;
        match &self.sending {
            None => false,
            Some(sending) => !sending.is_over(),
        }
    }

    // The answer that waits.
    fn answer(&self, addresses: &Addresses) -> Mail
        requires answers { self.now.answer ≢ Answer.Nothing }
        requires roomy { is_roomy self.now.room addresses.now ≡ true }
        ensures spelled { result ≡ eoe_mail_written (answer_mail addresses.now.block.items self.now.answer) }
        ensures fits { length result.body.items + 6 ≤ self.now.room }
    {
        match self.answer {
            Answer::Nothing => unreachable!(),
            Answer::SetIp(code) => written(&Eoe::SetIpAnswer(code)),
            Answer::GetIp => written(&Eoe::GetIpAnswer {
                result_code: 0,
                block: buffer_of(addresses.block.as_slice()),
            }),
            Answer::Unsupported(kind) => unsupported(kind),
            Answer::Failed(detail) => error_mail(detail),
        }
    }

    // The next fragment of the packet on its way.
    fn next_fragment(&mut self) -> Fragment
        requires { cut_mails self.old.sending ≢ [] }
        ensures first { cut_mails self.old.sending ≡ part result ∷ cut_mails self.new.sending }
        ensures same { self.new ≡ record self.old { sending = self.new.sending } }
        ensures spelled { IsSpellable (Eoe.Fragment result) }
        ensures fits { length result.bytes.items + 10 ≤ self.old.room }
    {
        match &mut self.sending {
            None => unreachable!(),
            Some(sending) => match sending.next() {
                None => unreachable!(),
                Some(fragment) => fragment,
            },
        }
    }

    /// Gives the next of the mails that wait, to nobody and not yet counted. Each fits the mailbox that it goes through.
    pub fn next(&mut self, addresses: &Addresses) -> Mail
        requires left { waiting_mails self.old addresses.now.block.items ≢ [] }
        requires roomy { is_roomy self.old.room addresses.now ≡ true }
        ensures next { GivesNext self.old addresses.now.block.items result self.new }
        ensures fits { length result.body.items + 6 ≤ self.old.room }
        ensures same { self.new ≡ record self.old { answer = self.new.answer; sending = self.new.sending } }
    {
        if let Answer::Nothing = self.answer {
            let fragment = self.next_fragment();
            return written(&Eoe::Fragment(fragment));
        }
        let mail = self.answer(addresses);
        self.answer = Answer::Nothing;
        mail
    }
}

// The mail of a message, to nobody and not yet counted.
fn written(message: &Eoe) -> Mail
    requires { IsSpellable message.now }
    ensures spelled { result ≡ eoe_mail_written (mail message.now) }
    ensures long { length result.body.items ≡ 4 + length (octets_of message.now) }
{
    let mut body = ArrayVec::new();
    eoe::write(message, &mut body);
    Mail {
        address: 0,
        kind: Kind::EoE,
        counter: 0,
        body,
    }
}

// The answer to a type that isn't served: the type behind it with result 2.
fn unsupported(kind: u8) -> Mail
    ensures spelled { result ≡ eoe_mail_written (unsupported kind) }
    ensures long { length result.body.items ≡ 4 }
{
    let [low, high] = (kind as u16).to_le_bytes();
    Mail {
        address: 0,
        kind: Kind::EoE,
        counter: 0,
        body: buffer_of(&[low, high, 2, 0]),
    }
}
