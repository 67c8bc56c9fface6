ghost use Rattle.std.specs.Prelude.{◌≡◌, ◌≤◌, false, length, None};
ghost use Rattle.eoe_client.specs.of_mailbox_mail.View.{mail_seen};
ghost use Rattle.coe_client.specs.of_coe_codec.View.{coe_seen, IsCapped};
ghost use Rattle.eoe_client.specs.of_protocol_models.CoeMails.{is_emission, mail as sdo_mail};
ghost use Rattle.eoe_client.specs.of_protocol_models.CoeOctets.{body_heard, is_fragment};
ghost use Rattle.master_hand.specs.Spoken.{emission};
ghost use Rattle.master_hand.specs.Passed.{body_of};
ghost use Rattle.eoe_client.specs.of_eoe.Message.{eoe_read};
ghost use Rattle.eoe_client.specs.of_protocol_models.EoeOctets.{heard};
ghost use Rattle.master_hand.specs.Brings.{emergency_of, emergency_kept, Brings};
ghost use Rattle.master_hand.specs.Replied.{reply_kept, is_reply, KeepsReply};
ghost use Rattle.master_hand.specs.Joins.{fragment_of, unfinished_by, completed_by, unfinished_behind, packet_kept, Completes};

use crate::clients::Which;
use arrayvec::ArrayVec;
use coe_codec::CoeView;
use ec_fields::refill;
use eoe::{Came, EoeView, Packet, Reassembler};
use mailbox_mail::{Kind, Mail, MailView, Took};

/// What the mail heard last brought besides a reply to a service of the master's own.
#[derive(Clone, Copy)]
pub enum Brought {
    Nothing,
    Emergency,
    /// The last fragment of a packet.
    Packet,
    /// A reply of a mail that is passed on.
    Reply,
}

/// The mail heard last, and packets that are joined from their fragments.
#[derive(Drop)]
pub struct Found {
    pub brought: Brought,
    pub emergency: ArrayVec<u8, 8>,
    pub join: Reassembler,
    pub packet: Packet,
    pub mail: Mail,
}

// Whether a body is a fragment of a packet.
fn is_fragment(body: &[u8]) -> bool
    ensures { result ≡ is_fragment body.now }
{
    body.len() >= 4 && body[0] % 16 == 0
}

// A mail without octets.
fn empty_mail() -> Mail {
    Mail {
        address: 0,
        kind: Kind::Error,
        counter: 0,
        body: ArrayVec::new(),
    }
}

impl Found {
    /// No mail was heard yet.
    pub fn new() -> Found
        ensures join { result.join ≡ None }
        ensures reply { reply_kept result ≡ None }
    {
        Found {
            brought: Brought::Nothing,
            emergency: ArrayVec::new(),
            join: Reassembler::new(),
            packet: Packet::new(),
            mail: empty_mail(),
        }
    }

    /// A slave is opened anew: its unfinished packet is forgotten.
    pub fn renew(&mut self)
        ensures join { self.new.join ≡ None }
        ensures reply { reply_kept self.new ≡ None }
    {
        self.brought = Brought::Nothing;
        self.join = Reassembler::new();
    }

    // An emergency is kept.
    fn hear_message(&mut self, message: CoeView<'_>) -> bool
        requires { IsCapped message }
        ensures emits { result ≡ is_emission (sdo_mail (coe_seen message.entry)) }
        ensures brings { emergency_kept self.old ≡ None → emergency_kept self.new ≡ emergency_of (sdo_mail (coe_seen message.entry)) }
        ensures join { self.new.join ≡ self.old.join }
        ensures packet { packet_kept self.old ≡ None → packet_kept self.new ≡ None }
        ensures reply { reply_kept self.old ≡ None → reply_kept self.new ≡ None }
    {
        match message {
            CoeView::Emergency { octets } => {
                refill(&mut self.emergency, octets);
                self.brought = Brought::Emergency;
                true
            }
            _ => false,
        }
    }

    // A CoE body: the message in it, if it is one.
    fn hear_coe(&mut self, body: &[u8]) -> bool
        requires { length body.now ≤ 1480 }
        ensures emits { result ≡ is_emission (body_heard body.now) }
        ensures brings { emergency_kept self.old ≡ None → emergency_kept self.new ≡ emergency_of (body_heard body.now) }
        ensures join { self.new.join ≡ self.old.join }
        ensures packet { packet_kept self.old ≡ None → packet_kept self.new ≡ None }
        ensures reply { reply_kept self.old ≡ None → reply_kept self.new ≡ None }
    {
        match coe_codec::view(body) {
            Ok(message) => self.hear_message(message),
            Err(_) => false,
        }
    }

    // A fragment is joined to those that came before it; one that doesn't read is none of a packet.
    fn join(&mut self, body: &[u8])
        requires { length body.now ≤ 1480 }
        ensures brings { emergency_kept self.old ≡ None → emergency_kept self.new ≡ None }
        ensures joins { self.new.join ≡ unfinished_by self.old.join (fragment_of (heard body.now (eoe_read body.now))) }
        ensures completes { packet_kept self.old ≡ None → packet_kept self.new ≡ completed_by self.old.join (fragment_of (heard body.now (eoe_read body.now))) }
        ensures reply { reply_kept self.old ≡ None → reply_kept self.new ≡ None }
    {
        if let Ok(EoeView::Fragment(fragment)) = eoe::view(body) {
            if self.join.take_into(fragment, &mut self.packet) == Came::Whole {
                self.brought = Brought::Packet;
            }
        }
    }

    // An EoE body: a fragment is joined.
    fn hear_eoe(&mut self, body: &[u8]) -> bool
        requires { length body.now ≤ 1480 }
        ensures emits { result ≡ is_fragment body.now }
        ensures brings { emergency_kept self.old ≡ None → emergency_kept self.new ≡ None }
        ensures joins { self.new.join ≡ unfinished_by self.old.join (fragment_of (heard body.now (eoe_read body.now))) }
        ensures completes { packet_kept self.old ≡ None → packet_kept self.new ≡ completed_by self.old.join (fragment_of (heard body.now (eoe_read body.now))) }
        ensures none { result ≡ false → packet_kept self.old ≡ None → packet_kept self.new ≡ None }
        ensures reply { reply_kept self.old ≡ None → reply_kept self.new ≡ None }
    {
        if !is_fragment(body) {
            return false;
        }
        self.join(body);
        true
    }

    /// Whether a mail replies to nothing. What it brings is kept in place of what the one before brought.
    pub fn hear(&mut self, mail: &MailView) -> bool
        requires { length mail.now.body.now ≤ 1480 }
        ensures emits { result ≡ emission (body_of (mail_seen mail.now)) }
        ensures brings { Brings self.new (body_of (mail_seen mail.now)) }
        ensures joins { self.new.join ≡ unfinished_behind self.old.join (body_of (mail_seen mail.now)) }
        ensures completes { Completes self.new self.old.join (body_of (mail_seen mail.now)) }
        ensures none { result ≡ false → packet_kept self.new ≡ None }
        ensures reply { reply_kept self.new ≡ None }
    {
        self.brought = Brought::Nothing;
        match mail.kind {
            Kind::CoE => self.hear_coe(mail.body),
            Kind::EoE => self.hear_eoe(mail.body),
            Kind::Error | Kind::AoE | Kind::FoE | Kind::SoE | Kind::VoE => false,
        }
    }

    /// The mail that is kept was this to its client: a reply of a mail that is passed on is handed on.
    pub fn reply(&mut self, which: Which, took: Took)
        ensures mail { self.new.mail ≡ self.old.mail }
        ensures brings { emergency_kept self.old ≡ None → emergency_kept self.new ≡ None }
        ensures join { self.new.join ≡ self.old.join }
        ensures packet { packet_kept self.old ≡ None → packet_kept self.new ≡ None }
        ensures reply { KeepsReply self.old self.new (is_reply which took) self.old.mail }
    {
        if which == Which::Passed && took != Took::Foreign {
            self.brought = Brought::Reply;
        }
    }

    /// Keeps a mail that replies.
    pub fn keep(&mut self, mail: &MailView)
        requires { length mail.now.body.now ≤ 1480 }
        ensures mail { self.new.mail ≡ mail_seen mail.now }
        ensures brings { emergency_kept self.new ≡ emergency_kept self.old }
        ensures join { self.new.join ≡ self.old.join }
        ensures packet { packet_kept self.new ≡ packet_kept self.old }
        ensures reply { reply_kept self.old ≡ None → reply_kept self.new ≡ None }
    {
        self.mail.address = mail.address;
        self.mail.kind = mail.kind;
        self.mail.counter = mail.counter;
        refill(&mut self.mail.body, mail.body);
    }
}
