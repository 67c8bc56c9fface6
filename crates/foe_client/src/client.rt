ghost use Rattle.std.specs.Prelude.{◌≡◌, ◌≤◌, ◌<◌, ◌+◌, List, [], ◌++◌, true, length, IfOk, OnOk, OnErr, Some, None, suc};
ghost use Rattle.protocol_models.specs.of_foe_codec.Message.{is_name};
ghost use Rattle.protocol_models.specs.FoeMails.{FoeMail};
ghost use Rattle.protocol_models.specs.FoeMeaning.{Service, read, write};
ghost use Rattle.protocol_models.specs.of_exchange_model.Areas.{Areas};
ghost use Rattle.protocol_models.specs.FoeClient.{full_packets, ends};
ghost use Rattle.protocol_models.specs.FoeModel.{planned};
ghost use Rattle.foe_client.specs.Talk.{areas_of, later, awaited, awaits_nothing, begun, IsFresh};

use crate::state::{Awaits, Unsent};
use ec_fields::{NoMemory, Octets, Transfer, buffer_of};
use foe_codec::Name;
use mailbox_mail::ReplyKind;
use std::alloc::Global;
use std::marker::Model;

/// The most octets that a file has.
pub(crate) const MOST: usize = 131_072;

/// The octets of mail header, opcode, reserved octet and field in front of a packet's octets.
pub(crate) const HEADER: usize = 12;

/// A client for one service at a time. It takes all its memory when it is made.
#[derive(Drop)]
pub struct FoeClient {
    pub(crate) out: u16,
    pub(crate) back: u16,
    pub(crate) pass: u32,
    pub(crate) name: Name,
    pub(crate) bytes: Transfer,
    pub(crate) unsent: Unsent,
    pub(crate) quota: u64,
    pub(crate) awaits: Awaits,
    pub(crate) value: Transfer,
}

impl Model for FoeClient {
    ghost use Rattle.std.specs.Prelude.{◌≡◌, ◌≤◌, true};
    ghost use Rattle.foe_client.specs.Talk.{Talking, is_sound, is_left, is_bounded, is_next};

    ghost Value = { Talking };

    ghost view = { λ c. record { out = c.out; back = c.back; pass = c.pass; name = c.name.items; bytes = c.bytes.octets; unsent = c.unsent; quota = c.quota; awaits = c.awaits; value = c.value.octets } };

    ghost invariant = { λ c. (64 ≤ c.out) × (c.out ≤ 1486) × (64 ≤ c.back) × (c.back ≤ 1486) × (c.bytes.limit ≡ 131072) × (c.value.limit ≡ 131072) × (is_sound c.awaits c.value.octets ≡ true) × (is_left c.unsent c.name.items c.bytes.octets ≡ true) × (is_bounded c.unsent c.quota c.awaits c.value.octets ≡ true) × (is_next c.unsent c.quota c.awaits ≡ true) };
}

impl FoeClient {
    /// A client of a slave whose mailboxes have these lengths: the one that requests go through, and the one for answers.
    pub fn new(alloc: Global, out_len: u16, in_len: u16) -> Result<FoeClient, NoMemory>
        requires out_least { 64 ≤ out_len }
        requires out_most { out_len ≤ 1486 }
        requires in_least { 64 ≤ in_len }
        requires in_most { in_len ≤ 1486 }
        ensures idle { IfOk result (λ c. (ms : List FoeMail) → awaited c ms ≡ None) }
        ensures silent { IfOk result (λ c. (hs : List FoeMail) → later c hs ≡ []) }
        ensures areas { IfOk result (λ c. areas_of c ≡ record { out = out_len; back = in_len }) }
    {
        let bytes = Transfer::new(alloc, MOST)?;
        let value = Transfer::new(alloc, MOST)?;
        Ok(FoeClient {
            out: out_len,
            back: in_len,
            pass: 0,
            name: Name::new(),
            bytes,
            unsent: Unsent::Ack { number: 0 },
            quota: 0,
            awaits: Awaits::Nothing,
            value,
        })
    }

    // The service's request may go, and nothing has come yet.
    fn begin(&mut self, name: &[u8], pass: u32, bytes: &[u8], unsent: Unsent, awaits: Awaits)
        requires named { is_name name.now ≡ true }
        requires small { length bytes.now ≤ 131072 }
        requires fresh { IsFresh unsent awaits }
        ensures { self.new ≡ begun (areas_of self.old) name.now pass bytes.now unsent awaits }
    {
        self.bytes.clear();
        let _fits = self.bytes.add(bytes);
        self.value.clear();
        self.name = buffer_of(name);
        self.pass = pass;
        self.unsent = unsent;
        self.quota = 1;
        self.awaits = awaits;
    }

    // How many acknowledgements come before that of the last packet: the request's, and each full packet's.
    fn early_acks(&self, bytes: &[u8]) -> u32
        requires { length bytes.now ≤ 131072 }
        ensures count { result ≡ suc (full_packets self.now.out (length bytes.now)) }
        ensures few { result ≤ 131073 }
    {
        (bytes.len() / (self.out as usize - HEADER)) as u32 + 1
    }

    /// Begins to read a file in place of the service before. The client then has the request to send, and acknowledgements by what it hears.
    /// The name has 1 to 32 octets.
    pub fn start_read(&mut self, name: &[u8], pass: u32)
        requires { is_name name.now ≡ true }
        ensures replies { (ms : List FoeMail) → awaited self.new ms ≡ ends (areas_of self.old) (read name.now pass) ms }
        ensures mails { (hs : List FoeMail) → later self.new hs ≡ planned self.old.out (read name.now pass) hs }
        ensures areas { areas_of self.new ≡ areas_of self.old }
    {
        self.begin(
            name,
            pass,
            &[],
            Unsent::ReadRequest,
            Awaits::Packet { number: 1 },
        );
    }

    /// Begins to write a file in place of the service before. The client then has the request to send, and packets by what it hears. The name has
    /// 1 to 32 octets, and the file at most 131,072.
    pub fn start_write(&mut self, name: &[u8], pass: u32, bytes: &[u8])
        requires named { is_name name.now ≡ true }
        requires small { length bytes.now ≤ 131072 }
        ensures replies { (ms : List FoeMail) → awaited self.new ms ≡ ends (areas_of self.old) (write name.now pass bytes.now) ms }
        ensures mails { (hs : List FoeMail) → later self.new hs ≡ planned self.old.out (write name.now pass bytes.now) hs }
        ensures areas { areas_of self.new ≡ areas_of self.old }
    {
        // A field is named so that the proof has what holds of the fields.
        let _ = &self.out;
        let awaits = Awaits::Ack {
            left: self.early_acks(bytes),
            number: 0,
        };
        self.begin(name, pass, bytes, Unsent::WriteRequest, awaits);
    }

    /// The reply of the service that is done.
    pub fn reply(&self) -> ReplyKind
        requires { awaits_nothing self.now.awaits ≡ true }
        ensures { awaited self.now [] ≡ Some (result, self.now.value) }
    {
        match self.awaits {
            Awaits::Over(kind) => kind,
            Awaits::Nothing | Awaits::Packet { number: _ } | Awaits::Ack { left: _, number: _ } =>
                unreachable!(),
        }
    }

    /// Appends the octets of the file that was read; there are none where the reply has no value. After `NoMemory` the list is as before.
    pub fn value(&self, into: &mut Octets) -> Result<(), NoMemory>
        requires { awaits_nothing self.now.awaits ≡ true }
        ensures ok { OnOk result (into.new ≡ into.old ++ self.now.value) }
        ensures err { OnErr result (into.new ≡ into.old) }
    {
        into.add(self.value.bytes())
    }
}
