ghost use Rattle.std.specs.Prelude.{◌≡◌, ◌≤◌, ◌<◌, ◌^◌, List, [], ◌++◌, true, length, IfOk, OnOk, OnErr, Some, None};
ghost use Rattle.soe_parts.specs.of_protocol_models.Elements.{target};
ghost use Rattle.soe_parts.specs.of_protocol_models.SoeMails.{SoeMail};
ghost use Rattle.soe_parts.specs.of_protocol_models.SoeClient.{read, write, mails_of, ends};
ghost use Rattle.soe_parts.specs.Parts.{subject_view};
ghost use Rattle.soe_client.specs.Talk.{about, is_near, left, awaited, awaits_nothing, begun, is_begun};

use crate::state::{Awaits, Task, Unsent};
use ec_fields::{NoMemory, Octets, Transfer};
use mailbox_mail::ReplyKind;
use soe_parts::{MOST, Subject};
use std::alloc::Global;
use std::marker::Model;

/// A client for one service at a time. It takes all its memory when it is made.
#[derive(Drop)]
pub struct SoeClient {
    pub(crate) room: u16,
    pub(crate) task: Task,
    pub(crate) bytes: Transfer,
    pub(crate) unsent: Unsent,
    pub(crate) awaits: Awaits,
    pub(crate) value: Transfer,
}

impl Model for SoeClient {
    ghost use Rattle.std.specs.Prelude.{◌≡◌, ◌≤◌, true};
    ghost use Rattle.soe_client.specs.Talk.{Talking, is_near, is_left};

    ghost Value = { Talking };

    ghost view = { λ c. record { room = c.room; task = c.task; bytes = c.bytes.octets; unsent = c.unsent; awaits = c.awaits; value = c.value.octets } };

    ghost invariant = { λ c. (64 ≤ c.room) × (c.room ≤ 1486) × (c.bytes.limit ≡ 16384) × (c.value.limit ≡ 16384) × (is_near c.task ≡ true) × (is_left c.bytes.octets c.unsent ≡ true) };
}

impl SoeClient {
    /// A client of a slave whose mailboxes have these lengths: the one that requests go through, and the one for answers.
    pub fn new(alloc: Global, out_len: u16, _in_len: u16) -> Result<SoeClient, NoMemory>
        requires least { 64 ≤ out_len }
        requires most { out_len ≤ 1486 }
        ensures idle { IfOk result (λ c. (ms : List SoeMail) → awaited c ms ≡ None) }
        ensures silent { IfOk result (λ c. left c ≡ []) }
        ensures room { IfOk result (λ c. c.room ≡ out_len) }
    {
        let bytes = Transfer::new(alloc, MOST)?;
        let value = Transfer::new(alloc, MOST)?;
        Ok(SoeClient {
            room: out_len,
            task: Task::Nothing,
            bytes,
            unsent: Unsent::Nothing,
            awaits: Awaits::Nothing,
            value,
        })
    }

    // A service begins with these octets, and nothing has come yet.
    fn begin(&mut self, task: Task, bytes: &[u8], unsent: Unsent, awaits: Awaits)
        requires near { is_near task ≡ true }
        requires small { length bytes.now ≤ 16384 }
        requires first { is_begun unsent ≡ true }
        ensures { self.new ≡ begun self.old.room task bytes.now unsent awaits }
    {
        self.bytes.clear();
        let _fits = self.bytes.add(bytes);
        self.value.clear();
        self.task = task;
        self.unsent = unsent;
        self.awaits = awaits;
    }

    /// Begins to read an element, in place of the service before. The client then has the request to send.
    pub fn start_read(&mut self, drive: u8, idn: u16, elements: u8)
        requires { drive < 2 ^ 3 }
        ensures replies { (ms : List SoeMail) → awaited self.new ms ≡ ends (read (target drive idn elements)) ms }
        ensures mails { left self.new ≡ mails_of self.old.room (read (target drive idn elements)) }
        ensures room { self.new.room ≡ self.old.room }
    {
        let subject = Subject {
            drive,
            idn,
            elements,
        };
        self.begin(Task::Read { subject }, &[], Unsent::Request, Awaits::Parts);
    }

    /// Begins to write an element, in place of the service before. The client then has the fragments of the octets to send.
    pub fn start_write(&mut self, drive: u8, idn: u16, elements: u8, bytes: &[u8])
        requires drive { drive < 2 ^ 3 }
        requires small { length bytes.now ≤ 16384 }
        ensures replies { (ms : List SoeMail) → awaited self.new ms ≡ ends (write (target drive idn elements) bytes.now) ms }
        ensures mails { left self.new ≡ mails_of self.old.room (write (target drive idn elements) bytes.now) }
        ensures room { self.new.room ≡ self.old.room }
    {
        let subject = Subject {
            drive,
            idn,
            elements,
        };
        self.begin(
            Task::Write { subject },
            bytes,
            Unsent::Octets { from: 0 },
            Awaits::Answer,
        );
    }

    // What the service in hand is about.
    pub(crate) fn subject(&self) -> Subject
        ensures about { subject_view result ≡ about self.now.task }
        ensures drive { result.drive < 2 ^ 3 }
    {
        // A field is named so that the proof has what holds of the fields.
        let _ = &self.room;
        match self.task {
            Task::Read { subject } | Task::Write { subject } => subject,
            Task::Nothing => Subject {
                drive: 0,
                idn: 0,
                elements: 0,
            },
        }
    }

    /// The reply of the service that is done.
    pub fn reply(&self) -> ReplyKind
        requires { awaits_nothing self.now.awaits ≡ true }
        ensures { awaited self.now [] ≡ Some (result, self.now.value) }
    {
        match self.awaits {
            Awaits::Over(kind) => kind,
            Awaits::Nothing | Awaits::Parts | Awaits::Answer => unreachable!(),
        }
    }

    /// Appends the value of the service that is done; it is empty where the reply has none. After `NoMemory` the list is as before.
    pub fn value(&self, into: &mut Octets) -> Result<(), NoMemory>
        requires { awaits_nothing self.now.awaits ≡ true }
        ensures ok { OnOk result (into.new ≡ into.old ++ self.now.value) }
        ensures err { OnErr result (into.new ≡ into.old) }
    {
        into.add(self.value.bytes())
    }
}
