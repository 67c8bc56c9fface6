ghost use Rattle.std.specs.Prelude.{◌≡◌, ◌≤◌, ◌<◌, ◌+◌, List, [], ◌++◌, true, false, length, IfOk, OnOk, OnErr, Some, None};
ghost use Rattle.protocol_models.specs.CoeMails.{CoeMail};
ghost use Rattle.protocol_models.specs.CoeClient.{ends};
ghost use Rattle.protocol_models.specs.CoeModel.{planned};
ghost use Rattle.coe_client.specs.Talk.{service_view, octets_in, later, awaited, is_replied, IsFresh, is_paced, begun, begun_service};

use crate::state::{Awaits, Task, Unsent};
use ec_fields::{NoMemory, Octets, Transfer};
use mailbox_mail::ReplyKind;
use object_dictionary::SdoService;
use std::alloc::Global;
use std::marker::Model;

/// The most octets that a value has.
pub(crate) const MOST: usize = 16_384;

/// A client for one service at a time. It takes all its memory when it is made.
#[derive(Drop)]
pub struct CoeClient {
    pub(crate) room: u16,
    pub(crate) task: Task,
    pub(crate) bytes: Transfer,
    pub(crate) unsent: Unsent,
    pub(crate) quota: u32,
    pub(crate) going: bool,
    pub(crate) awaits: Awaits,
    pub(crate) value: Transfer,
}

impl Model for CoeClient {
    ghost use Rattle.std.specs.Prelude.{◌≡◌, ◌≤◌, ◌+◌, true};
    ghost use Rattle.coe_client.specs.Talk.{Talking, is_sound, ahead, is_left, is_paced};

    ghost Value = { Talking };

    ghost view = { λ c. record { room = c.room; task = c.task; bytes = c.bytes.octets; unsent = c.unsent; quota = c.quota; going = c.going; awaits = c.awaits; value = c.value.octets } };

    ghost invariant = { λ c. (64 ≤ c.room) × (c.room ≤ 1486) × (c.bytes.limit ≡ 16384) × (c.value.limit ≡ 16384) × (is_sound c.awaits c.value.octets ≡ true) × (c.quota + ahead c.awaits c.value.octets ≤ 16387) × (is_left c.unsent c.bytes.octets ≡ true) × (is_paced c.room c.task c.bytes.octets c.unsent c.quota c.going c.awaits ≡ true) };
}

impl CoeClient {
    /// A client of a slave whose mailboxes have these lengths: the one that requests go through, and the one for answers.
    pub fn new(alloc: Global, out_len: u16, _in_len: u16) -> Result<CoeClient, NoMemory>
        requires least { 64 ≤ out_len }
        requires most { out_len ≤ 1486 }
        ensures idle { IfOk result (λ c. (ms : List CoeMail) → awaited c ms ≡ None) }
        ensures silent { IfOk result (λ c. (hs : List CoeMail) → later c hs ≡ []) }
        ensures room { IfOk result (λ c. c.room ≡ out_len) }
    {
        let bytes = Transfer::new(alloc, MOST)?;
        let value = Transfer::new(alloc, MOST)?;
        Ok(CoeClient {
            room: out_len,
            task: Task::Nothing,
            bytes,
            unsent: Unsent::Nothing,
            quota: 0,
            going: false,
            awaits: Awaits::Nothing,
            value,
        })
    }

    // The service's octets are those that it downloads, and nothing has come yet.
    fn begin(&mut self, task: Task, bytes: &[u8], awaits: Awaits)
        requires small { length bytes.now ≤ 16384 }
        requires fresh { IsFresh awaits }
        requires paced { is_paced self.old.room task bytes.now Unsent.First 1 true awaits ≡ true }
        ensures { self.new ≡ begun self.old.room task bytes.now awaits }
    {
        self.bytes.clear();
        let _fits = self.bytes.add(bytes);
        self.value.clear();
        self.task = task;
        self.unsent = Unsent::First;
        self.quota = 1;
        self.going = true;
        self.awaits = awaits;
    }

    fn begin_service(&mut self, service: &SdoService)
        requires { octets_in service.now ≤ 16384 }
        ensures { self.new ≡ begun_service self.old.room service.now }
    {
        match service {
            SdoService::Download { index, sub, bytes } => {
                let task = Task::Download {
                    index: *index,
                    sub: *sub,
                    all: false,
                };
                self.begin(task, bytes.bytes(), Awaits::Acceptance);
            }
            SdoService::DownloadAll { index, from, bytes } => {
                let task = Task::Download {
                    index: *index,
                    sub: *from,
                    all: true,
                };
                self.begin(task, bytes.bytes(), Awaits::Acceptance);
            }
            SdoService::Upload { index, sub } => {
                let task = Task::Upload {
                    index: *index,
                    sub: *sub,
                    all: false,
                };
                self.begin(task, &[], Awaits::FirstAnswer);
            }
            SdoService::UploadAll { index, from } => {
                let task = Task::Upload {
                    index: *index,
                    sub: *from,
                    all: true,
                };
                self.begin(task, &[], Awaits::FirstAnswer);
            }
            SdoService::List { kind } => {
                self.begin(
                    Task::List { kind: *kind },
                    &[],
                    Awaits::Information { opcode: 2 },
                );
            }
            SdoService::ObjectInfo { index } => {
                self.begin(
                    Task::Object { index: *index },
                    &[],
                    Awaits::Information { opcode: 4 },
                );
            }
            SdoService::EntryInfo { index, sub, info } => {
                let task = Task::Entry {
                    index: *index,
                    sub: *sub,
                    info: *info,
                };
                self.begin(task, &[], Awaits::Information { opcode: 6 });
            }
        }
    }

    /// Begins a service in place of the one before. The client then has the service's first mail to send, and further ones by what it hears.
    pub fn start(&mut self, service: &SdoService)
        requires { octets_in service.now ≤ 16384 }
        ensures replies { (ms : List CoeMail) → awaited self.new ms ≡ ends self.old.room (service_view service.now) ms }
        ensures mails { (hs : List CoeMail) → later self.new hs ≡ planned self.old.room (service_view service.now) hs }
        ensures room { self.new.room ≡ self.old.room }
    {
        self.begin_service(service);
    }

    /// Whether the reply of the service has come whole.
    pub fn is_done(&self) -> bool
        ensures over { result ≡ is_replied self.now.awaits }
        ensures yet { result ≡ false → awaited self.now [] ≡ None }
    {
        match self.awaits {
            Awaits::Over(_) => true,
            Awaits::Nothing
            | Awaits::Acceptance
            | Awaits::SegmentAnswers { left: _, toggle: _ }
            | Awaits::FirstAnswer
            | Awaits::Parts { size: _, toggle: _ }
            | Awaits::Information { opcode: _ } => false,
        }
    }

    /// The reply of the service that is done.
    pub fn reply(&self) -> ReplyKind
        requires { is_replied self.now.awaits ≡ true }
        ensures { awaited self.now [] ≡ Some (result, self.now.value) }
    {
        match self.awaits {
            Awaits::Over(kind) => kind,
            Awaits::Nothing
            | Awaits::Acceptance
            | Awaits::SegmentAnswers { left: _, toggle: _ }
            | Awaits::FirstAnswer
            | Awaits::Parts { size: _, toggle: _ }
            | Awaits::Information { opcode: _ } => unreachable!(),
        }
    }

    /// Appends the value of the service that is done; it is empty where the reply has none. After `NoMemory` the list is as before.
    pub fn value(&self, into: &mut Octets) -> Result<(), NoMemory>
        requires { is_replied self.now.awaits ≡ true }
        ensures ok { OnOk result (into.new ≡ into.old ++ self.now.value) }
        ensures err { OnErr result (into.new ≡ into.old) }
    {
        into.add(self.value.bytes())
    }
}
