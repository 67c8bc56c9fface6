ghost use Rattle.std.specs.Prelude.{◌≡◌, ◌≤◌, ◌++◌, ◌+◌, ◌<◌, ◌^◌, ◌↔◌, List, [], true, false, is_some, length, IfOk, IfSome, OnOk, OnErr, Some, None, Ok};
ghost use Rattle.std.specs.Bool.{OnTrue, OnFalse};
ghost use Rattle.eoe_client.specs.of_protocol_models.CoeModel.{are_octets};
ghost use Rattle.coe_client.specs.Talk.{service_view};
ghost use Rattle.eoe_client.specs.of_protocol_models.FoeMeaning as FoeMeaning;
ghost use Rattle.eoe_client.specs.of_protocol_models.SoeClient as SoeMeaning;
ghost use Rattle.eoe_client.specs.of_protocol_models.Elements.{target};
ghost use Rattle.eoe_client.specs.of_protocol_models.EoeClient as EoeClient;
ghost use Rattle.segment_plan.specs.Sound.{IsService, IsSdo, IsName};
ghost use Rattle.master_hand.specs.Spoken.{sdo, file, drive, net, passed, valid};
ghost use Rattle.master_hand.specs.Passed.{body_of, mail_of};
ghost use Rattle.master_hand.specs.Talk.{client_later, client_awaits, value_of, asked_of, asked_set, octets_of, is_askable, is_mail, ClientTook, Begins, Starts, IsSent};
ghost use Rattle.master_hand.specs.declared.clients.Which.{Which};

use crate::passed::{Content, PassedMail};
use coe_client::CoeClient;
use ec_fields::{NoMemory, Octets};
use eoe::Packet;
use eoe_client::{AddressClient, PacketSender};
use file_store::Name;
use foe_client::FoeClient;
use mailbox_mail::{Kind, Mail, ReplyKind, Took};
use object_dictionary::SdoService;
use segment_plan::Service;
use soe_client::SoeClient;
use std::alloc::Global;
use std::marker::Model;

/// Which client has the newest service.
#[derive(Clone, Copy)]
pub enum Which {
    Coe,
    ReadFile,
    WriteFile,
    Soe,
    Address,
    Packet,
    Passed,
}

/// All clients of one slave. They take all their memory when they are made.
#[derive(Drop)]
pub struct Clients {
    pub(crate) out_len: u16,
    pub(crate) in_len: u16,
    pub(crate) sdo: CoeClient,
    pub(crate) file: FoeClient,
    pub(crate) drive: SoeClient,
    pub(crate) address: AddressClient,
    pub(crate) packets: PacketSender,
    pub(crate) passed: PassedMail,
}

impl Model for Clients {
    ghost use Rattle.std.specs.Prelude.{◌≡◌, ◌≤◌, ◌+◌, length};
    ghost use Rattle.foe_client.specs.Talk.{areas_of};
    ghost use Rattle.master_hand.specs.Talk.{Talking};

    ghost Value = { Talking };

    ghost view = { λ c. record { areas = record { out = c.out_len; back = c.in_len }; sdo = c.sdo; file = c.file; drive = c.drive; address = c.address; packets = c.packets; passed = c.passed } };

    ghost invariant = { λ c. (64 ≤ c.out_len) × (c.out_len ≤ 1486) × (c.sdo.room ≡ c.out_len) × (areas_of c.file ≡ record { out = c.out_len; back = c.in_len }) × (c.drive.room ≡ c.out_len) × (c.address.room ≡ c.out_len) × (c.packets.room ≡ c.out_len) × (6 + length c.passed.content.body.items ≤ c.out_len) };
}

// Octets are below 256: the services of which the laws speak have such.
fn are_octets_of(bytes: &[u8])
    ensures { are_octets bytes.now ≡ true }
{}

// So are those that a service carries.
fn carried_octets(service: &SdoService)
    ensures { are_octets (octets_of service.now) ≡ true }
{
    match service {
        SdoService::Download { bytes, .. } | SdoService::DownloadAll { bytes, .. } => {
            are_octets_of(bytes.bytes());
        }
        SdoService::Upload { .. }
        | SdoService::UploadAll { .. }
        | SdoService::List { .. }
        | SdoService::ObjectInfo { .. }
        | SdoService::EntryInfo { .. } => {}
    }
}

impl Clients {
    /// The clients of a slave whose mailboxes have these lengths: the one that requests go through, and the one for answers.
    pub fn new(alloc: Global, out_len: u16, in_len: u16) -> Result<Clients, NoMemory>
        requires out_least { 64 ≤ out_len }
        requires out_most { out_len ≤ 1486 }
        requires in_least { 64 ≤ in_len }
        requires in_most { in_len ≤ 1486 }
        ensures areas { IfOk result (λ c. c.areas ≡ record { out = out_len; back = in_len }) }
    {
        Ok(Clients {
            out_len,
            in_len,
            sdo: CoeClient::new(alloc, out_len, in_len)?,
            file: FoeClient::new(alloc, out_len, in_len)?,
            drive: SoeClient::new(alloc, out_len, in_len)?,
            address: AddressClient::new(out_len),
            packets: PacketSender::new(out_len),
            passed: PassedMail::new(),
        })
    }

    // A service of CoE begins.
    fn start_sdo(&mut self, service: &SdoService)
        requires { IsSdo service.now }
        ensures starts { Starts self.old.areas (sdo (service_view service.now)) Which.Coe self.new }
        ensures valid { valid self.old.areas (sdo (service_view service.now)) ≡ true }
        ensures areas { self.new.areas ≡ self.old.areas }
    {
        carried_octets(service);
        self.sdo.start(service);
    }

    // A file is read.
    fn start_read(&mut self, name: &Name, pass: u32)
        requires { IsName name.now }
        ensures starts { Starts self.old.areas (file (FoeMeaning.read name.now.items pass)) Which.ReadFile self.new }
        ensures valid { valid self.old.areas (file (FoeMeaning.read name.now.items pass)) ≡ true }
        ensures areas { self.new.areas ≡ self.old.areas }
    {
        self.file.start_read(name.as_slice(), pass);
    }

    // A file is written.
    fn start_write(&mut self, name: &Name, pass: u32, bytes: &[u8])
        requires name { IsName name.now }
        requires small { length bytes.now ≤ 131072 }
        ensures starts { Starts self.old.areas (file (FoeMeaning.write name.now.items pass bytes.now)) Which.WriteFile self.new }
        ensures valid { valid self.old.areas (file (FoeMeaning.write name.now.items pass bytes.now)) ≡ true }
        ensures areas { self.new.areas ≡ self.old.areas }
    {
        self.file.start_write(name.as_slice(), pass, bytes);
    }

    // An element is read.
    fn start_get(&mut self, number: u8, idn: u16, elements: u8)
        requires { number ≤ 7 }
        ensures starts { Starts self.old.areas (drive (SoeMeaning.read (target number idn elements))) Which.Soe self.new }
        ensures valid { valid self.old.areas (drive (SoeMeaning.read (target number idn elements))) ≡ true }
        ensures areas { self.new.areas ≡ self.old.areas }
    {
        self.drive.start_read(number, idn, elements);
    }

    // An element is written.
    fn start_put(&mut self, number: u8, idn: u16, elements: u8, bytes: &[u8])
        requires near { number ≤ 7 }
        requires small { length bytes.now ≤ 4096 }
        ensures starts { Starts self.old.areas (drive (SoeMeaning.write (target number idn elements) bytes.now)) Which.Soe self.new }
        ensures valid { valid self.old.areas (drive (SoeMeaning.write (target number idn elements) bytes.now)) ≡ true }
        ensures areas { self.new.areas ≡ self.old.areas }
    {
        self.drive.start_write(number, idn, elements, bytes);
    }

    // An address block goes through the mailbox with 10 octets in front of it.
    fn start_set(&mut self, block: &[u8]) -> Option<Which>
        ensures begins { Begins result (asked_set self.old.areas.out block.now) self.old self.new }
        ensures areas { self.new.areas ≡ self.old.areas }
    {
        if block.len() + 10 > self.out_len as usize {
            return None;
        }
        self.address.start_set(block);
        Some(Which::Address)
    }

    // The address block is asked for.
    fn start_addresses(&mut self)
        ensures starts { Starts self.old.areas (net EoeClient.get_ip) Which.Address self.new }
        ensures areas { self.new.areas ≡ self.old.areas }
    {
        self.address.start_get();
    }

    /// Begins a service of a script. `None` for a change of state, a packet, and an address block that the mailbox has no room for.
    pub fn start(&mut self, service: &Service) -> Option<Which>
        requires { IsService service.now }
        ensures begins { Begins result (asked_of self.old.areas.out service.now) self.old self.new }
        ensures valid { is_askable self.old.areas (asked_of self.old.areas.out service.now) ≡ true }
        ensures areas { self.new.areas ≡ self.old.areas }
    {
        match service {
            Service::Sdo(sdo) => {
                self.start_sdo(sdo);
                Some(Which::Coe)
            }
            Service::ReadFile { name, pass } => {
                self.start_read(name, *pass);
                Some(Which::ReadFile)
            }
            Service::WriteFile { name, pass, bytes } => {
                self.start_write(name, *pass, bytes.bytes());
                Some(Which::WriteFile)
            }
            Service::ReadIdn {
                drive,
                idn,
                elements,
            } => {
                self.start_get(*drive, *idn, *elements);
                Some(Which::Soe)
            }
            Service::WriteIdn {
                drive,
                idn,
                elements,
                bytes,
            } => {
                self.start_put(*drive, *idn, *elements, bytes.bytes());
                Some(Which::Soe)
            }
            Service::SetIp { block } => self.start_set(block.bytes()),
            Service::GetIp => {
                self.start_addresses();
                Some(Which::Address)
            }
            Service::State { .. } | Service::Forward(_) => None,
        }
    }

    /// Begins to send a packet with this frame number.
    pub fn start_packet(&mut self, packet: &Packet, frame: u8)
        requires { frame < 2 ^ 4 }
        ensures starts { Starts self.old.areas (net (EoeClient.packet packet.now.items frame)) Which.Packet self.new }
        ensures areas { self.new.areas ≡ self.old.areas }
    {
        self.packets.start(packet, frame);
    }

    /// Begins to pass on a mail.
    pub fn start_mail(&mut self, mail: &Content)
        requires { 6 + length mail.now.body.items ≤ self.old.areas.out }
        ensures starts { Starts self.old.areas (passed (mail_of mail.now)) Which.Passed self.new }
        ensures areas { self.new.areas ≡ self.old.areas }
    {
        self.passed.start(mail.kind, mail.body.as_slice());
    }

    /// Whether a mail is left to send.
    pub fn has_next(&self, which: Which) -> bool
        ensures { result ≡ false ↔ (client_later which self.now [] ≡ []) }
    {
        match which {
            Which::Coe => self.sdo.has_next(),
            Which::ReadFile | Which::WriteFile => self.file.has_next(),
            Which::Soe => self.drive.has_next(),
            Which::Address => self.address.has_next(),
            Which::Packet => self.packets.has_next(),
            Which::Passed => self.passed.unsent,
        }
    }

    // The next mail of a service of CoE.
    fn next_sdo(&mut self, held: &mut Content) -> bool
        ensures sent { IsSent result Which.Coe self.old held.new self.new }
        ensures rest { OnFalse result (client_later Which.Coe self.old [] ≡ []) }
    {
        held.kind = Kind::CoE;
        self.sdo.next_mail(&mut held.body)
    }

    // The same of FoE.
    fn next_file(&mut self, held: &mut Content) -> bool
        ensures sent { IsSent result Which.ReadFile self.old held.new self.new }
        ensures rest { OnFalse result (client_later Which.ReadFile self.old [] ≡ []) }
    {
        held.kind = Kind::FoE;
        self.file.next_mail(&mut held.body)
    }

    // The same of SoE.
    fn next_drive(&mut self, held: &mut Content) -> bool
        ensures sent { IsSent result Which.Soe self.old held.new self.new }
        ensures rest { OnFalse result (client_later Which.Soe self.old [] ≡ []) }
    {
        held.kind = Kind::SoE;
        self.drive.next_mail(&mut held.body)
    }

    // The same of an address service.
    fn next_address(&mut self, held: &mut Content) -> bool
        ensures sent { IsSent result Which.Address self.old held.new self.new }
        ensures rest { OnFalse result (client_later Which.Address self.old [] ≡ []) }
    {
        held.kind = Kind::EoE;
        self.address.next_mail(&mut held.body)
    }

    // The next fragment of a packet.
    fn next_fragment(&mut self, held: &mut Content) -> bool
        ensures sent { IsSent result Which.Packet self.old held.new self.new }
        ensures rest { OnFalse result (client_later Which.Packet self.old [] ≡ []) }
    {
        held.kind = Kind::EoE;
        self.packets.next_mail(&mut held.body)
    }

    // The mail that is passed on.
    fn next_passed(&mut self, held: &mut Content) -> bool
        ensures sent { IsSent result Which.Passed self.old held.new self.new }
        ensures rest { OnFalse result (client_later Which.Passed self.old [] ≡ []) }
    {
        self.passed.next_mail(held)
    }

    /// Puts the next mail in place of what `held` has; `false` where none is left.
    pub fn next_mail(&mut self, which: Which, held: &mut Content) -> bool
        ensures sent { IsSent result which self.old held.new self.new }
        ensures rest { OnFalse result (client_later which self.old [] ≡ []) }
    {
        match which {
            Which::Coe => self.next_sdo(held),
            Which::ReadFile => self.next_file(held),
            Which::WriteFile => self.next_file(held),
            Which::Soe => self.next_drive(held),
            Which::Address => self.next_address(held),
            Which::Packet => self.next_fragment(held),
            Which::Passed => self.next_passed(held),
        }
    }

    // A mail comes to the client of CoE.
    fn take_sdo(&mut self, mail: &Mail) -> Took
        ensures took { ClientTook result Which.Coe self.old (body_of mail.now) self.new }
        ensures areas { self.new.areas ≡ self.old.areas }
    {
        self.sdo.take(mail)
    }

    // The same of FoE.
    fn take_file(&mut self, mail: &Mail) -> Took
        ensures took { ClientTook result Which.ReadFile self.old (body_of mail.now) self.new }
        ensures areas { self.new.areas ≡ self.old.areas }
    {
        self.file.take(mail)
    }

    // The same of SoE.
    fn take_drive(&mut self, mail: &Mail) -> Took
        ensures took { ClientTook result Which.Soe self.old (body_of mail.now) self.new }
        ensures areas { self.new.areas ≡ self.old.areas }
    {
        self.drive.take(mail)
    }

    // The same of an address service.
    fn take_address(&mut self, mail: &Mail) -> Took
        ensures took { ClientTook result Which.Address self.old (body_of mail.now) self.new }
        ensures areas { self.new.areas ≡ self.old.areas }
    {
        self.address.take(mail)
    }

    // A reply of a mail that is passed on.
    fn take_passed(&mut self, mail: &Mail) -> Took
        ensures took { ClientTook result Which.Passed self.old (body_of mail.now) self.new }
        ensures areas { self.new.areas ≡ self.old.areas }
    {
        self.passed.take(mail)
    }

    /// Takes a mail that replies; a packet has no reply.
    pub fn take(&mut self, which: Which, mail: &Mail) -> Took
        ensures took { ClientTook result which self.old (body_of mail.now) self.new }
        ensures areas { self.new.areas ≡ self.old.areas }
    {
        match which {
            Which::Coe => self.take_sdo(mail),
            Which::ReadFile => self.take_file(mail),
            Which::WriteFile => self.take_file(mail),
            Which::Soe => self.take_drive(mail),
            Which::Address => self.take_address(mail),
            Which::Packet => Took::Foreign,
            Which::Passed => self.take_passed(mail),
        }
    }

    // The reply of CoE that is complete.
    fn sdo_reply(&self) -> Option<ReplyKind>
        requires { is_some (client_awaits Which.Coe self.now []) ≡ true }
        ensures reply { IfSome result (λ kind. client_awaits Which.Coe self.now [] ≡ Some (Some (kind, value_of Which.Coe self.now))) }
        ensures some { is_some result ≡ true }
    {
        if !self.sdo.is_done() {
            return None;
        }
        Some(self.sdo.reply())
    }

    // And its value.
    fn sdo_value(&self, into: &mut Octets) -> Result<(), NoMemory>
        requires { is_some (client_awaits Which.Coe self.now []) ≡ true }
        ensures ok { OnOk result (into.new ≡ into.old ++ value_of Which.Coe self.now) }
        ensures err { OnErr result (into.new ≡ into.old) }
    {
        if !self.sdo.is_done() {
            return Ok(());
        }
        self.sdo.value(into)
    }

    /// The kind of the reply that is complete; packets and mails that are passed on have none.
    pub fn reply(&self, which: Which) -> Option<ReplyKind>
        requires { is_some (client_awaits which self.now []) ≡ true }
        ensures reply { IfSome result (λ kind. client_awaits which self.now [] ≡ Some (Some (kind, value_of which self.now))) }
        ensures none { result ≡ None → is_mail which ≡ true }
    {
        match which {
            Which::Coe => self.sdo_reply(),
            Which::ReadFile | Which::WriteFile => Some(self.file.reply()),
            Which::Soe => Some(self.drive.reply()),
            Which::Address => Some(self.address.reply()),
            Which::Packet | Which::Passed => None,
        }
    }

    /// Appends the value of the reply that is complete. After `NoMemory` the list is as before.
    pub fn value(&self, which: Which, into: &mut Octets) -> Result<(), NoMemory>
        requires { is_some (client_awaits which self.now []) ≡ true }
        ensures ok { OnOk result (into.new ≡ into.old ++ value_of which self.now) }
        ensures err { OnErr result (into.new ≡ into.old) }
    {
        match which {
            Which::Coe => self.sdo_value(into),
            Which::ReadFile | Which::WriteFile => self.file.value(into),
            Which::Soe => self.drive.value(into),
            Which::Address => self.address.value(into),
            Which::Packet | Which::Passed => Ok(()),
        }
    }
}
