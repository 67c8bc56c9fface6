ghost use Rattle.std.specs.Prelude.{◌≡◌, ◌≤◌, ◌++◌, [], true, length, is_some, Some, IfOk, OnOk, OnErr};
ghost use Rattle.std.specs.Bool.{OnTrue, OnFalse};
ghost use Rattle.segment_plan.specs.Sound.{IsSdo, IsName};
ghost use Rattle.segment_plan.specs.declared.service.Service.TheVariants as services;
ghost use Rattle.gateway_tool.specs.Rule.{IsForm};
ghost use Rattle.gateway_tool.specs.Client.{left, awaits, kind_of, Begins, SendsNext, Takes};

use crate::reply::Reply;
use arrayvec::ArrayVec;
use coe_client::CoeClient;
use ec_fields::NoMemory;
use file_store::Name;
use foe_client::FoeClient;
use mailbox_mail::{Kind, Mail, Took};
use object_dictionary::SdoService;
use segment_plan::Service;
use std::alloc::Global;

/// A service at the client of its protocol.
#[derive(Drop)]
pub enum Client {
    Sdo(CoeClient),
    File(FoeClient),
}

// A service of CoE begins.
fn begin_sdo(
    alloc: Global,
    out_len: u16,
    in_len: u16,
    service: &SdoService,
) -> Result<Client, NoMemory>
    requires out_least { 64 ≤ out_len }
    requires out_most { out_len ≤ 1486 }
    requires sdo { IsSdo service.now }
    ensures begins { IfOk result (Begins (record { out = out_len; back = in_len }) (services.Sdo service.now)) }
{
    let mut client = CoeClient::new(alloc, out_len, in_len)?;
    client.start(service);
    Ok(Client::Sdo(client))
}

// A file is read.
fn begin_read(
    alloc: Global,
    out_len: u16,
    in_len: u16,
    name: &Name,
    pass: u32,
) -> Result<Client, NoMemory>
    requires out_least { 64 ≤ out_len }
    requires out_most { out_len ≤ 1486 }
    requires in_least { 64 ≤ in_len }
    requires in_most { in_len ≤ 1486 }
    requires name { IsName name.now }
    ensures begins { IfOk result (Begins (record { out = out_len; back = in_len }) (services.ReadFile name.now pass)) }
{
    let mut client = FoeClient::new(alloc, out_len, in_len)?;
    client.start_read(name.as_slice(), pass);
    Ok(Client::File(client))
}

// A file is written.
fn begin_write(
    alloc: Global,
    out_len: u16,
    in_len: u16,
    name: &Name,
    pass: u32,
    bytes: &[u8],
) -> Result<Client, NoMemory>
    requires out_least { 64 ≤ out_len }
    requires out_most { out_len ≤ 1486 }
    requires in_least { 64 ≤ in_len }
    requires in_most { in_len ≤ 1486 }
    requires name { IsName name.now }
    requires small { length bytes.now ≤ 131072 }
    ensures begins { IfOk result (Begins (record { out = out_len; back = in_len }) (services.WriteFile name.now pass bytes.now)) }
{
    let mut client = FoeClient::new(alloc, out_len, in_len)?;
    client.start_write(name.as_slice(), pass, bytes);
    Ok(Client::File(client))
}

impl Client {
    /// The service begins, at a slave whose mailboxes have these lengths.
    pub fn begin(
        alloc: Global,
        out_len: u16,
        in_len: u16,
        service: &Service,
    ) -> Result<Client, NoMemory>
        requires out_least { 64 ≤ out_len }
        requires out_most { out_len ≤ 1486 }
        requires in_least { 64 ≤ in_len }
        requires in_most { in_len ≤ 1486 }
        requires form { IsForm service.now }
        ensures begins { IfOk result (Begins (record { out = out_len; back = in_len }) service.now) }
    {
        match service {
            Service::Sdo(sdo) => begin_sdo(alloc, out_len, in_len, sdo),
            Service::ReadFile { name, pass } => begin_read(alloc, out_len, in_len, name, *pass),
            Service::WriteFile { name, pass, bytes } => {
                begin_write(alloc, out_len, in_len, name, *pass, bytes.bytes())
            }
            _ => unreachable!(),
        }
    }

    /// The kind of its mails.
    pub fn kind(&self) -> Kind
        ensures { result ≡ kind_of self.now }
    {
        match self {
            Client::Sdo(_) => Kind::CoE,
            Client::File(_) => Kind::FoE,
        }
    }

    /// Puts the body of the next mail in place of what `body` has. `false` where none may go now; then nothing changed.
    pub fn next_mail(&mut self, body: &mut ArrayVec<u8, 1480>) -> bool
        ensures sends { OnTrue result (SendsNext self.old body.new.items self.new) }
        ensures none { OnFalse result (left self.old [] ≡ []) }
        ensures same { OnFalse result (self.new ≡ self.old) }
    {
        match self {
            Client::Sdo(client) => client.next_mail(body),
            Client::File(client) => client.next_mail(body),
        }
    }

    /// Takes a mail of the slave, where no mail is left to send; then one is left at most.
    pub fn take(&mut self, mail: &Mail) -> Took
        requires { left self.old [] ≡ [] }
        ensures takes { Takes result self.old mail.now self.new }
        ensures few { length (left self.new []) ≤ 1 }
    {
        match self {
            Client::Sdo(client) => client.take(mail),
            Client::File(client) => client.take(mail),
        }
    }

    /// Puts the reply that is complete in place of `into`, which has no value. After `NoMemory` nothing changed.
    pub fn reply(&self, into: &mut Reply) -> Result<(), NoMemory>
        requires done { is_some (awaits self.now []) ≡ true }
        requires empty { into.old.value ≡ [] }
        ensures ok { OnOk result (awaits self.now [] ≡ Some (into.new.kind, into.new.value)) }
        ensures err { OnErr result (into.new ≡ into.old) }
    {
        match self {
            Client::Sdo(client) => {
                if !client.is_done() {
                    unreachable!();
                }
                client.value(&mut into.value)?;
                into.kind = client.reply();
            }
            Client::File(client) => {
                client.value(&mut into.value)?;
                into.kind = client.reply();
            }
        }
        Ok(())
    }
}
