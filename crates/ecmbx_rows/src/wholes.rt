//! Services as a whole: on a slave's application, and by the mails of a client and a server on its objects.

ghost use Rattle.std.specs.Prelude.{◌≡◌, ◌≤◌, All, IfSome};
ghost use Rattle.segment_plan.specs.Sound.{IsSlave, IsAddressed, IsPacket, IsLaid};
ghost use Rattle.slave_app.specs.Meaning.{IsPerformable};
ghost use Rattle.coe_client.specs.Talk.{octets_in};

use coe_client::CoeClient;
use coe_law::{Mailboxes, carry_out};
use coe_server::CoeServer;
use ec_fields::{NoMemory, Octets, buffer_of};
use eoe::Packet;
use mailbox_mail::ReplyKind;
use object_dictionary::{Objects, SdoService};
use reply_text::reply_text;
use row_table::{Bench, Page, Row};
use scenario::read;
use segment_plan::{Scenario, Service, SlaveSpec};
use slave_app::{App, Emission, Performed};
use slave_server::objects_of;
use std::alloc::Global;
use std::marker::Model;

// Tells what a service came to, and what the slave sent of itself.
fn tell(page: &mut Page, done: &Performed) {
    match reply_text(page.alloc(), done.reply.kind, done.reply.value.bytes()) {
        Ok(text) => page.put_octets(text.bytes()),
        Err(_) => page.fail(),
    }
    page.put("\n");
    match &done.emission {
        Some(Emission::Emergency(octets)) => page.line("emergency", octets.as_slice()),
        Some(Emission::Packet(packet)) => page.line("host", packet.as_slice()),
        None => {}
    }
}

// A service is carried out on an application.
fn perform(page: &mut Page, app: &mut App, service: &Service)
    requires { IsPerformable service.now }
{
    if app.handled == u64::MAX {
        return page.fail();
    }
    match app.perform(page.alloc(), service) {
        Ok(done) => tell(page, &done),
        Err(_) => page.fail(),
    }
}

// Services, one after the other.
#[tactic(auto, using(crate::proofs::Performable::performable))]
fn services(page: &mut Page, app: &mut App, slaves: usize, rows: &[(u32, Service)])
    requires { All (IsAddressed slaves) rows.now }
{
    for (slave, service) in rows {
        page.check(*slave == 0);
        perform(page, app, service);
    }
}

// Packets, one after the other.
fn packets(page: &mut Page, app: &mut App, rows: &[Packet])
    requires { All IsPacket rows.now }
{
    for packet in rows {
        let service = Service::Forward(buffer_of(packet.as_slice()));
        perform(page, app, &service);
    }
}

// The first slave of some.
fn first(slaves: &[SlaveSpec]) -> Option<&SlaveSpec>
    requires { All IsSlave slaves.now }
    ensures { IfSome result (λ s. IsSlave s.now) }
{
    slaves.first()
}

// The application of the first slave of a plan.
fn app_for(alloc: Global, plan: &Scenario) -> Option<App>
    requires { IsLaid plan.now }
{
    let spec = first(plan.slaves.as_slice())?;
    App::new(alloc, spec).ok()
}

// The services and the host's packets of a plan on the application of its first slave.
fn follow(page: &mut Page, plan: &Scenario)
    requires { IsLaid plan.now }
{
    let Some(mut app) = app_for(page.alloc(), plan) else {
        return page.fail();
    };
    let slaves = plan.slaves.len();
    services(page, &mut app, slaves, plan.services.as_slice());
    packets(page, &mut app, plan.host.as_slice());
    page.say("handled");
    page.show(app.handled);
    page.put("\n");
}

/// The services and the host's packets of a scenario on the application of its first slave: what each came to, what the slave sent of itself, and how many
/// it counted.
pub fn tell_whole(row: &mut Row<'_>, octets: &[u8]) {
    let mut page = Page::new(row.alloc());
    match read(row.alloc(), octets) {
        Ok(plan) => follow(&mut page, &plan),
        Err(_) => row.fail(),
    }
    row.check(!page.is_faulty());
    row.quote(page.text().as_bytes());
}

/// A client and a server at rest, on the objects of a slave.
#[derive(Drop)]
pub struct CarriedBench {
    client: CoeClient,
    server: CoeServer,
    mailboxes: Mailboxes,
    objects: Objects,
}

impl Model for CarriedBench {
    ghost use Rattle.std.specs.Prelude.{◌≡◌, []};
    ghost use Rattle.object_dictionary.specs.Dictionary.{Table};
    ghost use Rattle.exchange_model.specs.Areas.{AreMailboxes};
    ghost use Rattle.coe_server.specs.Serving.{waiting_mails};
    ghost use Rattle.coe_law.specs.Mailboxes.{lengths_of};
    ghost use Rattle.coe_law.specs.Talks.{areas_of};

    ghost Value = { Table };

    ghost view = { λ b. b.objects };

    ghost invariant = { λ b. AreMailboxes (areas_of b.client b.server) × (lengths_of b.mailboxes ≡ areas_of b.client b.server) ×
        (waiting_mails b.server ≡ []) };
}

// How many octets a service brings.
fn len_of(service: &SdoService) -> usize
    ensures { result ≡ octets_in service.now }
{
    match service {
        SdoService::Download { bytes, .. } | SdoService::DownloadAll { bytes, .. } => bytes.len(),
        SdoService::Upload { .. }
        | SdoService::UploadAll { .. }
        | SdoService::List { .. }
        | SdoService::ObjectInfo { .. }
        | SdoService::EntryInfo { .. } => 0,
    }
}

// The service of a word, for an object, with octets that it brings or `value`.
fn service_in(row: &mut Row<'_>) -> (SdoService, Octets) {
    let call = row.word();
    let (index, sub) = (row.short(), row.small());
    let octets = row.octets();
    let none = Octets::new(row.alloc());
    match call {
        "download" => (
            SdoService::Download {
                index,
                sub,
                bytes: octets,
            },
            none,
        ),
        "download_all" => (
            SdoService::DownloadAll {
                index,
                from: sub,
                bytes: octets,
            },
            none,
        ),
        "upload" => (SdoService::Upload { index, sub }, octets),
        "upload_all" => (SdoService::UploadAll { index, from: sub }, octets),
        _ => {
            row.fail();
            (SdoService::Upload { index, sub }, octets)
        }
    }
}

impl CarriedBench {
    // Mailboxes of 64 octets over these objects.
    fn over(alloc: Global, objects: Objects) -> Result<CarriedBench, NoMemory> {
        let client = CoeClient::new(alloc, 64, 64)?;
        let server = CoeServer::new(alloc, true, 64)?;
        let mailboxes = Mailboxes::new(alloc, 64, 64)?;
        Ok(CarriedBench {
            client,
            server,
            mailboxes,
            objects,
        })
    }

    // The same over the objects of the first slave of a plan.
    fn of(alloc: Global, plan: &Scenario) -> Option<CarriedBench>
        requires { IsLaid plan.now }
    {
        let spec = first(plan.slaves.as_slice())?;
        let objects = objects_of(alloc, spec).ok()?;
        CarriedBench::over(alloc, objects).ok()
    }

    /// Mailboxes of 64 octets over the objects of the first slave of a scenario.
    pub fn new(alloc: Global, scenario: &[u8]) -> Option<CarriedBench> {
        match read(alloc, scenario) {
            Ok(plan) => CarriedBench::of(alloc, &plan),
            Err(_) => None,
        }
    }

    // Carries out a service in PreOp: its reply, and by how many mails.
    fn serve(&mut self, row: &mut Row<'_>, service: &SdoService, value: &[u8]) {
        if len_of(service) > 16_384 {
            return row.fail();
        }
        let carried = carry_out(
            &mut self.client,
            &mut self.server,
            &mut self.mailboxes,
            &mut self.objects,
            2,
            service,
        );
        let mut had = Octets::new(row.alloc());
        row.check(self.client.value(&mut had).is_ok());
        row.check(had.bytes() == value);
        row.say(match carried.kind {
            ReplyKind::Done => "done",
            ReplyKind::Value => "value",
            _ => "refused",
        });
        row.show(carried.mails as u64);
    }
}

impl Bench for CarriedBench {
    fn carry(&mut self, row: &mut Row<'_>) {
        let (service, value) = service_in(row);
        self.serve(row, &service, value.bytes());
    }
}
