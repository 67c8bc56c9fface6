ghost use Rattle.std.specs.Prelude.{◌≡◌, ◌≢◌, ◌≤◌, ◌+◌, List, [], ◌∷◌, ◌++◌, true, false, length, None, Some, IfSome};
ghost use Rattle.coe_client.specs.of_exchange_model.Areas.{AreMailboxes};
ghost use Rattle.coe_client.specs.of_exchange_model.Exchange.{plain, emitted};
ghost use Rattle.coe_client.specs.of_object_dictionary.Dictionary.{Table};
ghost use Rattle.coe_client.specs.of_protocol_models.CoeMails.{CoeMail, mail, fragment, Emergency, is_emission};
ghost use Rattle.coe_client.specs.of_protocol_models.CoeMeaning.{meaning_of};
ghost use Rattle.coe_client.specs.of_protocol_models.CoeOctets.{body_heard, coe_mail_heard};
ghost use Rattle.coe_server.specs.Serving.{transfer_of, waiting_mails};
ghost use Rattle.coe_client.specs.Talk.{service_view, octets_in, is_replied};
ghost use Rattle.coe_law.specs.Mailboxes.{lengths_of};
ghost use Rattle.coe_law.specs.Talks.{means, emission_mails, areas_of, all_mails, Hears, IsAwaited, IsGiven, packet_mails};

use crate::carried::{Carried, Emission};
use crate::mailbox::Mailboxes;
use arrayvec::ArrayVec;
use coe_client::CoeClient;
use coe_codec::Coe;
use coe_server::CoeServer;
use mailbox_mail::{Kind, Mail};
use object_dictionary::{Objects, SdoService};

// The octets of an emergency.
fn emergency_of(message: Coe) -> Option<ArrayVec<u8, 8>>
    ensures some { IfSome result (λ octets. message ≡ Emergency octets) }
    ensures none { result ≡ None → is_emission (mail message) ≡ false }
{
    match message {
        Coe::Emergency { octets } => Some(octets),
        _ => None,
    }
}

// The emergency in the body of a CoE mail, if it is one.
fn emergency_read(body: &[u8]) -> Option<ArrayVec<u8, 8>>
    requires { length body.now ≤ 1480 }
    ensures some { IfSome result (λ octets. body_heard body.now ≡ mail (Emergency octets)) }
    ensures none { result ≡ None → is_emission (body_heard body.now) ≡ false }
{
    match coe_codec::read(body) {
        Ok(message) => emergency_of(message),
        Err(_) => None,
    }
}

// The emergency in a mail, if it is one.
fn emergency_in(given: &Mail) -> Option<ArrayVec<u8, 8>>
    requires { IsGiven (coe_mail_heard given.now) }
    ensures some { IfSome result (λ octets. coe_mail_heard given.now ≡ mail (Emergency octets)) }
    ensures none { result ≡ None → is_emission (coe_mail_heard given.now) ≡ false }
{
    match given.kind {
        Kind::CoE => emergency_read(given.body.as_slice()),
        Kind::Error | Kind::AoE | Kind::EoE | Kind::FoE | Kind::SoE | Kind::VoE => None,
    }
}

// The client's side hears a mail; an emergency is kept beside it.
fn hear(client: &mut CoeClient, given: &Mail, emission: &mut Option<Emission>)
    requires given { IsGiven (coe_mail_heard given.now) }
    requires awaited { IsAwaited client.old (plain is_emission (coe_mail_heard given.now ∷ [])) }
    requires one { length (emission_mails emission.old ++ emitted is_emission (coe_mail_heard given.now ∷ [])) ≤ 1 }
    ensures hears { Hears client.old (plain is_emission (coe_mail_heard given.now ∷ [])) client.new }
    ensures emission { emission_mails emission.new ≡ emission_mails emission.old ++ emitted is_emission (coe_mail_heard given.now ∷ []) }
{
    match emergency_in(given) {
        Some(octets) => *emission = Some(Emission::Emergency(octets)),
        None => {
            let _took = client.take(given);
        }
    }
}

// It hears all mails that wait in the server, one by one through the mailbox for answers.
fn hear_all(
    client: &mut CoeClient,
    server: &mut CoeServer,
    mailboxes: &mut Mailboxes,
    emission: &mut Option<Emission>,
)
    requires long { (lengths_of mailboxes.old).back ≡ server.old.room }
    requires awaited { IsAwaited client.old (plain is_emission (waiting_mails server.old)) }
    requires one { length (emission_mails emission.old ++ emitted is_emission (waiting_mails server.old)) ≤ 1 }
    ensures hears { Hears client.old (plain is_emission (waiting_mails server.old)) client.new }
    ensures emission { emission_mails emission.new ≡ emission_mails emission.old ++ emitted is_emission (waiting_mails server.old) }
    ensures silent { waiting_mails server.new ≡ [] }
    ensures transfer { transfer_of server.new ≡ transfer_of server.old }
    ensures room { server.new.room ≡ server.old.room }
    ensures eoe { server.new.eoe ≡ server.old.eoe }
    ensures lengths { lengths_of mailboxes.new ≡ lengths_of mailboxes.old }
{
    while server.waiting() {
        let given = server.next();
        let heard = mailboxes.answer(given);
        hear(client, &heard, emission);
    }
}

// The packet that a mail has emitted is kept beside the mails.
fn take_packet(server: &mut CoeServer, emission: &mut Option<Emission>)
    requires { length (emission_mails emission.old ++ packet_mails server.old) ≤ 1 }
    ensures emission { emission_mails emission.new ≡ emission_mails emission.old ++ packet_mails server.old }
    ensures waits { waiting_mails server.new ≡ waiting_mails server.old }
    ensures transfer { transfer_of server.new ≡ transfer_of server.old }
    ensures room { server.new.room ≡ server.old.room }
    ensures eoe { server.new.eoe ≡ server.old.eoe }
{
    let mut octets = ArrayVec::new();
    if server.packet(&mut octets) {
        *emission = Some(Emission::Packet(octets));
    }
}

/// Carries out a service by the mails of a client and a server, each through the mailbox of its direction, until the client has its whole reply. The reply, the value that the client
/// then has, the objects and the emission are those that the service means on whole values, at each pair of mailbox lengths and whatever
/// transfer the server had not finished.
pub fn carry_out(
    client: &mut CoeClient,
    server: &mut CoeServer,
    mailboxes: &mut Mailboxes,
    objects: &mut Objects,
    al: u8,
    service: &SdoService,
) -> Carried
    requires lengths { lengths_of mailboxes.old ≡ areas_of client.old server.old }
    requires size { octets_in service.now ≤ 16384 }
    requires areas { AreMailboxes (areas_of client.old server.old) }
    requires silent { waiting_mails server.old ≡ [] }
    ensures objects { objects.new ≡ (means al server.old.eoe objects.old (service_view service.now)).app }
    ensures over { is_replied client.new.awaits ≡ true }
    ensures reply { (result.kind, client.new.value) ≡ (means al server.old.eoe objects.old (service_view service.now)).reply }
    ensures emission { emission_mails result.emission ≡ (means al server.old.eoe objects.old (service_view service.now)).emits }
    ensures mails { result.mails ≡ length (all_mails al client.old server.old objects.old (service_view service.now)) }
    ensures silent { waiting_mails server.new ≡ [] }
    ensures areas { areas_of client.new server.new ≡ areas_of client.old server.old }
    ensures lengths { lengths_of mailboxes.new ≡ lengths_of mailboxes.old }
    ensures eoe { server.new.eoe ≡ server.old.eoe }
{
    // That the objects are sound is wanted in the proof: counting them brings it there.
    let _objects = objects.len();
    client.start(service);
    let mut emission = None;
    let mut mails = 0;
    let mut body = ArrayVec::new();
    while client.next_mail(&mut body) {
        mails += 1;
        let request = mailboxes.request(body.as_slice());
        let _counts = server.take(objects, al, request.body.as_slice());
        take_packet(server, &mut emission);
        hear_all(client, server, mailboxes, &mut emission);
    }
    let _done = client.is_done();
    Carried {
        kind: client.reply(),
        emission,
        mails,
    }
}
