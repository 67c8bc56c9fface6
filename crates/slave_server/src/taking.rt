ghost use Rattle.std.specs.Prelude.{◌≡◌, ◌<◌, ◌+◌, ◌%◌, [], true, Ok};
ghost use Rattle.slave_parts.specs.of_coe_server.declared.state.Emitted.{Emitted};
ghost use Rattle.soe_server.specs.of_protocol_models.EoeMails.{packet_mails};
ghost use Rattle.slave_parts.specs.of_eoe_server.Serving.{cut_mails};
ghost use Rattle.slave_node.specs.of_link_mails.Body.{link_read, uncounted};
ghost use Rattle.slave_parts.specs.of_slave_model.Profile.{Protocol, serves};
ghost use Rattle.slave_server.specs.Serving.{takes, failed, counted};

use crate::quiet::{is_last_ether, is_quiet_drive, is_quiet_ether};
use crate::server::SlaveServer;
use coe_server::CoeServer;
use eoe::Packet;
use eoe_server::EoeServer;
use mailbox_mail::{Kind, Mail, MailFault};

/// The AL state in which files alone are served.
const BOOTSTRAP: u8 = 3;

/// The mailbox error of a protocol that isn't served.
const UNSUPPORTED: u16 = 2;

/// The mailbox error of a mail whose length isn't right.
const INVALID_SIZE: u16 = 8;

// The packet that a mail of CoE emitted goes to the sender of EoE. Apart from the taking of mails, so that only a packet pays for its room.
fn hand_over(sdo: &mut CoeServer, ether: &mut EoeServer)
    requires { sdo.old.emitted ≡ Emitted.Packet }
    ensures once { sdo.new ≡ record sdo.old { emitted = Emitted.Nothing } }
    ensures sends { cut_mails ether.new.sending ≡ packet_mails ether.old.room sdo.old.octets ether.old.frame }
    ensures frame { ether.new.frame ≡ (ether.old.frame + 1) % 16 }
    ensures same { ether.new ≡ record ether.old { frame = ether.new.frame; sending = ether.new.sending } }
{
    let mut packet = Packet::new();
    let _given = sdo.packet(&mut packet);
    ether.send(&packet);
}

impl SlaveServer {
    // A mailbox error, which counts as a service.
    fn fail(&mut self, detail: u16)
        requires few { self.old.server.handled < 18446744073709551615 }
        requires idle { self.old.waiting ≡ [] }
        ensures { self.new ≡ failed self.old detail }
    {
        self.failure = Some(detail);
        self.handled += 1;
    }

    // One service more.
    fn count(&mut self)
        requires few { self.old.server.handled < 18446744073709551615 }
        ensures { self.new ≡ counted self.old }
    {
        // A field is named so that the proof has what holds of the fields.
        let _ = &self.failure;
        self.handled += 1;
    }

    // A mail of CoE, which is served. A packet that it emits goes out by the sender of EoE.
    fn take_sdo(&mut self, mail: &Mail, al: u8)
        requires few { self.old.server.handled < 18446744073709551615 }
        requires idle { self.old.waiting ≡ [] }
        requires kind { mail.now.kind ≡ Kind.CoE }
        requires served { serves self.old.profile al Protocol.CoE ≡ true }
        ensures { self.new ≡ takes self.old (Ok (uncounted mail.now)) al }
    {
        // A field is named so that the proof has what holds of the fields.
        let _ = &self.failure;
        let counts = self.sdo.take(&mut self.objects, al, mail.body.as_slice());
        self.handled += counts as u64;
        if self.sdo.has_packet() {
            hand_over(&mut self.sdo, &mut self.ether);
        }
    }

    // A mail of FoE, which is served.
    fn take_file(&mut self, mail: &Mail, al: u8)
        requires few { self.old.server.handled < 18446744073709551615 }
        requires idle { self.old.waiting ≡ [] }
        requires kind { mail.now.kind ≡ Kind.FoE }
        requires served { serves self.old.profile al Protocol.FoE ≡ true }
        ensures { self.new ≡ takes self.old (Ok (uncounted mail.now)) al }
    {
        // A field is named so that the proof has what holds of the fields.
        let _ = &self.failure;
        if self.file.take(&mut self.store, al, mail.body.as_slice()) {
            self.handled += 1;
        }
    }

    // A mail of SoE, which is served.
    fn take_drive(&mut self, mail: &Mail, al: u8)
        requires few { self.old.server.handled < 18446744073709551615 }
        requires idle { self.old.waiting ≡ [] }
        requires kind { mail.now.kind ≡ Kind.SoE }
        requires served { serves self.old.profile al Protocol.SoE ≡ true }
        ensures { self.new ≡ takes self.old (Ok (uncounted mail.now)) al }
    {
        // A field is named so that the proof has what holds of the fields.
        let _ = &self.failure;
        if self.drive.take(&mut self.idns, mail.body.as_slice()) {
            self.handled += 1;
        }
    }

    // A mail of EoE, which is served.
    fn take_ether(&mut self, mail: &Mail, al: u8)
        requires few { self.old.server.handled < 18446744073709551615 }
        requires idle { self.old.waiting ≡ [] }
        requires kind { mail.now.kind ≡ Kind.EoE }
        requires served { serves self.old.profile al Protocol.EoE ≡ true }
        ensures { self.new ≡ takes self.old (Ok (uncounted mail.now)) al }
    {
        // A field is named so that the proof has what holds of the fields.
        let _ = &self.failure;
        if self.ether.take(&mut self.addresses, mail.body.as_slice()) {
            self.handled += 1;
        }
    }

    // Whether each protocol is served at an AL state.
    fn serves_sdo(&self, al: u8) -> bool
        ensures { result ≡ serves self.now.profile al Protocol.CoE }
    {
        // A field is named so that the proof has what holds of the fields.
        let _ = &self.failure;
        self.protocols.has_coe && al != BOOTSTRAP
    }

    fn serves_file(&self, _al: u8) -> bool
        ensures { result ≡ serves self.now.profile _al Protocol.FoE }
    {
        // A field is named so that the proof has what holds of the fields.
        let _ = &self.failure;
        self.protocols.has_foe
    }

    fn serves_drive(&self, al: u8) -> bool
        ensures { result ≡ serves self.now.profile al Protocol.SoE }
    {
        // A field is named so that the proof has what holds of the fields.
        let _ = &self.failure;
        self.protocols.has_soe && al != BOOTSTRAP
    }

    fn serves_ether(&self, al: u8) -> bool
        ensures { result ≡ serves self.now.profile al Protocol.EoE }
    {
        // A field is named so that the proof has what holds of the fields.
        let _ = &self.failure;
        self.protocols.has_eoe && al != BOOTSTRAP
    }

    // Mails of each protocol, served or refused.
    fn route_sdo(&mut self, mail: &Mail, al: u8)
        requires few { self.old.server.handled < 18446744073709551615 }
        requires idle { self.old.waiting ≡ [] }
        requires kind { mail.now.kind ≡ Kind.CoE }
        ensures { self.new ≡ takes self.old (Ok (uncounted mail.now)) al }
    {
        if self.serves_sdo(al) {
            self.take_sdo(mail, al);
        } else {
            self.fail(UNSUPPORTED);
        }
    }

    fn route_file(&mut self, mail: &Mail, al: u8)
        requires few { self.old.server.handled < 18446744073709551615 }
        requires idle { self.old.waiting ≡ [] }
        requires kind { mail.now.kind ≡ Kind.FoE }
        ensures { self.new ≡ takes self.old (Ok (uncounted mail.now)) al }
    {
        if self.serves_file(al) {
            self.take_file(mail, al);
        } else {
            self.fail(UNSUPPORTED);
        }
    }

    fn route_drive(&mut self, mail: &Mail, al: u8)
        requires few { self.old.server.handled < 18446744073709551615 }
        requires idle { self.old.waiting ≡ [] }
        requires kind { mail.now.kind ≡ Kind.SoE }
        ensures { self.new ≡ takes self.old (Ok (uncounted mail.now)) al }
    {
        if self.serves_drive(al) {
            self.take_drive(mail, al);
        } else if !is_quiet_drive(mail.body.as_slice()) {
            self.fail(UNSUPPORTED);
        }
    }

    fn route_ether(&mut self, mail: &Mail, al: u8)
        requires few { self.old.server.handled < 18446744073709551615 }
        requires idle { self.old.waiting ≡ [] }
        requires kind { mail.now.kind ≡ Kind.EoE }
        ensures { self.new ≡ takes self.old (Ok (uncounted mail.now)) al }
    {
        if self.serves_ether(al) {
            self.take_ether(mail, al);
        } else if !is_quiet_ether(mail.body.as_slice()) {
            self.fail(UNSUPPORTED);
        } else if is_last_ether(mail.body.as_slice()) {
            self.count();
        }
    }

    fn route(&mut self, mail: &Mail, al: u8)
        requires few { self.old.server.handled < 18446744073709551615 }
        requires idle { self.old.waiting ≡ [] }
        ensures { self.new ≡ takes self.old (Ok (uncounted mail.now)) al }
    {
        match mail.kind {
            Kind::Error => {}
            Kind::AoE | Kind::VoE => self.fail(UNSUPPORTED),
            Kind::CoE => self.route_sdo(mail, al),
            Kind::FoE => self.route_file(mail, al),
            Kind::SoE => self.route_drive(mail, al),
            Kind::EoE => self.route_ether(mail, al),
        }
    }

    /// Acts on a mail, or on the fault with which it does not read, in this AL state: the step of the exchange. No call takes memory.
    pub(crate) fn act(&mut self, mail: &Result<Mail, MailFault>, al: u8)
        requires few { self.old.server.handled < 18446744073709551615 }
        requires idle { self.old.waiting ≡ [] }
        ensures taken { self.new ≡ takes self.old (link_read mail.now).body al }
        ensures profile { self.new.profile ≡ self.old.profile }
    {
        match mail {
            Ok(mail) => self.route(mail, al),
            Err(MailFault::UnknownKind) => self.fail(UNSUPPORTED),
            Err(MailFault::Short) | Err(MailFault::LengthPastArea) => self.fail(INVALID_SIZE),
        }
    }
}
