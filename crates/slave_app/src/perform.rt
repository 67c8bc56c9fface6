ghost use Rattle.std.specs.Prelude.{◌≡◌, ◌==◌, ◌<◌, ◌≤◌, ℕ, true, false, length, Some, IfOk, OnErr};
ghost use Rattle.slave_server.specs.of_segment_plan.Sound.{is_target};
ghost use Rattle.slave_server.specs.of_slave_model.Profile.{Protocol};
ghost use Rattle.slave_server.specs.of_slave_model.Server.{ServiceOf};
ghost use Rattle.slave_app.specs.Meaning.{emission_view, meant_by, addressed, delivered, state_refusal, state_meaning, protocol_of, carries_out, refusal_of, answered, counts, meaning_of, IsPerformable};
ghost use Rattle.slave_app.specs.Exchange.{mail_service, Fits, IsExchanged, IsStateExchanged};

use crate::app::App;
use crate::performed::{Emission, Performed, Reply, replied, valued};
use al_state::{Al, Asked, BOOTSTRAP, INIT, PRE_OP};
use ec_fields::{NoMemory, Octets, buffer_of};
use eoe::Packet;
use mailbox_mail::ReplyKind;
use segment_plan::Service;
use std::alloc::Global;

/// The mailbox error of a protocol that isn't served (ETG.1000.4, "Mailbox error").
const UNSUPPORTED: u16 = 2;

/// The EoE result of an address block that can't be set: unspecified error (ETG.1000.6, "EoE result").
const UNSPECIFIED: u16 = 1;

/// The AL status code of a slave that has no Bootstrap (ETG.1000.6, "AL status codes").
const NO_BOOTSTRAP: u16 = 0x0013;

// The reply of a service that isn't carried out since its protocol isn't served.
fn refusal_of(service: &Service) -> ReplyKind
    ensures { result ≡ refusal_of service.now }
{
    match service {
        Service::Forward(_) => ReplyKind::Handed,
        Service::Sdo(_)
        | Service::ReadFile { .. }
        | Service::WriteFile { .. }
        | Service::ReadIdn { .. }
        | Service::WriteIdn { .. }
        | Service::SetIp { .. }
        | Service::GetIp
        | Service::State { .. } => ReplyKind::MailboxError(UNSUPPORTED),
    }
}

// Whether a service counts.
fn counts(service: &Service) -> bool
    ensures { result ≡ counts service.now }
{
    !matches!(service, Service::State { .. })
}

impl App {
    // Whether a service is carried out: Bootstrap serves FoE alone, and changes of the AL state have no protocol.
    fn carries_out(&self, service: &Service) -> bool
        ensures { result ≡ carries_out self.now (protocol_of service.now) }
    {
        let is_boot = self.al == BOOTSTRAP;
        match service {
            Service::Sdo(_) => self.coe && !is_boot,
            Service::ReadFile { .. } | Service::WriteFile { .. } => self.foe,
            Service::ReadIdn { .. } | Service::WriteIdn { .. } => self.soe && !is_boot,
            Service::SetIp { .. } | Service::GetIp | Service::Forward(_) => self.eoe && !is_boot,
            Service::State { .. } => true,
        }
    }

    // Sets the address block, unless it is fixed.
    fn set_ip(&mut self, alloc: Global, block: &[u8]) -> Performed
        requires { length block.now ≤ 1476 }
        ensures { meant_by self.new result ≡ addressed self.old block.now }
    {
        if self.fixed_ip {
            return replied(alloc, ReplyKind::EoeResult(UNSPECIFIED));
        }
        self.block = buffer_of(block);
        replied(alloc, ReplyKind::Done)
    }

    // Takes a packet whole. One of EtherType 88B5 to the slave goes back.
    fn deliver(&self, alloc: Global, packet: &Packet) -> Performed
        ensures { meant_by self.now result ≡ delivered self.now packet.now.items }
    {
        let mac = buffer_of(&self.mac);
        let emission = match eoe_server::echo(&mac, packet.as_slice()) {
            Some(sent) => Some(Emission::Packet(sent)),
            None => None,
        };
        Performed {
            reply: Reply {
                kind: ReplyKind::Handed,
                value: Octets::new(alloc),
            },
            emission,
        }
    }

    // The AL status code that refuses a change of the AL state.
    fn refuses_state(&self, target: u8) -> Option<u16>
        requires { is_target target ≡ true }
        ensures { result ≡ state_refusal self.now target }
    {
        match target {
            INIT => None,
            BOOTSTRAP => { if self.boot { None } else { Some(NO_BOOTSTRAP) } }
            _ => {
                let mut al = Al {
                    state: self.al,
                    error: 0,
                };
                match al_state::request(&mut al, u16::from(target), self.boot, true) {
                    Asked::Refused(code) => Some(code),
                    Asked::Changed | Asked::Ignored => None,
                }
            }
        }
    }

    // Changes the AL state, or refuses to. A return to Init opens PreOp again, or Bootstrap.
    fn change_state(&mut self, alloc: Global, target: u8) -> Performed
        requires { is_target target ≡ true }
        ensures { meant_by self.new result ≡ state_meaning self.old target (state_refusal self.old target) }
    {
        if let Some(code) = self.refuses_state(target) {
            return replied(alloc, ReplyKind::StateRefused(code));
        }
        self.al = if target == INIT { PRE_OP } else { target };
        replied(alloc, ReplyKind::Done)
    }

    // A service, but for its count: carried out, or refused.
    fn perform_any(&mut self, alloc: Global, service: &Service) -> Result<Performed, NoMemory>
        requires { IsPerformable service.now }
        ensures means { IfOk result (λ done. meant_by self.new done ≡ answered self.old service.now) }
        ensures same { OnErr result (self.new ≡ self.old) }
    {
        if !self.carries_out(service) {
            return Ok(replied(alloc, refusal_of(service)));
        }
        match service {
            Service::Sdo(sdo) => self.perform_sdo(alloc, sdo),
            Service::ReadFile { name, pass } => self.read_file(alloc, name, *pass),
            Service::WriteFile { name, pass, bytes } => {
                Ok(self.write_file(alloc, name, *pass, bytes.bytes()))
            }
            Service::ReadIdn {
                drive,
                idn,
                elements,
            } => self.read_idn(alloc, *drive, *idn, *elements),
            Service::WriteIdn {
                drive,
                idn,
                elements,
                bytes,
            } => Ok(self.write_idn(alloc, *drive, *idn, *elements, bytes.bytes())),
            Service::SetIp { block } => Ok(self.set_ip(alloc, block.bytes())),
            Service::GetIp => Ok(valued(Octets::copy_of(alloc, self.block.as_slice())?)),
            Service::Forward(packet) => Ok(self.deliver(alloc, packet)),
            Service::State { target } => Ok(self.change_state(alloc, *target)),
        }
    }

    // A service, counted where it is one by mails.
    fn carry_out(&mut self, alloc: Global, service: &Service) -> Result<Performed, NoMemory>
        requires few { self.old.handled < 18446744073709551615 }
        requires service { IsPerformable service.now }
        ensures means { IfOk result (λ done. meant_by self.new done ≡ meaning_of self.old service.now) }
        ensures same { OnErr result (self.new ≡ self.old) }
    {
        let handled = self.handled;
        let done = self.perform_any(alloc, service)?;
        if counts(service) {
            self.handled = handled + 1;
        }
        Ok(done)
    }

    /// Carries out a service as a whole, or refuses it by the first of its codes; then nothing changed but the count. A protocol that isn't
    /// served, and in Bootstrap each but FoE, gives mailbox error 2, and a packet then is handed over without effect. Each service but a change
    /// of the AL state counts. After `NoMemory` nothing changed.
    pub fn perform(&mut self, alloc: Global, service: &Service) -> Result<Performed, NoMemory>
        requires few { self.old.handled < 18446744073709551615 }
        requires service { IsPerformable service.now }
        ensures means { IfOk result (λ done. meant_by self.new done ≡ meaning_of self.old service.now) }
        ensures exchanged { IfOk result (λ done. (out back frame number : ℕ) (q : (i : Protocol) × ServiceOf i) → mail_service number service.now ≡ Some q → Fits back service.now →
            IsExchanged self.old (meant_by self.new done) out back frame q) }
        ensures stated { IfOk result (λ done. (out back frame words to : ℕ) → service.now ≡ Service.State to → (to == 1) ≡ false → (to == 3) ≡ false →
            IsStateExchanged self.old (meant_by self.new done) out back frame words to) }
        ensures same { OnErr result (self.new ≡ self.old) }
    {
        self.carry_out(alloc, service)
    }
}
