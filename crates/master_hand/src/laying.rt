ghost use Rattle.std.specs.Prelude.{◌≡◌, ◌≤◌, ◌<◌, ◌+◌, suc, All, IsSome, is_some, if◌then◌else◌, true, length, slice_get};
ghost use Rattle.std.specs.Option.{option_copied};
ghost use Rattle.segment_plan.specs.Sound.{IsService};
ghost use Rattle.master_hand.specs.Talk.{Begins, is_askable};
ghost use Rattle.master_hand.specs.Laying.{asked_next, ready_of, scripted, scripted_behind};
ghost use Rattle.master_hand.specs.declared.laying.Laid.{Laid};

use crate::clients::{Clients, Which};
use crate::passed::Content;
use ec_fields::{Rows, buffer_of, refill};
use eoe::Packet;
use mailbox_mail::Kind;
use segment_plan::Service;
use std::marker::Model;

/// What is laid ready to come into hand next.
#[derive(Clone, Copy)]
pub enum Laid {
    Nothing,
    /// The next service of the script.
    Script,
    /// A packet.
    Packet,
    /// A mail that is passed on.
    Mail,
}

/// The script of a slave with the number of its next service, and what is laid ready: that service, a packet, or a mail.
#[derive(Drop)]
pub struct Laying {
    pub(crate) out_len: u16,
    pub(crate) in_len: u16,
    pub(crate) script: Rows<Service>,
    pub(crate) number: u32,
    pub(crate) laid: Laid,
    pub(crate) packet: Packet,
    pub(crate) frame: u8,
    pub(crate) mail: Content,
}

impl Model for Laying {
    ghost use Rattle.std.specs.Prelude.{◌≤◌, ◌<◌, ◌+◌, All, length};
    ghost use Rattle.master_hand.specs.Laying.{Waiting};
    ghost use Rattle.segment_plan.specs.Sound.{IsService};

    ghost Value = { Waiting };

    ghost view = { λ l. record { areas = record { out = l.out_len; back = l.in_len }; script = l.script; number = l.number; laid = l.laid; packet = l.packet.items; frame = l.frame; mail = l.mail } };

    ghost invariant = { λ l. All IsService l.script × (length l.script ≤ 4096) × (14 ≤ length l.packet.items) × (length l.packet.items ≤ 1514) × (l.frame < 16) × (6 + length l.mail.body.items ≤ l.out_len) };
}

impl Laying {
    /// The script begins, and nothing is laid ready. The lengths are those of the slave's mailboxes.
    pub fn new(out_len: u16, in_len: u16, script: Rows<Service>) -> Laying
        requires least { 64 ≤ out_len }
        requires sound { All IsService script }
        requires few { length script ≤ 4096 }
        ensures areas { result.areas ≡ record { out = out_len; back = in_len } }
        ensures script { (result.script ≡ script) × (result.number ≡ 0) }
        ensures laid { result.laid ≡ Laid.Nothing }
    {
        Laying {
            out_len,
            in_len,
            script,
            number: 0,
            laid: Laid::Nothing,
            packet: buffer_of(&[0; 14]),
            frame: 0,
            mail: Content::new(),
        }
    }

    /// The service of the script that comes next.
    pub fn next(&self) -> Option<&Service>
        ensures { option_copied result ≡ slice_get self.now.script self.now.number }
    {
        self.script.get(self.number as usize)
    }

    /// Its number.
    pub fn number(&self) -> u32
        ensures { result ≡ self.now.number }
    {
        self.number
    }

    /// The service behind it comes next.
    pub fn pass_by(&mut self)
        ensures areas { self.new.areas ≡ self.old.areas }
        ensures next { self.old.number < length self.old.script → self.new ≡ record self.old { number = suc self.old.number } }
    {
        self.number = self.number.saturating_add(1);
    }

    /// The next service of the script is laid ready.
    pub fn lay_script(&mut self)
        ensures { self.new ≡ record self.old { laid = Laid.Script } }
    {
        self.laid = Laid::Script;
    }

    /// A packet is laid ready.
    pub fn lay_packet(&mut self, packet: &Packet)
        requires { 14 ≤ length packet.now.items }
        ensures { self.new ≡ record self.old { laid = Laid.Packet; packet = packet.now.items } }
    {
        refill(&mut self.packet, packet.as_slice());
        self.laid = Laid::Packet;
    }

    /// A mail is laid ready.
    pub fn lay_mail(&mut self, kind: Kind, body: &[u8])
        requires short { length body.now ≤ 1480 }
        requires fits { 6 + length body.now ≤ self.old.areas.out }
        ensures { self.new ≡ record self.old { laid = Laid.Mail; mail = record { kind = kind; body = record { items = body.now } } } }
    {
        self.mail.set(kind, body);
        self.laid = Laid::Mail;
    }

    /// Nothing is laid ready any more.
    pub fn forget(&mut self)
        ensures { self.new ≡ record self.old { laid = Laid.Nothing } }
    {
        self.laid = Laid::Nothing;
    }

    // The next service of the script begins, where it is one by mails.
    fn start_next(&self, clients: &mut Clients) -> Option<Which>
        requires { clients.old.areas ≡ self.now.areas }
        ensures begins { Begins result (asked_next self.now.areas.out (slice_get self.now.script self.now.number)) clients.old clients.new }
        ensures askable { is_askable self.now.areas (asked_next self.now.areas.out (slice_get self.now.script self.now.number)) ≡ true }
        ensures areas { clients.new.areas ≡ clients.old.areas }
        ensures inside { is_some result ≡ true → self.now.number < length self.now.script }
    {
        match self.script.get(self.number as usize) {
            None => None,
            Some(service) => clients.start(service),
        }
    }

    // It is counted then.
    fn begin_script(&mut self, clients: &mut Clients) -> Option<Which>
        requires { clients.old.areas ≡ self.old.areas }
        ensures begins { Begins result (asked_next self.old.areas.out (slice_get self.old.script self.old.number)) clients.old clients.new }
        ensures askable { is_askable self.old.areas (asked_next self.old.areas.out (slice_get self.old.script self.old.number)) ≡ true }
        ensures areas { (clients.new.areas ≡ clients.old.areas) × (self.new.areas ≡ self.old.areas) }
        ensures script { self.new.script ≡ self.old.script }
        ensures number { self.new.number ≡ (if is_some result then suc self.old.number else self.old.number) }
    {
        let began = self.start_next(clients);
        if began.is_some() {
            self.number = self.number.saturating_add(1);
        }
        began
    }

    // A packet begins. Frame numbers grow modulo 16.
    fn begin_packet(&mut self, clients: &mut Clients) -> Option<Which>
        requires laid { self.old.laid ≡ Laid.Packet }
        requires areas { clients.old.areas ≡ self.old.areas }
        ensures begins { Begins result (ready_of self.old) clients.old clients.new }
        ensures askable { is_askable self.old.areas (ready_of self.old) ≡ true }
        ensures areas { (clients.new.areas ≡ clients.old.areas) × (self.new.areas ≡ self.old.areas) }
        ensures script { scripted self.new ≡ scripted self.old }
    {
        clients.start_packet(&self.packet, self.frame);
        self.frame = (self.frame + 1) % 16;
        Some(Which::Packet)
    }

    // So does a mail that is passed on.
    fn begin_mail(&mut self, clients: &mut Clients) -> Option<Which>
        requires laid { self.old.laid ≡ Laid.Mail }
        requires areas { clients.old.areas ≡ self.old.areas }
        ensures begins { Begins result (ready_of self.old) clients.old clients.new }
        ensures askable { is_askable self.old.areas (ready_of self.old) ≡ true }
        ensures areas { (clients.new.areas ≡ clients.old.areas) × (self.new.areas ≡ self.old.areas) }
        ensures script { scripted self.new ≡ scripted self.old }
    {
        clients.start_mail(&self.mail);
        Some(Which::Passed)
    }

    /// What is laid ready begins, and nothing is laid ready any more.
    pub fn begin(&mut self, clients: &mut Clients) -> Option<Which>
        requires { clients.old.areas ≡ self.old.areas }
        ensures begins { Begins result (ready_of self.old) clients.old clients.new }
        ensures askable { is_askable self.old.areas (ready_of self.old) ≡ true }
        ensures areas { (clients.new.areas ≡ clients.old.areas) × (self.new.areas ≡ self.old.areas) }
        ensures script { scripted self.new ≡ (if is_some result then scripted_behind self.old else scripted self.old) }
        ensures laid { self.new.laid ≡ Laid.Nothing }
    {
        let began = match self.laid {
            Laid::Nothing => None,
            Laid::Script => self.begin_script(clients),
            Laid::Packet => self.begin_packet(clients),
            Laid::Mail => self.begin_mail(clients),
        };
        self.laid = Laid::Nothing;
        began
    }
}
