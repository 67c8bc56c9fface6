ghost use Rattle.std.specs.Prelude.{◌≡◌, ◌≤◌, ◌+◌, [], Some, length, map, replicate, IfOk, OnOk};
ghost use Rattle.run_book.specs.of_segment_plan.Sound.{IsLaid};
ghost use Rattle.run_book.specs.Ports.{ports_of};
ghost use Rattle.run_notes.specs.Slaves.{scripted, first_notes, home_of, SameFrames, SameSlaves, gaves_noted};
ghost use Rattle.run_frames.specs.of_life_runs.Led.{Leads};
ghost use Rattle.run_frames.specs.of_mailbox_mail.declared.outcome.ReplyKind.{ReplyKind};
ghost use Rattle.run_book.specs.of_master_node.Listing.{events_in};
ghost use Rattle.run_notes.specs.Handed.{GoesBy, MailsBehind, kind_told, kinds_in, kinds_of, told_only};
ghost use Rattle.run_notes.specs.Heard.{emergencies_noted};
ghost use Rattle.run_notes.specs.Reports.{Reports, KeepsReports};
ghost use Rattle.run_notes.specs.Notes.{station_of, stations_of};
ghost use Rattle.run_notes.specs.Packets.{begun_noted, noted_began};
ghost use Rattle.run_notes.specs.Stays.{StaysBeside};
ghost use Rattle.run_notes.specs.Switched.{NotesSwitch};
ghost use Rattle.run_notes.specs.Counted.{slaves_at};
ghost use Rattle.run_notes.specs.Times.{Goes, KeepsTime, TimesStay, behind};

use crate::notes::Notes;
use crate::standing::{AskedMail, Log};
use ec_fields::{NoMemory, Octets, Rows};
use mailbox_mail::ReplyKind;
use master_node::{Event, MasterNode, Origin};
use run_book::{Book, Reply};
use segment_plan::{Scenario, Service, SlaveSpec};
use std::alloc::Global;

/// When something happened: with which frame, and how many frames had been sent then.
#[derive(Clone, Copy)]
pub struct Moment {
    pub frame: u32,
    pub sent: u32,
}

// How many services the script has for a slave.
fn scripted(services: &[(u32, Service)], slave: u32) -> u32
    requires { length services.now ≤ 4096 }
    ensures { result ≡ scripted services.now slave }
{
    services.iter().filter(|row| row.0 == slave).count() as u32
}

// The answer of a slave whose service ended so.
fn reply_of(
    alloc: Global,
    master: &MasterNode,
    slave: u32,
    kind: ReplyKind,
) -> Result<Reply, NoMemory>
    ensures kind { IfOk result (λ reply. reply.kind ≡ kind) }
    ensures value { IfOk result (λ reply. kind ≡ ReplyKind.Handed → reply.value ≡ []) }
{
    let mut value = Octets::new(alloc);
    if matches!(kind, ReplyKind::Value) {
        master.value(slave, &mut value)?;
    }
    Ok(Reply { kind, value })
}

// A packet or a mail that is passed on came into hand. What does by the script is noted by its master's number.
pub(crate) fn note_began(notes: &mut Notes, origin: Origin, frame: u32) -> Result<(), NoMemory>
    ensures gave { notes.new.gave ≡ notes.old.gave }
    ensures heard { notes.new.emergencies ≡ notes.old.emergencies }
    ensures told { OnOk result ((a : Leads) → Reports a notes.old → Reports a notes.new) }
    ensures is { OnOk result (notes.new ≡ noted_began notes.old origin frame) }
{
    match origin {
        Origin::Script(_) => Ok(()),
        Origin::Forward(number) => notes.began_other(Origin::Forward(number), frame),
        Origin::Gateway(number) => notes.began_other(Origin::Gateway(number), frame),
    }
}

// Notes what happened at a slave. That it was given up is noted by its master's count, the answer of a scripted service by its hand and by how it changed
// the state, its epochs by how its master stands to it, and its emergencies by what its master has of the returned frame.
fn note_at(
    alloc: Global,
    master: &MasterNode,
    moment: Moment,
    event: &Event,
    notes: &mut Notes,
) -> Result<(), NoMemory>
    ensures gave { OnOk result (notes.new.gave ≡ notes.old.gave) }
    ensures heard { OnOk result (notes.new.emergencies ≡ notes.old.emergencies) }
    ensures told { OnOk result ((a : Leads) → Reports a notes.old → Reports a notes.new) }
    ensures rows { OnOk result (notes.new.begun ≡ notes.old.begun) }
    ensures mails { OnOk result (GoesBy moment.frame (kind_told event.now) notes.old notes.new) }
    ensures time { OnOk result (Goes (behind moment.frame) (behind moment.frame) notes.old notes.new) }
{
    match event {
        Event::Answered { slave, kind } => {
            let reply = reply_of(alloc, master, *slave, *kind)?;
            notes.answered(reply, moment.frame)
        }
        Event::Began { .. } => Ok(()),
        Event::Cleared { .. } => Ok(()),
        Event::Opened { .. } => Ok(()),
        Event::Emergency { .. } => Ok(()),
        Event::GivenUp { .. } => Ok(()),
        Event::GatewayReply { .. } => Ok(()),
        Event::GatewayDone { .. } => Ok(()),
    }
}

// Nothing happened yet at the slaves of a plan.
fn first_notes(alloc: Global, plan: &Scenario) -> Result<Rows<Notes>, NoMemory>
    requires { IsLaid plan.now }
    ensures { IfOk result (λ notes. notes ≡ first_notes plan.now.services 0 plan.now.slaves) }
{
    let mut notes = Rows::new(alloc);
    for at in 0..plan.slaves.len() {
        let left = scripted(plan.services.as_slice(), at as u32);
        notes.add(Notes::new(alloc, left)?)?;
    }
    Ok(notes)
}

// The station of each slave and the length of its mailbox.
fn homes_of(alloc: Global, slaves: &[SlaveSpec]) -> Result<Rows<(u16, u16)>, NoMemory>
    ensures { IfOk result (λ homes. homes ≡ map home_of slaves.now) }
{
    let mut homes = Rows::new(alloc);
    for spec in slaves {
        homes.add((spec.station, spec.out_len))?;
    }
    Ok(homes)
}

// All slaves are live.
fn first_stations(alloc: Global, homes: &[(u16, u16)]) -> Result<Rows<Option<(u16, u16)>>, NoMemory>
    ensures { IfOk result (λ stations. stations ≡ map Some homes.now) }
{
    let mut stations = Rows::new(alloc);
    for home in homes {
        stations.add(Some(*home))?;
    }
    Ok(stations)
}

// No mail is passed on to a slave.
fn first_asked(alloc: Global, slaves: usize) -> Result<Rows<Rows<AskedMail>>, NoMemory>
    ensures { IfOk result (λ asked. asked ≡ replicate slaves []) }
{
    let mut asked = Rows::new(alloc);
    for _ in 0..slaves {
        asked.add(Rows::new(alloc))?;
    }
    Ok(asked)
}

/// The station of a slave and the length of its mailbox, while it is live.
pub fn station_of(home: (u16, u16), notes: &Notes, recover: u32) -> Option<(u16, u16)>
    ensures { result ≡ station_of recover home notes.now }
{
    match notes.given_up_for_good(recover) {
        Some(_) => None,
        None => Some(home),
    }
}

// The slaves that serve EoE, each at a port of its own.
fn slaves_at_ports(alloc: Global, slaves: &[SlaveSpec]) -> Result<Rows<u32>, NoMemory>
    requires { length slaves.now ≤ 16 }
    ensures many { IfOk result (λ ports. 1 + length ports ≡ ports_of slaves.now) }
    ensures each { IfOk result (λ ports. ports ≡ slaves_at 0 slaves.now) }
{
    let mut ports = Rows::new(alloc);
    for (at, spec) in slaves.iter().enumerate() {
        if spec.eoe {
            ports.add(at as u32)?;
        }
    }
    Ok(ports)
}

impl Log {
    /// The slaves of a plan, at which nothing happened yet.
    pub fn new(alloc: Global, plan: &Scenario) -> Result<Log, NoMemory>
        requires { IsLaid plan.now }
        ensures notes { IfOk result (λ log. log.notes ≡ first_notes plan.now.services 0 plan.now.slaves) }
        ensures homes { IfOk result (λ log. log.homes ≡ map home_of plan.now.slaves) }
        ensures asked { IfOk result (λ log. log.asked ≡ replicate (length plan.now.slaves) []) }
        ensures ports { IfOk result (λ log. 1 + length log.ports ≡ ports_of plan.now.slaves) }
        ensures at_ports { IfOk result (λ log. log.ports ≡ slaves_at 0 plan.now.slaves) }
        ensures recover { IfOk result (λ log. log.recover ≡ plan.now.recover) }
    {
        let homes = homes_of(alloc, plan.slaves.as_slice())?;
        let stations = first_stations(alloc, homes.as_slice())?;
        Ok(Log {
            notes: first_notes(alloc, plan)?,
            homes,
            stations,
            asked: first_asked(alloc, plan.slaves.len())?,
            ports: slaves_at_ports(alloc, plan.slaves.as_slice())?,
            recover: plan.recover,
        })
    }

    /// Notes what happened at a moment. What belongs to the whole segment goes into the book.
    pub fn note(
        &mut self,
        alloc: Global,
        master: &MasterNode,
        moment: Moment,
        book: &mut Book,
    ) -> Result<(), NoMemory>
        ensures slaves { SameSlaves self.old self.new }
        ensures gave { OnOk result (gaves_noted self.new.notes ≡ gaves_noted self.old.notes) }
        ensures heard { OnOk result (emergencies_noted self.new.notes ≡ emergencies_noted self.old.notes) }
        ensures rows { OnOk result (begun_noted self.new.notes ≡ begun_noted self.old.notes) }
        ensures mails { OnOk result (MailsBehind moment.frame (λ k. kinds_in k (events_in master.now)) self.old self.new) }
        ensures told { OnOk result (KeepsReports self.old.notes self.new.notes) }
        ensures frames { SameFrames (1 + length self.old.ports) book.old book.new }
        ensures switch { OnOk result (NotesSwitch (1 + length self.old.ports) moment.sent master.now.lan.happened book.old book.new) }
        ensures time { OnOk result (TimesStay (behind moment.frame) moment.sent master.now.lan.happened book.old self.old book.new self.new) }
    {
        self.note_events(alloc, master, moment, master.events())?;
        self.note_happened(alloc, moment, master.happened(), book)
    }

    // Notes what happened beside the switch. What came into hand is noted before a frame.
    fn note_events(
        &mut self,
        alloc: Global,
        master: &MasterNode,
        moment: Moment,
        events: &[Event],
    ) -> Result<(), NoMemory>
        ensures slaves { SameSlaves self.old self.new }
        ensures stays { OnOk result (StaysBeside self.old.notes self.new.notes) }
        ensures mails { OnOk result (MailsBehind moment.frame (λ k. kinds_in k events.now) self.old self.new) }
        ensures told { OnOk result (KeepsReports self.old.notes self.new.notes) }
        ensures time { OnOk result (KeepsTime (behind moment.frame) self.old.notes self.new.notes) }
    {
        for event in events {
            self.note_event(alloc, master, moment, event)?;
        }
        Ok(())
    }

    fn note_event(
        &mut self,
        alloc: Global,
        master: &MasterNode,
        moment: Moment,
        event: &Event,
    ) -> Result<(), NoMemory>
        ensures slaves { SameSlaves self.old self.new }
        ensures stays { OnOk result (StaysBeside self.old.notes self.new.notes) }
        ensures mails { OnOk result (MailsBehind moment.frame (λ k. kinds_of k event.now) self.old self.new) }
        ensures told { OnOk result (KeepsReports self.old.notes self.new.notes) }
        ensures time { OnOk result (KeepsTime (behind moment.frame) self.old.notes self.new.notes) }
    {
        match event {
            Event::Answered { slave, .. } => {
                self.note_slave(alloc, master, moment, event, *slave as usize)
            }
            Event::Cleared { slave, .. } => {
                self.note_slave(alloc, master, moment, event, *slave as usize)
            }
            Event::Opened { slave } => {
                self.note_slave(alloc, master, moment, event, *slave as usize)
            }
            Event::Began { .. } => Ok(()),
            Event::Emergency { .. } => Ok(()),
            Event::GivenUp { .. } => Ok(()),
            Event::GatewayReply { .. } => Ok(()),
            Event::GatewayDone { .. } => Ok(()),
        }
    }

    fn note_slave(
        &mut self,
        alloc: Global,
        master: &MasterNode,
        moment: Moment,
        event: &Event,
        at: usize,
    ) -> Result<(), NoMemory>
        ensures slaves { SameSlaves self.old self.new }
        ensures stays { OnOk result (StaysBeside self.old.notes self.new.notes) }
        ensures mails { OnOk result (MailsBehind moment.frame (told_only at (kind_told event.now)) self.old self.new) }
        ensures told { OnOk result (KeepsReports self.old.notes self.new.notes) }
        ensures time { OnOk result (KeepsTime (behind moment.frame) self.old.notes self.new.notes) }
    {
        let Some(&home) = self.homes.get(at) else {
            return Ok(());
        };
        if at >= self.notes.len() {
            return Ok(());
        }
        let notes = self.notes.at_mut(at);
        let noted = note_at(alloc, master, moment, event, notes);
        *self.stations.at_mut(at) = station_of(home, notes, self.recover);
        noted
    }
}
