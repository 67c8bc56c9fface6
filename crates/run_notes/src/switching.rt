//! What happened at the switch, as the book has it.

ghost use Rattle.std.specs.Prelude.{◌≡◌, ◌+◌, ◌++◌, ◌∷◌, [], ℕ, List, true, length, OnOk};
ghost use Rattle.std.specs.Bool.{OnTrue};
ghost use Rattle.run_book.specs.of_master_node.Happened.{handed_by};
ghost use Rattle.run_book.specs.Ports.{IsAtPort};
ghost use Rattle.run_notes.specs.Handed.{services_noted};
ghost use Rattle.run_notes.specs.Reports.{KeepsReports};
ghost use Rattle.run_notes.specs.Slaves.{SameFrames, SameSlaves};
ghost use Rattle.run_notes.specs.Stays.{StaysBeside};
ghost use Rattle.run_notes.specs.Switched.{octets_of, NotesSwitch};
ghost use Rattle.run_notes.specs.Counted.{comes_from, is_from};
ghost use Rattle.run_notes.specs.Times.{ReceivesAt, Time, TimesStay};

use crate::log::Moment;
use crate::standing::Log;
use ec_fields::{NoMemory, Octets, Rows, buffer_of};
use eoe_switch::SwitchEvent;
use master_node::Happening;
use run_book::Book;
use std::alloc::Global;

/// The octets of a packet's addresses and its EtherType.
const LEAST_PACKET: usize = 14;

fn copy_of_event(event: &SwitchEvent) -> SwitchEvent
    ensures { result ≡ event.now }
{
    match event {
        SwitchEvent::Arrive { port, packet } => SwitchEvent::Arrive {
            port: *port,
            packet: buffer_of(packet.as_slice()),
        },
        SwitchEvent::Begun { port } => SwitchEvent::Begun { port: *port },
        SwitchEvent::Down { port } => SwitchEvent::Down { port: *port },
    }
}

// The port at which a packet comes in; where none does it is the host's, 0.
fn port_of(event: &SwitchEvent) -> usize
    ensures { (ports : List ℕ) (slave : ℕ) → comes_from ports slave event.now ≡ is_from ports result slave }
{
    match event {
        SwitchEvent::Arrive { port, .. } => *port as usize,
        SwitchEvent::Begun { .. } | SwitchEvent::Down { .. } => 0,
    }
}

// The packet that came in, where the host was handed it.
fn note_handed(alloc: Global, row: &Happening, host: &mut Rows<Octets>) -> Result<(), NoMemory>
    ensures { OnOk result (host.new ≡ host.old ++ octets_of (handed_by row.now)) }
{
    if !row.handed {
        return Ok(());
    }
    match &row.event {
        SwitchEvent::Arrive { packet, .. } => host.add(Octets::copy_of(alloc, packet.as_slice())?),
        SwitchEvent::Begun { .. } | SwitchEvent::Down { .. } => Ok(()),
    }
}

impl Log {
    /// Notes what happened at the switch at a moment, in order.
    pub(crate) fn note_happened(
        &mut self,
        alloc: Global,
        moment: Moment,
        rows: &[Happening],
        book: &mut Book,
    ) -> Result<(), NoMemory>
        ensures slaves { SameSlaves self.old self.new }
        ensures stays { StaysBeside self.old.notes self.new.notes }
        ensures services { services_noted self.new.notes ≡ services_noted self.old.notes }
        ensures told { KeepsReports self.old.notes self.new.notes }
        ensures frames { SameFrames (1 + length self.old.ports) book.old book.new }
        ensures switch { OnOk result (NotesSwitch (1 + length self.old.ports) moment.sent rows.now book.old book.new) }
        ensures time { OnOk result ((t : Time) → TimesStay t moment.sent rows.now book.old self.old book.new self.new) }
    {
        for row in rows {
            self.note_switch(alloc, moment, row, book)?;
        }
        Ok(())
    }

    fn note_switch(
        &mut self,
        alloc: Global,
        moment: Moment,
        row: &Happening,
        book: &mut Book,
    ) -> Result<(), NoMemory>
        ensures slaves { SameSlaves self.old self.new }
        ensures stays { StaysBeside self.old.notes self.new.notes }
        ensures services { services_noted self.new.notes ≡ services_noted self.old.notes }
        ensures told { KeepsReports self.old.notes self.new.notes }
        ensures frames { SameFrames (1 + length self.old.ports) book.old book.new }
        ensures switch { OnOk result (NotesSwitch (1 + length self.old.ports) moment.sent (row.now ∷ []) book.old book.new) }
        ensures time { OnOk result ((t : Time) → TimesStay t moment.sent (row.now ∷ []) book.old self.old book.new self.new) }
    {
        if !self.is_at_port(&row.event) {
            return Ok(());
        }
        self.receive(port_of(&row.event));
        book.switch.add(copy_of_event(&row.event))?;
        book.switched.add(moment.sent)?;
        note_handed(alloc, row, &mut book.host)
    }

    // Whether an event is at a port of the switch, as each is.
    fn is_at_port(&self, event: &SwitchEvent) -> bool
        ensures at_port { OnTrue result (IsAtPort (1 + length self.now.ports) event.now) }
        ensures each { IsAtPort (1 + length self.now.ports) event.now → result ≡ true }
    {
        match event {
            SwitchEvent::Arrive { port, packet } => {
                *port as usize <= self.ports.len() && packet.len() >= LEAST_PACKET
            }
            SwitchEvent::Begun { port } | SwitchEvent::Down { port } => {
                *port as usize <= self.ports.len()
            }
        }
    }

    // A packet came in at a port. That of the host, port 0, is no slave's.
    fn receive(&mut self, port: usize)
        ensures slaves { SameSlaves self.old self.new }
        ensures stays { StaysBeside self.old.notes self.new.notes }
        ensures services { services_noted self.new.notes ≡ services_noted self.old.notes }
        ensures told { KeepsReports self.old.notes self.new.notes }
        ensures from { ReceivesAt self.old.ports port self.old.notes self.new.notes }
    {
        if port == 0 {
            return;
        }
        let Some(&slave) = self.ports.get(port - 1) else {
            return;
        };
        if (slave as usize) >= self.notes.len() {
            return;
        }
        self.notes.at_mut(slave as usize).received();
    }
}
