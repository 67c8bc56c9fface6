//! The emergencies that a frame which came back brought, as the master has them.

ghost use Rattle.std.specs.Prelude.{◌≡◌, ◌<◌, ◌≤◌, length, vec_len, OnOk};
ghost use Rattle.run_notes.specs.Handed.{MailsStay, services_noted};
ghost use Rattle.run_notes.specs.Heard.{HeardAll, HeardNext};
ghost use Rattle.run_notes.specs.Slaves.{gaves_noted, SameSlaves};
ghost use Rattle.run_notes.specs.Packets.{begun_noted};
ghost use Rattle.run_notes.specs.Reports.{KeepsReports, ReportsOn, PassesAll};
ghost use Rattle.run_notes.specs.Times.{GoesBehind, KeepsTime, behind};

use crate::standing::Log;
use ec_fields::{NoMemory, Octets};
use master_node::MasterNode;
use std::alloc::Global;

impl Log {
    // The emergency of the slave at a place, where the frame brought one.
    fn note_emergency(
        &mut self,
        alloc: Global,
        master: &MasterNode,
        frame: u32,
        at: u32,
    ) -> Result<(), NoMemory>
        requires notes { at < length self.old.notes }
        requires posts { vec_len master.now.posts ≡ length self.old.notes }
        ensures slaves { SameSlaves self.old self.new }
        ensures gave { OnOk result (gaves_noted self.new.notes ≡ gaves_noted self.old.notes) }
        ensures heard { OnOk result (HeardNext frame at master.now self.old.notes self.new.notes) }
        ensures rows { OnOk result (begun_noted self.new.notes ≡ begun_noted self.old.notes) }
        ensures services { OnOk result (services_noted self.new.notes ≡ services_noted self.old.notes) }
        ensures told { OnOk result (KeepsReports self.old.notes self.new.notes) }
        ensures time { OnOk result (KeepsTime (behind frame) self.old.notes self.new.notes) }
    {
        let Some(found) = master.emergency(at) else {
            return Ok(());
        };
        let octets = Octets::copy_of(alloc, found.as_slice())?;
        self.notes.at_mut(at as usize).alarmed(octets, frame)
    }

    // Those of all slaves.
    fn note_emergencies(
        &mut self,
        alloc: Global,
        master: &MasterNode,
        frame: u32,
    ) -> Result<(), NoMemory>
        requires few { length self.old.notes ≤ 16 }
        requires posts { vec_len master.now.posts ≡ length self.old.notes }
        ensures slaves { SameSlaves self.old self.new }
        ensures gave { OnOk result (gaves_noted self.new.notes ≡ gaves_noted self.old.notes) }
        ensures heard { OnOk result (HeardAll frame master.now self.old.notes self.new.notes) }
        ensures rows { OnOk result (begun_noted self.new.notes ≡ begun_noted self.old.notes) }
        ensures services { OnOk result (services_noted self.new.notes ≡ services_noted self.old.notes) }
        ensures told { OnOk result (KeepsReports self.old.notes self.new.notes) }
        ensures time { OnOk result (KeepsTime (behind frame) self.old.notes self.new.notes) }
    {
        for place in 0..self.notes.len() {
            self.note_emergency(alloc, master, frame, place as u32)?;
        }
        Ok(())
    }

    /// Notes what a frame that came back brought: emergencies, and then replies.
    pub(crate) fn note_returned(
        &mut self,
        alloc: Global,
        master: &MasterNode,
        frame: u32,
    ) -> Result<(), NoMemory>
        requires few { length self.old.notes ≤ 16 }
        requires posts { vec_len master.now.posts ≡ length self.old.notes }
        ensures slaves { SameSlaves self.old self.new }
        ensures gave { OnOk result (gaves_noted self.new.notes ≡ gaves_noted self.old.notes) }
        ensures heard { OnOk result (HeardAll frame master.now self.old.notes self.new.notes) }
        ensures rows { OnOk result (begun_noted self.new.notes ≡ begun_noted self.old.notes) }
        ensures mails { OnOk result (MailsStay frame self.old.notes self.new.notes) }
        ensures told { OnOk result (PassesAll frame master.now (ReportsOn self.old.notes self.new.notes)) }
        ensures time { OnOk result (GoesBehind frame self.old.notes self.new.notes) }
    {
        self.note_emergencies(alloc, master, frame)?;
        self.note_replies(alloc, master, frame)
    }
}
