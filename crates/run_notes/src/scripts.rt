//! What came into hand of the slaves by their scripts, as their master has it.

ghost use Rattle.std.specs.Prelude.{◌≡◌, ◌<◌, ◌≤◌, ◌+◌, length, vec_len, OnOk};
ghost use Rattle.run_notes.specs.Handed.{AllDoubts};
ghost use Rattle.run_notes.specs.Heard.{emergencies_noted};
ghost use Rattle.run_notes.specs.Slaves.{gaves_noted, SameFrames, SameSlaves};
ghost use Rattle.run_notes.specs.Packets.{BeginsOn, SameBeside};
ghost use Rattle.run_notes.specs.Reports.{ReportsNext, ReportsOn, TurnsAll};
ghost use Rattle.run_notes.specs.Stays.{StaysMaking};
ghost use Rattle.run_notes.specs.Switched.{NotesSwitch};
ghost use Rattle.run_notes.specs.Times.{TimesStay, making};

use crate::log::Moment;
use crate::standing::Log;
use ec_fields::NoMemory;
use master_node::MasterNode;
use run_book::Book;
use std::alloc::Global;

impl Log {
    // Where the script of the slave at a place went on, one service more is noted.
    fn note_script(&mut self, master: &MasterNode, frame: u32, at: u32) -> Result<(), NoMemory>
        requires notes { at < length self.old.notes }
        requires posts { vec_len master.now.posts ≡ length self.old.notes }
        ensures slaves { SameSlaves self.old self.new }
        ensures stays { OnOk result (StaysMaking frame self.old.notes self.new.notes) }
        ensures told { OnOk result (TurnsAll frame master.now (ReportsNext at self.old.notes self.new.notes)) }
        ensures beside { OnOk result (SameBeside self.old.notes self.new.notes) }
    {
        let place = at as usize;
        let number = master.scripted(at);
        let rows = self.notes.as_slice();
        if number <= rows[place].scripted {
            return Ok(());
        }
        let state = master.changes_state(at);
        self.notes.at_mut(place).began_script(number, state, frame)
    }

    // So it is of each slave.
    fn note_scripts(&mut self, master: &MasterNode, frame: u32) -> Result<(), NoMemory>
        requires few { length self.old.notes ≤ 16 }
        requires posts { vec_len master.now.posts ≡ length self.old.notes }
        ensures slaves { SameSlaves self.old self.new }
        ensures stays { OnOk result (StaysMaking frame self.old.notes self.new.notes) }
        ensures told { OnOk result (TurnsAll frame master.now (ReportsOn self.old.notes self.new.notes)) }
        ensures beside { OnOk result (SameBeside self.old.notes self.new.notes) }
    {
        for place in 0..self.notes.len() {
            self.note_script(master, frame, place as u32)?;
        }
        Ok(())
    }

    /// Notes what came into hand before a frame.
    pub fn note_before(
        &mut self,
        alloc: Global,
        master: &MasterNode,
        moment: Moment,
        book: &mut Book,
    ) -> Result<(), NoMemory>
        requires few { length self.old.notes ≤ 16 }
        requires posts { vec_len master.now.posts ≡ length self.old.notes }
        ensures slaves { SameSlaves self.old self.new }
        ensures gave { OnOk result (gaves_noted self.new.notes ≡ gaves_noted self.old.notes) }
        ensures heard { OnOk result (emergencies_noted self.new.notes ≡ emergencies_noted self.old.notes) }
        ensures frames { SameFrames (1 + length self.old.ports) book.old book.new }
        ensures told { OnOk result (TurnsAll moment.frame master.now (ReportsOn self.old.notes self.new.notes)) }
        ensures begun { OnOk result (TurnsAll moment.frame master.now (BeginsOn moment.frame master.now self.old.notes self.new.notes)) }
        ensures doubts { OnOk result (AllDoubts self.old.notes self.new.notes) }
        ensures time { OnOk result (TimesStay (making moment.frame) moment.sent master.now.lan.happened book.old self.old book.new self.new) }
        ensures switch { OnOk result (NotesSwitch (1 + length self.old.ports) moment.sent master.now.lan.happened book.old book.new) }
    {
        self.note_scripts(master, moment.frame)?;
        self.note_begun(master.events(), moment.frame)?;
        self.note_happened(alloc, moment, master.happened(), book)
    }
}
