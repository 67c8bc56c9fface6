ghost use Rattle.std.specs.Prelude.{◌≡◌, ◌<◌, ◌≤◌, ◌+◌, length, vec_len, OnOk, Some, slice_get};
ghost use Rattle.run_book.specs.of_master_node.Listing.{events_in};
ghost use Rattle.run_notes.specs.Handed.{MailsGo, MailsStay, kinds_in};
ghost use Rattle.run_notes.specs.Heard.{emergencies_noted, HeardBy};
ghost use Rattle.run_notes.specs.Packets.{begun_noted};
ghost use Rattle.run_notes.specs.Reports.{ReportsNext, ReportsOn, ReportsBy, LosesAll};
ghost use Rattle.run_notes.specs.Slaves.{SameFrames, SameSlaves, GaveBy, GaveLost, GaveNext};
ghost use Rattle.run_notes.specs.Switched.{NotesSwitch};
ghost use Rattle.run_notes.specs.Times.{GoesBehind, KeepsTime, TimesBehind, behind};

use crate::log::{Moment, station_of};
use crate::standing::Log;
use ec_fields::NoMemory;
use master_node::MasterNode;
use run_book::Book;
use segment_ring::Fate;
use std::alloc::Global;

// The station of the slave at a place and the length of its mailbox.
fn home_at(homes: &[(u16, u16)], place: usize) -> (u16, u16)
    requires { place < length homes.now }
    ensures { slice_get homes.now place ≡ Some result }
{
    homes[place]
}

impl Log {
    // A slave that was given up with this frame, which was lost, has it among its give-ups.
    fn note_loss(&mut self, master: &MasterNode, frame: u32, at: u32) -> Result<(), NoMemory>
        requires notes { at < length self.old.notes }
        requires homes { length self.old.homes ≡ length self.old.notes }
        requires posts { vec_len master.now.posts ≡ length self.old.notes }
        ensures slaves { SameSlaves self.old self.new }
        ensures gave { OnOk result (GaveNext at frame self.old.recover master.now self.old.notes self.new.notes) }
        ensures heard { OnOk result (emergencies_noted self.new.notes ≡ emergencies_noted self.old.notes) }
        ensures rows { OnOk result (begun_noted self.new.notes ≡ begun_noted self.old.notes) }
        ensures mails { OnOk result (MailsStay frame self.old.notes self.new.notes) }
        ensures told { OnOk result (LosesAll frame self.old.recover master.now (ReportsNext at self.old.notes self.new.notes)) }
        ensures time { OnOk result (KeepsTime (behind frame) self.old.notes self.new.notes) }
    {
        let place = at as usize;
        let rows = self.notes.as_slice();
        let times = rows[place].gave.len();
        if !master.gave_up_more(at, self.recover, times) {
            return Ok(());
        }
        let home = home_at(self.homes.as_slice(), place);
        let leaves = master.is_leaving(at);
        let notes = self.notes.at_mut(place);
        let noted = notes.given_up(leaves, frame);
        *self.stations.at_mut(place) = station_of(home, notes, self.recover);
        noted
    }

    // So it is of each slave.
    fn note_losses(&mut self, master: &MasterNode, frame: u32) -> Result<(), NoMemory>
        requires few { length self.old.notes ≤ 16 }
        requires homes { length self.old.homes ≡ length self.old.notes }
        requires posts { vec_len master.now.posts ≡ length self.old.notes }
        ensures slaves { SameSlaves self.old self.new }
        ensures gave { OnOk result (GaveLost frame self.old.recover master.now self.old.notes self.new.notes) }
        ensures heard { OnOk result (emergencies_noted self.new.notes ≡ emergencies_noted self.old.notes) }
        ensures rows { OnOk result (begun_noted self.new.notes ≡ begun_noted self.old.notes) }
        ensures mails { OnOk result (MailsStay frame self.old.notes self.new.notes) }
        ensures told { OnOk result (LosesAll frame self.old.recover master.now (ReportsOn self.old.notes self.new.notes)) }
        ensures time { OnOk result (KeepsTime (behind frame) self.old.notes self.new.notes) }
    {
        for place in 0..self.notes.len() {
            self.note_loss(master, frame, place as u32)?;
        }
        Ok(())
    }

    // Notes what a frame of this fate brought: emergencies and replies where it came back, and which slaves were given up with it where it was lost.
    fn note_fate(
        &mut self,
        alloc: Global,
        master: &MasterNode,
        fate: Fate,
        frame: u32,
    ) -> Result<(), NoMemory>
        requires few { length self.old.notes ≤ 16 }
        requires homes { length self.old.homes ≡ length self.old.notes }
        requires posts { vec_len master.now.posts ≡ length self.old.notes }
        ensures slaves { SameSlaves self.old self.new }
        ensures gave { OnOk result (GaveBy fate frame master.now self.old self.new) }
        ensures heard { OnOk result (HeardBy fate frame master.now self.old self.new) }
        ensures rows { OnOk result (begun_noted self.new.notes ≡ begun_noted self.old.notes) }
        ensures mails { OnOk result (MailsStay frame self.old.notes self.new.notes) }
        ensures told { OnOk result (ReportsBy fate frame master.now self.old self.new) }
        ensures time { OnOk result (GoesBehind frame self.old.notes self.new.notes) }
    {
        match fate {
            Fate::Pass => self.note_returned(alloc, master, frame),
            Fate::Lost { .. } => self.note_losses(master, frame),
        }
    }

    /// Notes what happened behind a frame of this fate.
    pub fn note_behind(
        &mut self,
        alloc: Global,
        master: &MasterNode,
        moment: Moment,
        fate: Fate,
        book: &mut Book,
    ) -> Result<(), NoMemory>
        requires few { length self.old.notes ≤ 16 }
        requires homes { length self.old.homes ≡ length self.old.notes }
        requires posts { vec_len master.now.posts ≡ length self.old.notes }
        ensures slaves { SameSlaves self.old self.new }
        ensures frames { SameFrames (1 + length self.old.ports) book.old book.new }
        ensures gave { OnOk result (GaveBy fate moment.frame master.now self.old self.new) }
        ensures heard { OnOk result (HeardBy fate moment.frame master.now self.old self.new) }
        ensures rows { OnOk result (begun_noted self.new.notes ≡ begun_noted self.old.notes) }
        ensures mails { OnOk result (MailsGo moment.frame (λ k. kinds_in k (events_in master.now)) self.old.notes self.new.notes) }
        ensures told { OnOk result (ReportsBy fate moment.frame master.now self.old self.new) }
        ensures switch { OnOk result (NotesSwitch (1 + length self.old.ports) moment.sent master.now.lan.happened book.old book.new) }
        ensures time { OnOk result (TimesBehind moment.frame moment.sent master.now.lan.happened book.old self.old book.new self.new) }
    {
        self.note(alloc, master, moment, book)?;
        self.note_fate(alloc, master, fate, moment.frame)
    }
}
