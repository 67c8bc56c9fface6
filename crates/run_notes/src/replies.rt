//! What a frame that came back brought of each slave, as its master has it: the answer of the service in hand, a return to Init, and an opening.

ghost use Rattle.std.specs.Prelude.{◌≡◌, ◌<◌, ◌≤◌, suc, [], length, vec_len, OnOk, IfSome, slice_get};
ghost use Rattle.run_notes.specs.Handed.{MailsStay};
ghost use Rattle.run_notes.specs.Notes.{answered, told_noted, changed_noted, change_noted, stood};
ghost use Rattle.run_notes.specs.Reports.{ReportsNext, ReportsOn, PassesAll};
ghost use Rattle.run_notes.specs.Slaves.{SameSlaves};
ghost use Rattle.run_notes.specs.Stays.{StaysBeside};
ghost use Rattle.run_notes.specs.Times.{GoesBehind, TimeGoes, seen_to};
ghost use Rattle.run_notes.specs.declared.notes.Awaited.TheVariants as Awaits;

use crate::notes::{Awaited, Notes};
use crate::standing::Log;
use ec_fields::{NoMemory, Octets};
use mailbox_mail::ReplyKind;
use master_node::{Changed, MasterNode, Told};
use run_book::Reply;
use std::alloc::Global;

// What a master tells of the service by mails in hand, which awaits its reply. One of which it says nothing goes on awaiting it.
fn note_told(notes: &mut Notes, told: Told, value: Octets, frame: u32) -> Result<(), NoMemory>
    ensures is { OnOk result (notes.new ≡ told_noted told value frame notes.old) }
    ensures gave { notes.new.gave ≡ notes.old.gave }
    ensures heard { notes.new.emergencies ≡ notes.old.emergencies }
    ensures rows { notes.new.begun ≡ notes.old.begun }
{
    match told {
        Told::Waits | Told::Unknown => Ok(()),
        Told::Answered(kind) => notes.replied(Reply { kind, value }, frame),
    }
}

// So it is noted, and how the master stands to the slave behind the frame.
fn note_back(
    notes: &mut Notes,
    told: Told,
    value: Octets,
    leaves: bool,
    opens: bool,
    frame: u32,
) -> Result<(), NoMemory>
    ensures is { OnOk result (notes.new ≡ stood (told_noted told value frame notes.old) leaves opens frame) }
    ensures gave { notes.new.gave ≡ notes.old.gave }
    ensures heard { notes.new.emergencies ≡ notes.old.emergencies }
    ensures rows { notes.new.begun ≡ notes.old.begun }
{
    note_told(notes, told, value, frame)?;
    notes.stands(leaves, opens, frame)
}

// An answer without a value.
fn note_kind(alloc: Global, notes: &mut Notes, kind: ReplyKind, frame: u32) -> Result<(), NoMemory>
    ensures is { OnOk result (notes.new ≡ answered notes.old (record { kind = kind; value = [] }) frame) }
    ensures gave { notes.new.gave ≡ notes.old.gave }
    ensures heard { notes.new.emergencies ≡ notes.old.emergencies }
    ensures rows { notes.new.begun ≡ notes.old.begun }
{
    let value = Octets::new(alloc);
    notes.replied(Reply { kind, value }, frame)
}

// How the change of state in hand of a slave that is open ended, where it did.
fn note_changed(
    alloc: Global,
    notes: &mut Notes,
    changed: Changed,
    frame: u32,
) -> Result<(), NoMemory>
    ensures is { OnOk result (notes.new ≡ changed_noted changed frame notes.old) }
    ensures gave { notes.new.gave ≡ notes.old.gave }
    ensures heard { notes.new.emergencies ≡ notes.old.emergencies }
    ensures rows { notes.new.begun ≡ notes.old.begun }
{
    match changed {
        Changed::Nothing | Changed::Going => Ok(()),
        Changed::Reached => note_kind(alloc, notes, ReplyKind::Done, frame),
        Changed::Refused(code) => note_kind(alloc, notes, ReplyKind::StateRefused(code), frame),
    }
}

// One that returned its slave to Init is done once the slave is open again.
fn note_change(
    alloc: Global,
    notes: &mut Notes,
    changed: Changed,
    opens: bool,
    frame: u32,
) -> Result<(), NoMemory>
    ensures is { OnOk result (notes.new ≡ change_noted opens changed frame notes.old) }
    ensures gave { notes.new.gave ≡ notes.old.gave }
    ensures heard { notes.new.emergencies ≡ notes.old.emergencies }
    ensures rows { notes.new.begun ≡ notes.old.begun }
{
    if !opens {
        return Ok(());
    }
    if notes.up {
        note_changed(alloc, notes, changed, frame)
    } else {
        note_kind(alloc, notes, ReplyKind::Done, frame)
    }
}

// So it is noted, and how the master stands to the slave behind the frame.
fn note_turned(
    alloc: Global,
    notes: &mut Notes,
    changed: Changed,
    leaves: bool,
    opens: bool,
    frame: u32,
) -> Result<(), NoMemory>
    ensures is { OnOk result (notes.new ≡ stood (change_noted opens changed frame notes.old) leaves opens frame) }
    ensures gave { notes.new.gave ≡ notes.old.gave }
    ensures heard { notes.new.emergencies ≡ notes.old.emergencies }
    ensures rows { notes.new.begun ≡ notes.old.begun }
{
    note_change(alloc, notes, changed, opens, frame)?;
    notes.stands(leaves, opens, frame)
}

impl Log {
    // Of the slave at a place nothing of its script is awaited: its epochs.
    fn note_stand(&mut self, master: &MasterNode, frame: u32, at: u32) -> Result<(), NoMemory>
        requires notes { at < length self.old.notes }
        requires posts { vec_len master.now.posts ≡ length self.old.notes }
        requires awaited { IfSome (slice_get self.old.notes at) (λ n. n.awaited ≡ Awaits.Nothing) }
        ensures slaves { SameSlaves self.old self.new }
        ensures stays { OnOk result (StaysBeside self.old.notes self.new.notes) }
        ensures mails { OnOk result (MailsStay frame self.old.notes self.new.notes) }
        ensures told { OnOk result (PassesAll frame master.now (ReportsNext at self.old.notes self.new.notes)) }
        ensures time { OnOk result (TimeGoes (seen_to frame at) (seen_to frame (suc at)) self.old.notes self.new.notes) }
    {
        let leaves = master.is_leaving(at);
        let opens = master.is_open(at);
        let notes = self.notes.at_mut(at as usize);
        notes.stands(leaves, opens, frame)
    }

    // The outcome of its change of state, where it ended, and its epochs.
    fn note_outcome(
        &mut self,
        alloc: Global,
        master: &MasterNode,
        frame: u32,
        at: u32,
    ) -> Result<(), NoMemory>
        requires notes { at < length self.old.notes }
        requires posts { vec_len master.now.posts ≡ length self.old.notes }
        requires awaited { IfSome (slice_get self.old.notes at) (λ n. n.awaited ≡ Awaits.Change) }
        ensures slaves { SameSlaves self.old self.new }
        ensures stays { OnOk result (StaysBeside self.old.notes self.new.notes) }
        ensures mails { OnOk result (MailsStay frame self.old.notes self.new.notes) }
        ensures told { OnOk result (PassesAll frame master.now (ReportsNext at self.old.notes self.new.notes)) }
        ensures time { OnOk result (TimeGoes (seen_to frame at) (seen_to frame (suc at)) self.old.notes self.new.notes) }
    {
        let leaves = master.is_leaving(at);
        let opens = master.is_open(at);
        let changed = master.changed(at);
        let notes = self.notes.at_mut(at as usize);
        note_turned(alloc, notes, changed, leaves, opens, frame)
    }

    // The reply of its service by mails, where it has got it, and its epochs.
    fn note_answer(
        &mut self,
        alloc: Global,
        master: &MasterNode,
        frame: u32,
        at: u32,
    ) -> Result<(), NoMemory>
        requires notes { at < length self.old.notes }
        requires posts { vec_len master.now.posts ≡ length self.old.notes }
        requires awaited { IfSome (slice_get self.old.notes at) (λ n. n.awaited ≡ Awaits.Reply) }
        ensures slaves { SameSlaves self.old self.new }
        ensures stays { OnOk result (StaysBeside self.old.notes self.new.notes) }
        ensures mails { OnOk result (MailsStay frame self.old.notes self.new.notes) }
        ensures told { OnOk result (PassesAll frame master.now (ReportsNext at self.old.notes self.new.notes)) }
        ensures time { OnOk result (TimeGoes (seen_to frame at) (seen_to frame (suc at)) self.old.notes self.new.notes) }
    {
        let leaves = master.is_leaving(at);
        let opens = master.is_open(at);
        let mut value = Octets::new(alloc);
        let told = master.told(at, &mut value)?;
        let notes = self.notes.at_mut(at as usize);
        note_back(notes, told, value, leaves, opens, frame)
    }

    // What the frame brought of the slave at a place, by what is awaited of it.
    fn note_reply(
        &mut self,
        alloc: Global,
        master: &MasterNode,
        frame: u32,
        at: u32,
    ) -> Result<(), NoMemory>
        requires notes { at < length self.old.notes }
        requires posts { vec_len master.now.posts ≡ length self.old.notes }
        ensures slaves { SameSlaves self.old self.new }
        ensures stays { OnOk result (StaysBeside self.old.notes self.new.notes) }
        ensures mails { OnOk result (MailsStay frame self.old.notes self.new.notes) }
        ensures told { OnOk result (PassesAll frame master.now (ReportsNext at self.old.notes self.new.notes)) }
        ensures time { OnOk result (TimeGoes (seen_to frame at) (seen_to frame (suc at)) self.old.notes self.new.notes) }
    {
        let rows = self.notes.as_slice();
        let awaited = rows[at as usize].awaited;
        match awaited {
            Awaited::Nothing => self.note_stand(master, frame, at),
            Awaited::Change => self.note_outcome(alloc, master, frame, at),
            Awaited::Reply => self.note_answer(alloc, master, frame, at),
        }
    }

    // So it is of each slave.
    pub(crate) fn note_replies(
        &mut self,
        alloc: Global,
        master: &MasterNode,
        frame: u32,
    ) -> Result<(), NoMemory>
        requires few { length self.old.notes ≤ 16 }
        requires posts { vec_len master.now.posts ≡ length self.old.notes }
        ensures slaves { SameSlaves self.old self.new }
        ensures stays { OnOk result (StaysBeside self.old.notes self.new.notes) }
        ensures mails { OnOk result (MailsStay frame self.old.notes self.new.notes) }
        ensures told { OnOk result (PassesAll frame master.now (ReportsOn self.old.notes self.new.notes)) }
        ensures time { OnOk result (GoesBehind frame self.old.notes self.new.notes) }
    {
        for place in 0..self.notes.len() {
            self.note_reply(alloc, master, frame, place as u32)?;
        }
        Ok(())
    }
}
