ghost use Rattle.std.specs.Prelude.{◌≡◌, ◌++◌, ◌∷◌, [], IfOk, OnOk, false, slice_get};
ghost use Rattle.run_notes.specs.Notes as the;
ghost use Rattle.run_notes.specs.declared.notes.Awaited.TheVariants as Awaits;

use ec_fields::{NoMemory, Octets, Rows};
use master_node::Origin;
use run_book::{Answer, Begun, Emergency, Epoch, Reply};
use std::alloc::Global;

/// What is awaited of the service that came into hand last.
#[derive(Clone, Copy)]
pub enum Awaited {
    /// Nothing of a service of the script: it has its answer or gets none, or it is another service.
    Nothing,
    /// The reply of one by mails of the script.
    Reply,
    /// The outcome of a change of state of the script.
    Change,
}

/// What became of a slave so far, but for the slave itself.
#[derive(Drop)]
pub struct Notes {
    pub begun: Rows<Begun>,
    pub answers: Rows<Answer>,
    pub emergencies: Rows<Emergency>,
    pub epochs: Rows<Epoch>,
    pub gave: Rows<u32>,
    /// The service that came into hand last isn't answered yet.
    pub in_hand: bool,
    /// What is awaited of it.
    pub awaited: Awaited,
    /// How many scripted services came into hand.
    pub scripted: u32,
    /// How many packets were received from the slave.
    pub packets: u32,
    /// How many scripted services didn't come into hand yet.
    pub left: u32,
    /// The slave is to be returned to Init.
    pub leaving: bool,
    /// It is open.
    pub up: bool,
}

// A number of rows; it stands still at its type's end.
fn count(rows: usize) -> u32
    ensures { result ≡ the.count rows }
{
    if rows < u32::MAX as usize {
        rows as u32
    } else {
        u32::MAX
    }
}

// The first row of an epoch: the service in hand, which caused the return to Init, or the next that begins.
fn first_row(in_hand: bool, begun: usize) -> usize
    ensures { result ≡ the.first_row in_hand begun }
{
    if in_hand {
        begun.saturating_sub(1)
    } else {
        begun
    }
}

// What is awaited of a service of the script that comes into hand.
fn awaited_by(state: bool) -> Awaited
    ensures { result ≡ the.awaited_by state }
{
    if state {
        Awaited::Change
    } else {
        Awaited::Reply
    }
}

fn left_behind(origin: Origin, left: u32) -> u32
    ensures { result ≡ the.left_behind origin left }
{
    match origin {
        Origin::Script(_) => left.saturating_sub(1),
        Origin::Forward(_) | Origin::Gateway(_) => left,
    }
}

impl Notes {
    /// Nothing happened yet at a slave with so many scripted services.
    pub fn new(alloc: Global, left: u32) -> Result<Notes, NoMemory>
        ensures { IfOk result (λ notes. notes ≡ the.new_notes left) }
    {
        let mut epochs = Rows::new(alloc);
        epochs.add(Epoch {
            row: 0,
            cleared: None,
            opened: None,
            emergencies: 0,
            packets: 0,
        })?;
        Ok(Notes {
            begun: Rows::new(alloc),
            answers: Rows::new(alloc),
            emergencies: Rows::new(alloc),
            epochs,
            gave: Rows::new(alloc),
            in_hand: false,
            awaited: Awaited::Nothing,
            scripted: 0,
            packets: 0,
            left,
            leaving: false,
            up: false,
        })
    }

    /// A service came into hand as a frame was about to be made.
    pub fn began(&mut self, origin: Origin, frame: u32) -> Result<(), NoMemory>
        ensures is { OnOk result (self.new ≡ the.began self.old origin frame) }
        ensures gave { self.new.gave ≡ self.old.gave }
        ensures heard { self.new.emergencies ≡ self.old.emergencies }
    {
        self.doubt()?;
        self.begun.add(Begun { origin, frame })?;
        self.in_hand = true;
        self.left = left_behind(origin, self.left);
        Ok(())
    }

    /// The same of a service that is none of the script. While an answer is awaited of one that is, none other comes into hand.
    pub fn began_other(&mut self, origin: Origin, frame: u32) -> Result<(), NoMemory>
        ensures is { OnOk result (self.new ≡ the.began_where self.old origin frame) }
        ensures gave { self.new.gave ≡ self.old.gave }
        ensures heard { self.new.emergencies ≡ self.old.emergencies }
    {
        match self.awaited {
            Awaited::Nothing => self.began(origin, frame),
            Awaited::Reply | Awaited::Change => Ok(()),
        }
    }

    /// The next service of the script came into hand, a change of state or one by mails; the one with this number follows.
    pub fn began_script(&mut self, number: u32, state: bool, frame: u32) -> Result<(), NoMemory>
        ensures is { OnOk result (self.new ≡ the.began_script self.old number state frame) }
        ensures gave { self.new.gave ≡ self.old.gave }
        ensures heard { self.new.emergencies ≡ self.old.emergencies }
    {
        self.began(Origin::Script(self.scripted), frame)?;
        self.awaited = awaited_by(state);
        self.scripted = number;
        Ok(())
    }

    /// The return of a frame completed the reply of the service in hand.
    pub fn replied(&mut self, reply: Reply, frame: u32) -> Result<(), NoMemory>
        ensures is { OnOk result (self.new ≡ the.answered self.old reply frame) }
        ensures gave { self.new.gave ≡ self.old.gave }
        ensures heard { self.new.emergencies ≡ self.old.emergencies }
        ensures rows { self.new.begun ≡ self.old.begun }
    {
        self.in_hand = false;
        self.awaited = Awaited::Nothing;
        self.answers.add(Answer::Replied { reply, frame })
    }

    /// So it is where a service is in hand; one of the script whose answer is awaited is left alone.
    pub fn answered(&mut self, reply: Reply, frame: u32) -> Result<(), NoMemory>
        ensures is { OnOk result (self.new ≡ the.answered_where self.old reply frame) }
        ensures gave { self.new.gave ≡ self.old.gave }
        ensures heard { self.new.emergencies ≡ self.old.emergencies }
        ensures rows { self.new.begun ≡ self.old.begun }
    {
        if !self.in_hand {
            return Ok(());
        }
        match self.awaited {
            Awaited::Nothing => self.replied(reply, frame),
            Awaited::Reply | Awaited::Change => Ok(()),
        }
    }

    /// A service that is in hand isn't answered any more.
    pub fn doubt(&mut self) -> Result<(), NoMemory>
        ensures is { OnOk result (self.new ≡ the.doubted self.old) }
        ensures gave { self.new.gave ≡ self.old.gave }
        ensures heard { self.new.emergencies ≡ self.old.emergencies }
        ensures rows { self.new.begun ≡ self.old.begun }
    {
        self.awaited = Awaited::Nothing;
        if !self.in_hand {
            return Ok(());
        }
        self.in_hand = false;
        self.answers.add(Answer::InDoubt)
    }

    /// The slave was given up at a frame that was lost; it is to be returned to Init, or is gone for good.
    pub fn given_up(&mut self, leaves: bool, frame: u32) -> Result<(), NoMemory>
        ensures is { OnOk result (self.new ≡ the.given_up self.old leaves frame) }
        ensures heard { self.new.emergencies ≡ self.old.emergencies }
        ensures rows { self.new.begun ≡ self.old.begun }
    {
        self.doubt()?;
        self.leaving = leaves;
        self.up = false;
        self.gave.add(frame)
    }

    // The return of a frame showed the slave in Init: an epoch begins. Where a service is in hand, that caused it and is its first.
    fn cleared(&mut self, frame: u32) -> Result<(), NoMemory>
        ensures is { OnOk result (self.new ≡ record self.old { epochs = the.epochs_cleared self.old frame }) }
        ensures gave { self.new.gave ≡ self.old.gave }
        ensures heard { self.new.emergencies ≡ self.old.emergencies }
        ensures rows { self.new.begun ≡ self.old.begun }
    {
        let row = count(first_row(self.in_hand, self.begun.len()));
        let emergencies = count(self.emergencies.len());
        self.epochs.add(Epoch {
            row,
            cleared: Some(frame),
            opened: None,
            emergencies,
            packets: self.packets,
        })
    }

    // The return of a frame showed the slave in the state that was opened.
    fn opened(&mut self, frame: u32)
        ensures { self.new ≡ record self.old { epochs = the.epochs_opened self.old frame } }
    {
        let many = self.epochs.len();
        if many > 0 {
            self.epochs.at_mut(many - 1).opened = Some(frame);
        }
    }

    // What a frame that came back made of its epochs, by how its master stood to it before and stands now.
    fn turned(&mut self, leaves: bool, opens: bool, frame: u32) -> Result<(), NoMemory>
        ensures is { OnOk result (self.new ≡ record self.old { epochs = the.epochs_stood self.old leaves opens frame }) }
        ensures gave { self.new.gave ≡ self.old.gave }
        ensures heard { self.new.emergencies ≡ self.old.emergencies }
        ensures rows { self.new.begun ≡ self.old.begun }
    {
        if self.leaving && !leaves {
            return self.cleared(frame);
        }
        if !self.up && opens {
            self.opened(frame);
        }
        Ok(())
    }

    /// So its master stands to it behind a frame that came back.
    pub fn stands(&mut self, leaves: bool, opens: bool, frame: u32) -> Result<(), NoMemory>
        ensures is { OnOk result (self.new ≡ the.stood self.old leaves opens frame) }
        ensures gave { self.new.gave ≡ self.old.gave }
        ensures heard { self.new.emergencies ≡ self.old.emergencies }
        ensures rows { self.new.begun ≡ self.old.begun }
    {
        self.turned(leaves, opens, frame)?;
        self.leaving = leaves;
        self.up = opens;
        Ok(())
    }

    /// The return of a frame brought an emergency of the slave.
    pub fn alarmed(&mut self, octets: Octets, frame: u32) -> Result<(), NoMemory>
        ensures is { OnOk result (self.new ≡ the.alarmed self.old octets frame) }
        ensures gave { self.new.gave ≡ self.old.gave }
        ensures rows { self.new.begun ≡ self.old.begun }
    {
        self.emergencies.add(Emergency { octets, frame })
    }

    /// A packet was received from the slave.
    pub fn received(&mut self)
        ensures { self.new ≡ the.received self.old }
    {
        self.packets = self.packets.saturating_add(1);
    }

    /// The run ended: a service in hand is in doubt, and what is left of the script was not sent.
    pub fn end(&mut self) -> Result<(), NoMemory>
        ensures { OnOk result (self.new ≡ record self.old { answers = the.ended self.old; in_hand = false; awaited = Awaits.Nothing }) }
    {
        self.doubt()?;
        for _ in 0..self.left {
            self.answers.add(Answer::NotSent)?;
        }
        Ok(())
    }

    /// Whether the slave was given up, for good or not.
    pub fn has_given_up(&self) -> bool
        ensures { result ≡ the.has_given_up self.now }
    {
        !self.gave.is_empty()
    }

    /// The frame at which the slave was given up for good, where it is taken up again so often.
    pub fn given_up_for_good(&self, recover: u32) -> Option<u32>
        ensures { result ≡ slice_get self.now.gave recover }
    {
        self.gave.get(recover as usize).copied()
    }
}
