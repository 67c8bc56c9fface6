//! The packets and the mails passed on that came into hand of the slaves before a frame, as their master lists them.

ghost use Rattle.std.specs.Prelude.{◌∷◌, [], OnOk};
ghost use Rattle.run_notes.specs.Packets.{NotesBeside, StayFree};
ghost use Rattle.run_notes.specs.Reports.{KeepsReports};
ghost use Rattle.run_notes.specs.Slaves.{SameSlaves};
ghost use Rattle.run_notes.specs.Stays.{StaysMaking};

use crate::log::note_began;
use crate::standing::Log;
use ec_fields::NoMemory;
use master_node::{Event, Origin};

impl Log {
    ghost use Rattle.std.specs.Prelude.{◌∷◌, [], OnOk};
    ghost use Rattle.run_book.specs.of_master_node.declared.event.Event.{Event};

    // Of the slave at a place one came into hand.
    fn note_begun_at(&mut self, origin: Origin, frame: u32, at: u32) -> Result<(), NoMemory>
        ensures slaves { SameSlaves self.old self.new }
        ensures stays { OnOk result (StaysMaking frame self.old.notes self.new.notes) }
        ensures told { OnOk result (KeepsReports self.old.notes self.new.notes) }
        ensures beside { OnOk result (NotesBeside frame (Event.Began at origin ∷ []) self.old.notes self.new.notes) }
        ensures free { OnOk result (StayFree self.old.notes self.new.notes) }
    {
        let place = at as usize;
        if place >= self.notes.len() {
            return Ok(());
        }
        note_began(self.notes.at_mut(place), origin, frame)
    }

    // So it is by an event, where it is such a one.
    fn note_begun_by(&mut self, event: &Event, frame: u32) -> Result<(), NoMemory>
        ensures slaves { SameSlaves self.old self.new }
        ensures stays { OnOk result (StaysMaking frame self.old.notes self.new.notes) }
        ensures told { OnOk result (KeepsReports self.old.notes self.new.notes) }
        ensures beside { OnOk result (NotesBeside frame (event.now ∷ []) self.old.notes self.new.notes) }
        ensures free { OnOk result (StayFree self.old.notes self.new.notes) }
    {
        match event {
            Event::Began { slave, origin } => self.note_begun_at(*origin, frame, *slave),
            Event::Answered { .. } => Ok(()),
            Event::Emergency { .. } => Ok(()),
            Event::GatewayReply { .. } => Ok(()),
            Event::GatewayDone { .. } => Ok(()),
            Event::GivenUp { .. } => Ok(()),
            Event::Cleared { .. } => Ok(()),
            Event::Opened { .. } => Ok(()),
        }
    }

    /// Notes what came into hand beside the scripts.
    pub(crate) fn note_begun(&mut self, events: &[Event], frame: u32) -> Result<(), NoMemory>
        ensures slaves { SameSlaves self.old self.new }
        ensures stays { OnOk result (StaysMaking frame self.old.notes self.new.notes) }
        ensures told { OnOk result (KeepsReports self.old.notes self.new.notes) }
        ensures beside { OnOk result (NotesBeside frame events.now self.old.notes self.new.notes) }
    {
        for event in events {
            self.note_begun_by(event, frame)?;
        }
        Ok(())
    }
}
