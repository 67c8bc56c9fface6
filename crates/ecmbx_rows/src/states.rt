//! AL states: changes of one, a climb of the master's, and a slave's bring-up.

use al_state::{
    Al, Asked, BringUp, Climb, ClimbNext, access, bring_new, came_back, cleared, climb_new, next,
    reopen_new, request, status, written,
};
use arrayvec::ArrayVec;
use datagrams::Head;
use row_table::{Bench, Row};

/// A climb, and a bring-up.
#[derive(Drop)]
pub struct StateBench {
    climb: Climb,
    up: BringUp,
}

// A change from a state with its error: what the control word came to, and the state and error behind it.
fn change(row: &mut Row<'_>) {
    let mut al = Al {
        state: row.small(),
        error: row.short(),
    };
    let (control, boot, areas) = (row.short(), row.flag(), row.flag());
    match request(&mut al, control, boot, areas) {
        Asked::Changed => row.say("changed"),
        Asked::Ignored => row.say("ignored"),
        Asked::Refused(code) => {
            row.say("refused");
            row.show(u64::from(code));
        }
    }
    row.show(u64::from(al.state));
    row.show(u64::from(al.error));
}

impl StateBench {
    /// From Init to PreOp, of the slave at ring position 1 with the station 1002 and areas of 128 and 64 octets.
    pub fn new() -> StateBench {
        StateBench {
            climb: climb_new(1, 2),
            up: bring_new(1, 0x1002, 128, 64, 2),
        }
    }

    // What is next in the climb.
    fn tell_next(&self, row: &mut Row<'_>) {
        match next(&self.climb) {
            ClimbNext::Write(word) => {
                row.say("write");
                row.show(u64::from(word));
            }
            ClimbNext::ReadStatus => row.say("read"),
            ClimbNext::Arrived => row.say("arrived"),
            ClimbNext::Refused(code) => {
                row.say("refused");
                row.show(u64::from(code));
            }
        }
    }

    // The datagram of the access in hand: all of its head, and its body.
    fn tell_access(&self, row: &mut Row<'_>) {
        let mut head = Head::default();
        let mut body = ArrayVec::new();
        access(&self.up, 7, &mut head, &mut body);
        row.show(u64::from(head.command.number()));
        row.show(u64::from(head.index));
        row.show(u64::from(head.adp));
        row.show(u64::from(head.ado));
        row.show(u64::from(head.len));
        row.show(u64::from(head.interrupt));
        row.show(u64::from(head.counter));
        row.answer(head.circulating || head.more);
        row.digits(body.as_slice());
    }
}

impl Bench for StateBench {
    fn carry(&mut self, row: &mut Row<'_>) {
        match row.word() {
            "change" => change(row),
            "climb" => {
                let (from, target) = (row.small(), row.small());
                self.climb = climb_new(from, target);
                self.tell_next(row);
            }
            "next" => self.tell_next(row),
            "written" => {
                written(&mut self.climb);
                self.tell_next(row);
            }
            "status" => {
                let (word, code) = (row.short(), row.short());
                status(&mut self.climb, word, code);
                self.tell_next(row);
            }
            "reopen" => {
                self.up = reopen_new(1, 0x1002, 128, 64, 3);
                row.say("new");
            }
            "access" => self.tell_access(row),
            "came" => {
                let counter = row.short();
                let body = row.octets();
                row.answer(came_back(&mut self.up, counter, body.bytes()));
            }
            "cleared" => row.answer(cleared(&self.up)),
            _ => row.fail(),
        }
    }
}
