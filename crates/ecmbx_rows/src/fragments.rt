//! A packet that is cut and joined again.

use ec_fields::buffer_of;
use eoe::{Came, Fragment, Fragmenter, Joined, Packet, Reassembler, cut, fragment_of};
use row_table::{Bench, Row};

/// A packet that is cut for areas of 64 octets, and fragments that are joined.
#[derive(Drop)]
pub struct FragmentBench {
    packet: Packet,
    fragments: Fragmenter,
    joined: Reassembler,
    whole: Packet,
}

// A fragment of 32 octets at most in six words.
fn fragment_in(row: &mut Row<'_>) -> Fragment {
    let (number, offset, frame) = (row.small(), row.small(), row.small());
    let (last, stamped) = (row.flag(), row.flag());
    let octets = row.octets();
    let mut fragment = Fragment {
        last,
        stamped,
        number,
        offset,
        frame,
        bytes: buffer_of(&[]),
    };
    row.check(octets.len() <= 32);
    if octets.len() <= 32 {
        fragment.bytes = buffer_of(octets.bytes());
    }
    fragment
}

impl FragmentBench {
    /// Nothing is cut, and no fragment is awaited.
    pub fn new() -> FragmentBench {
        let packet = Packet::new();
        FragmentBench {
            fragments: cut(&packet, 64, 0),
            packet,
            joined: Reassembler::new(),
            whole: Packet::new(),
        }
    }

    // Cuts a packet.
    fn begin(&mut self, row: &mut Row<'_>) {
        let octets = row.octets();
        if octets.len() > 1514 {
            return row.fail();
        }
        self.packet = buffer_of(octets.bytes());
        self.fragments = cut(&self.packet, 64, 0);
        self.renew(row);
    }

    // No fragment is awaited.
    fn renew(&mut self, row: &mut Row<'_>) {
        self.joined = Reassembler::new();
        row.say("begun");
    }

    // What a fragment is to the reassembler, and the length of a whole packet.
    fn take(&mut self, row: &mut Row<'_>, fragment: &Fragment) {
        match self.joined.take(fragment) {
            Joined::More => row.say("more"),
            Joined::Whole(whole) => {
                row.say("whole");
                row.show(whole.len() as u64);
                row.answer(whole.as_slice() == self.packet.as_slice());
            }
            Joined::Dropped => row.say("dropped"),
        }
    }

    // The same in place, and the length of the last packet that was completed so.
    fn take_into(&mut self, row: &mut Row<'_>) {
        let fragment = fragment_in(row);
        match self
            .joined
            .take_into(fragment_of(&fragment), &mut self.whole)
        {
            Came::More => row.say("more"),
            Came::Whole => row.say("whole"),
            Came::Dropped => row.say("dropped"),
        }
        row.show(self.whole.len() as u64);
    }

    // The next fragment, and what it is to the reassembler.
    fn next(&mut self, row: &mut Row<'_>) {
        let Some(fragment) = self.fragments.next() else {
            return row.say("none");
        };
        row.show(u64::from(fragment.number));
        row.show(u64::from(fragment.offset));
        row.answer(fragment.last);
        row.show(fragment.bytes.len() as u64);
        self.take(row, &fragment);
    }
}

impl Bench for FragmentBench {
    fn carry(&mut self, row: &mut Row<'_>) {
        match row.word() {
            "next" => self.next(row),
            "afresh" => self.renew(row),
            "cut" => self.begin(row),
            "take" => {
                let fragment = fragment_in(row);
                self.take(row, &fragment);
            }
            "take_into" => self.take_into(row),
            _ => row.fail(),
        }
    }
}
