//! The halves of the master's end of a link.

use arrayvec::ArrayVec;
use datagrams::{Body, Head};
use ec_fields::buffer_of;
use mailbox_mail::{Kind, Mail};
use mailbox_master::{Got, GotView, InwardHalf, OutwardHalf, OutwardSeat, new_inward, new_outward};
use row_table::{Bench, Row};
use std::mem;

/// The inward half, the outward half, and it with the place of its mail, all of station 1001, with mailboxes of 64, 64 and 20 octets.
#[derive(Drop)]
pub struct HalfBench {
    inward: InwardHalf,
    outward: OutwardHalf,
    seat: OutwardSeat,
}

// A datagram of a half: command, index, ADP, ADO, the length that its head says, and its body.
fn tell_datagram(row: &mut Row<'_>, head: &Head, body: &[u8]) {
    row.show(u64::from(head.command.number()));
    row.show(u64::from(head.index));
    row.show(u64::from(head.adp));
    row.show(u64::from(head.ado));
    row.show(u64::from(head.len));
    row.digits(body);
}

// The same by its head, and its body written into octets of its length.
fn tell_filled<B: Body>(row: &mut Row<'_>, head: &Head, half: &B) {
    let mut octets = [0xEE; 64];
    let len = half.len();
    if len > 64 {
        return row.fail();
    }
    half.fill(&mut octets[..len]);
    tell_datagram(row, head, &octets[..len]);
}

// A mail that a read gave.
fn tell_mail(row: &mut Row<'_>, kind: Kind, counter: u8, body: &[u8]) {
    row.show(u64::from(kind.code()));
    row.show(u64::from(counter));
    row.digits(body);
}

impl HalfBench {
    /// No mail is held.
    pub fn new() -> HalfBench {
        HalfBench {
            inward: InwardHalf::Clear(new_inward(0x1001, 64)),
            outward: OutwardHalf::Idle(new_outward(0x1001, 64)),
            seat: OutwardSeat::new(0x1001, 20),
        }
    }

    // The inward half, in whose place another stands.
    fn taken(&mut self) -> InwardHalf {
        mem::replace(&mut self.inward, InwardHalf::Clear(new_inward(0, 0)))
    }

    // The outward half, in whose place another stands.
    fn taken_out(&mut self) -> OutwardHalf {
        mem::replace(&mut self.outward, OutwardHalf::Idle(new_outward(0, 0)))
    }

    // Another inward half in its place.
    fn renew(&mut self, row: &mut Row<'_>) {
        let len = row.short();
        if len > 1486 {
            return row.fail();
        }
        self.inward = InwardHalf::Clear(new_inward(0x1001, len));
        row.say("new");
    }

    // The datagram of the inward half.
    fn tell_inward(&self, row: &mut Row<'_>) {
        let mut head = Head::default();
        let mut body = ArrayVec::new();
        self.inward.datagram(7, &mut head, &mut body);
        tell_datagram(row, &head, body.as_slice());
    }

    // Its datagram returns, to a half that is consumed: what a read gave.
    fn answered(&mut self, row: &mut Row<'_>) {
        let counter = row.short();
        let octets = row.octets();
        let (half, got) = self.taken().answered(counter, octets.bytes());
        self.inward = half;
        match got {
            Some(Got::Mail(mail)) => tell_mail(row, mail.kind, mail.counter, mail.body.as_slice()),
            Some(Got::Repeat) => row.say("repeat"),
            Some(Got::Empty) => row.say("empty"),
            Some(_) => row.fail(),
            None => row.say("none"),
        }
    }

    // The same in its place, of a mail as it stands in the area.
    fn returned(&mut self, row: &mut Row<'_>) {
        let counter = row.short();
        let octets = row.octets();
        match self.inward.returned(counter, octets.bytes()) {
            Some(GotView::Mail(mail)) => tell_mail(row, mail.kind, mail.counter, mail.body),
            Some(GotView::Repeat) => row.say("repeat"),
            Some(GotView::Empty) => row.say("empty"),
            Some(_) => row.fail(),
            None => row.say("none"),
        }
    }

    // The outward half takes up a mail.
    fn hold(&mut self, row: &mut Row<'_>, kind: Kind) {
        let body = row.octets();
        let half = self.taken_out();
        if body.len() + 6 > half.area_len() as usize || body.len() > 1480 {
            return row.fail();
        }
        self.outward = half.hold(Mail {
            address: 0,
            kind,
            counter: 0,
            body: buffer_of(body.bytes()),
        });
        row.say("held");
    }

    // Its datagram.
    fn tell_outward(&self, row: &mut Row<'_>) {
        if self.outward.is_idle() {
            return row.say("none");
        }
        let mut head = Head::default();
        let mut body = ArrayVec::new();
        self.outward.datagram(7, &mut head, &mut body);
        tell_datagram(row, &head, body.as_slice());
    }

    // The seat takes up a mail.
    fn seat(&mut self, row: &mut Row<'_>, kind: Kind) {
        let address = row.short();
        let body = row.octets();
        if body.len() + 6 > self.seat.area_len() as usize {
            return row.fail();
        }
        self.seat.hold(address, kind, body.bytes());
        row.say("held");
    }

    // Carries out what is asked of the outward half, or of the seat.
    fn ask_outward(&mut self, row: &mut Row<'_>, call: &str) {
        match call {
            "out_new" => {
                self.outward = OutwardHalf::Idle(new_outward(0x1001, 64));
                row.say("new");
            }
            "out_coe" => self.hold(row, Kind::CoE),
            "out_soe" => self.hold(row, Kind::SoE),
            "out_datagram" => self.tell_outward(row),
            "out_lost" => {
                self.outward = self.taken_out().lost();
                row.say("lost");
            }
            "out_answered" => {
                self.outward = self.taken_out().answered(row.short());
                row.answer(self.outward.is_idle());
            }
            "out_place" => {
                row.show(u64::from(self.outward.station()));
                row.show(u64::from(self.outward.area_len()));
            }
            "seat_coe" => self.seat(row, Kind::CoE),
            "seat_foe" => self.seat(row, Kind::FoE),
            "seat_filled" => tell_filled(row, &self.seat.head(7), &self.seat),
            "seat_answered" => {
                self.seat.answered(row.short());
                row.answer(self.seat.is_idle());
            }
            _ => row.fail(),
        }
    }
}

impl Bench for HalfBench {
    fn carry(&mut self, row: &mut Row<'_>) {
        match row.word() {
            "new" => self.renew(row),
            "datagram" => self.tell_inward(row),
            "filled" => tell_filled(row, &self.inward.head(7), &self.inward),
            "lost" => {
                self.inward = self.taken().lost();
                row.say("lost");
            }
            "gone" => {
                self.inward.gone();
                row.say("lost");
            }
            "answered" => self.answered(row),
            "returned" => self.returned(row),
            call => self.ask_outward(row, call),
        }
    }
}
