//! A slave: its registers, its box, and a node against frames from outside, octet by octet.

ghost use Rattle.std.specs.Prelude.{◌<◌, ◌^◌, length};
ghost use Rattle.esc_registers.specs.Access.{KeepsLengths};

use crate::servers::{Quiet, Refusing};
use arrayvec::ArrayVec;
use datagrams::{Command, FrameBuf, Head};
use ec_fields::NoMemory;
use esc_registers::Esc;
use mailbox_mail::error_mail;
use mailbox_slave::SlaveBox;
use row_table::{Bench, Row};
use slave_node::SlaveNode;
use std::alloc::Global;

// Destination, source and EtherType of a frame.
const FRONT: [u8; 14] = [
    0xFF, 0xFF, 0xFF, 0xFF, 0xFF, 0xFF, 0x02, 0x00, 0x00, 0x00, 0x00, 0x01, 0x88, 0xA4,
];

// Manager 0.
const MANAGER: [u8; 8] = [0x00, 0x10, 0x40, 0x00, 0x26, 0x00, 0x01, 0x00];

/// The registers of a slave with areas of 4 octets, and a node with mailboxes of 64.
#[derive(Drop)]
pub struct SlaveBench {
    esc: Esc,
    node: SlaveNode<Quiet>,
}

// A write, where so many slaves met its datagram before: the working counter.
fn write(esc: &mut Esc, counter: u16, ado: u16, octets: &mut [u8]) -> u16
    requires { length octets.old < 2 ^ 16 }
    ensures { KeepsLengths esc.old esc.new }
{
    let mut head = Head {
        command: Command::Fpwr,
        ado,
        len: octets.len() as u16,
        counter,
        ..Head::default()
    };
    esc.pass(&mut head, octets);
    head.counter
}

// A write of manager 1 with this octet in its activate register: the working counter, from 0xFFFF on.
fn manager_written(esc: &mut Esc, activate: u8) -> u16
    ensures { KeepsLengths esc.old esc.new }
{
    let mut body = [0x00, 0x18, 0x40, 0x00, 0x22, 0x00, activate, 0x00];
    write(esc, 0xFFFF, 0x0808, &mut body)
}

// A mail is offered: whether mailbox 1 is full behind it, the working counter of a write that disables its manager, and whether it is full still. Then the
// manager is enabled with a repeat request: whether mailbox 1 is full, whether the repeat is asked, and whether it is behind the acknowledge; and
// whether mailbox 0 is empty.
fn offered(row: &mut Row<'_>) {
    let Ok(mut esc) = Esc::new(row.alloc(), 64, 64) else {
        return row.fail();
    };
    esc.place_in(&error_mail(2));
    row.answer(esc.in_full());
    row.show(u64::from(manager_written(&mut esc, 0)));
    row.answer(esc.in_full());
    let _ = manager_written(&mut esc, 3);
    row.answer(esc.in_full());
    row.answer(esc.repeat_asked());
    esc.acknowledge();
    row.answer(esc.repeat_asked());
    row.answer(esc.out_area().is_none());
}

// A mail is offered where the managers are enabled, and read twice: the working counter of both, what stands first in the area, and whether both areas are
// right.
fn read_once(row: &mut Row<'_>) {
    let Ok(mut esc) = Esc::new(row.alloc(), 64, 64) else {
        return row.fail();
    };
    let _ = manager_written(&mut esc, 3);
    esc.acknowledge();
    esc.place_in(&error_mail(2));
    let mut area = [0; 64];
    let mut read = Head {
        command: Command::Fprd,
        ado: 0x1800,
        len: 64,
        ..Head::default()
    };
    esc.pass(&mut read, &mut area);
    esc.pass(&mut read, &mut area);
    row.show(u64::from(read.counter));
    row.digits(&area[..10]);
    row.answer(esc.areas_right());
}

// A mail that is written twice, and again behind a step: the working counters, how many mails the server took behind each step, and what is left.
fn taken_once(row: &mut Row<'_>) {
    let Ok(mut esc) = Esc::new(row.alloc(), 64, 64) else {
        return row.fail();
    };
    let mut slave_box = SlaveBox::new();
    let mut server = Refusing {
        taken: 0,
        answers: false,
    };
    let mut manager = MANAGER;
    row.show(u64::from(write(&mut esc, 0, 0x0800, &mut manager)));
    let mut area = [0; 64];
    area[5] = 0x13;
    row.show(u64::from(write(&mut esc, 0, 0x1000, &mut area)));
    row.show(u64::from(write(&mut esc, 0, 0x1000, &mut area)));
    slave_box.look(&mut esc);
    slave_box.serve(&mut esc, &mut server, 2);
    let first = server.taken;
    if first > 1 {
        return row.fail();
    }
    row.show(u64::from(write(&mut esc, 0, 0x1000, &mut area)));
    slave_box.step(&mut esc, &mut server, 2);
    row.show(u64::from(first));
    row.show(u64::from(server.taken));
    row.answer(esc.out_area().is_none());
    row.answer(esc.in_full());
    row.answer(slave_box.at_rest());
}

impl SlaveBench {
    /// It is in Init.
    pub fn new(alloc: Global) -> Result<SlaveBench, NoMemory> {
        let esc = Esc::new(alloc, 4, 4)?;
        let node = SlaveNode::new(alloc, 64, 64, false, Quiet { gives: false })?;
        Ok(SlaveBench { esc, node })
    }

    // A datagram passes: ADP, working counter and octets as it comes back.
    fn pass(&mut self, row: &mut Row<'_>) {
        let (command, adp, ado) = (row.small(), row.short(), row.short());
        let octets = row.octets();
        let mut body: ArrayVec<u8, 8> = ArrayVec::new();
        row.check(body.try_extend_from_slice(octets.bytes()).is_ok());
        let mut head = Head {
            command: Command::of(command),
            adp,
            ado,
            len: body.len() as u16,
            ..Head::default()
        };
        self.esc.pass(&mut head, body.as_mut_slice());
        row.show(u64::from(head.adp));
        row.show(u64::from(head.counter));
        row.digits(body.as_slice());
    }

    // The frame that goes on so behind its addresses, behind which the processor makes a step: what comes back behind the addresses.
    fn turn(&mut self, row: &mut Row<'_>) {
        let octets = row.octets();
        let mut frame = FrameBuf::new();
        row.check(frame.try_extend_from_slice(&FRONT).is_ok());
        row.check(frame.try_extend_from_slice(octets.bytes()).is_ok());
        self.node.pass(&mut frame);
        self.node.pdi();
        row.digits(frame.as_slice().get(14..).unwrap_or(&[]));
    }
}

impl Bench for SlaveBench {
    fn carry(&mut self, row: &mut Row<'_>) {
        match row.word() {
            "pass" => self.pass(row),
            "request" => match self.esc.al_request() {
                Some(word) => row.show(u64::from(word)),
                None => row.say("none"),
            },
            "offered" => offered(row),
            "read_once" => read_once(row),
            "twice" => taken_once(row),
            "turn" => self.turn(row),
            "al" => row.show(u64::from(self.node.al())),
            "settled" => row.answer(self.node.settled()),
            "handled" => row.show(self.node.handled()),
            _ => row.fail(),
        }
    }
}
