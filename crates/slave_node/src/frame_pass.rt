//! A frame passes the registers of one slave: its datagrams are carried out in the order in which they stand, in place (ETG.1000.4, 5.4).

ghost use Rattle.std.specs.Prelude.{◌≡◌, ◌+◌, ◌≤◌, List, length, take, drop};
ghost use Rattle.al_state.specs.of_datagrams.Datagram.{Datagram};
ghost use Rattle.al_state.specs.of_datagrams.Frame.{IsFrame, IsPart};
ghost use Rattle.mailbox_slave.specs.of_esc_registers.Access.{access, KeepsLengths};
ghost use Rattle.slave_node.specs.Passing.{part_passed, frame_passed, replaced, IsPassed, PartPasses};

use datagrams::{FrameBuf, Head, Part};
use esc_registers::Esc;

// Where the first datagram of a frame stands.
const FIRST: usize = 16;

// The octets of a datagram before its body.
const FRONT: usize = 10;

// The octets of a datagram beside its body.
const BESIDE_BODY: usize = 12;

// The access of one datagram, its body in place.
fn pass_body(esc: &mut Esc, head: &mut Head, octets: &mut [u8], from: usize)
    requires inside { from + head.old.len ≤ length octets.old }
    ensures table { let body = take head.old.len (drop from octets.old) in (esc.new ≡ (access esc.old head.old body).registers) × (head.new ≡ (access esc.old head.old body).head) × (octets.new ≡ replaced octets.old from (access esc.old head.old body).body) }
    ensures length { length (access esc.old head.old (take head.old.len (drop from octets.old))).body ≡ head.old.len }
    ensures lengths { KeepsLengths esc.old esc.new }
{
    let to = from + head.len as usize;
    esc.pass(head, &mut octets[from..to]);
}

// The same within a frame.
fn pass_within(esc: &mut Esc, head: &mut Head, frame: &mut FrameBuf, from: usize)
    requires inside { from + head.old.len ≤ length frame.old.items }
    ensures table { let body = take head.old.len (drop from frame.old.items) in (esc.new ≡ (access esc.old head.old body).registers) × (head.new ≡ (access esc.old head.old body).head) × (frame.new.items ≡ replaced frame.old.items from (access esc.old head.old body).body) }
    ensures length { length (access esc.old head.old (take head.old.len (drop from frame.old.items))).body ≡ head.old.len }
    ensures lengths { KeepsLengths esc.old esc.new }
{
    pass_body(esc, head, frame.as_mut_slice(), from);
}

// Where the body of a datagram begins that lies within the frame.
fn body_place(frame: &FrameBuf, part: &Part) -> usize
    requires { part.now.at + (12 + part.now.head.len) ≤ length frame.now.items }
    ensures { result ≡ part.now.at + 10 }
{
    let _octets = frame.len();
    part.at + FRONT
}

// Where the octets behind a datagram begin that lies within the frame.
fn place_behind(frame: &FrameBuf, part: &Part) -> usize
    requires { part.now.at + (12 + part.now.head.len) ≤ length frame.now.items }
    ensures { result ≡ part.now.at + (12 + part.now.head.len) }
{
    let _octets = frame.len();
    part.at + (BESIDE_BODY + part.head.len as usize)
}

// One datagram of a frame that reads is carried out.
fn carry_out(esc: &mut Esc, frame: &mut FrameBuf, part: &Part)
    requires { IsPart frame.old.items part.now }
    ensures passes { PartPasses esc.old esc.new frame.old.items frame.new.items part.now }
    ensures exact { (esc.new, frame.new.items) ≡ part_passed esc.old frame.old.items part.now }
    ensures lengths { KeepsLengths esc.old esc.new }
{
    let mut head = part.head;
    let from = body_place(frame, part);
    pass_within(esc, &mut head, frame, from);
    datagrams::set(frame, part, head.adp, head.counter);
}

// One datagram of a frame that reads passes. Nothing of it is written where it concerns another slave.
fn pass_part(esc: &mut Esc, frame: &mut FrameBuf, part: &Part)
    requires { IsPart frame.old.items part.now }
    ensures passes { PartPasses esc.old esc.new frame.old.items frame.new.items part.now }
    ensures exact { (esc.new, frame.new.items) ≡ part_passed esc.old frame.old.items part.now }
    ensures lengths { KeepsLengths esc.old esc.new }
{
    if esc.is_concerned(&part.head) {
        carry_out(esc, frame, part);
    }
}

// The datagrams of a frame that reads pass, in order. The walk keeps the place of a datagram alone: of one that
// concerns another slave no more is read than says so.
fn pass_parts(esc: &mut Esc, frame: &mut FrameBuf)
    requires { (ds : List Datagram) × IsFrame frame.old.items ds }
    ensures passes { (ds : List Datagram) → IsFrame frame.old.items ds → IsPassed esc.old esc.new frame.new.items ds }
    ensures exact { (esc.new, frame.new.items) ≡ frame_passed esc.old frame.old.items }
    ensures lengths { KeepsLengths esc.old esc.new }
{
    let mut at = FIRST;
    'datagrams: loop {
        let part = datagrams::part_at(frame.as_slice(), at);
        let later = place_behind(frame, &part);
        pass_part(esc, frame, &part);
        if !part.head.more {
            return;
        }
        at = later;
    }
}

/// A frame passes the slave (ETG.1000.4, 5.4): each of its datagrams is carried out in its turn, in place, and the frame goes on as they left
/// it. What isn't a frame goes on as it came. No memory is taken, and no octet but those that change is touched.
pub fn pass(esc: &mut Esc, frame: &mut FrameBuf)
    ensures passes { (ds : List Datagram) → IsFrame frame.old.items ds → IsPassed esc.old esc.new frame.new.items ds }
    ensures exact { (esc.new, frame.new.items) ≡ frame_passed esc.old frame.old.items }
    ensures lengths { KeepsLengths esc.old esc.new }
{
    if datagrams::fault(frame.as_slice()).is_none() {
        pass_parts(esc, frame);
    }
}
