ghost use Rattle.std.specs.Prelude.{◌≡◌, ℕ, ◌+◌, ◌≤◌, List, ◌∷◌, ◌++◌, length, take, drop};
ghost use Rattle.datagrams.specs.Datagram.{Datagram};
ghost use Rattle.datagrams.specs.Frame.{IsFrame, IsPart, text_of};
ghost use Rattle.datagrams.specs.Meeting.{met_datagram, part_with_head, replaced, IsMoved};

use crate::frame::{FrameBuf, Part};
use crate::head::{FRONT, Head};
use crate::writing::set;

/// What the datagrams of a frame pass, as the registers of a slave: it may change the body of each in
/// its place, its ADP and its working counter.
pub trait Passage {
    ghost use Rattle.std.specs.Prelude.{◌≡◌, ℕ, List, length};
    ghost use Rattle.datagrams.specs.declared.head.Head.{Head};
    ghost use Rattle.datagrams.specs.Meeting.{Met, IsMoved};

    /// It behind a datagram of this head and body, and these behind it.
    ghost meets: { Self → Head → List ℕ → Met Self };

    /// A datagram passes.
    fn meet(&mut self, head: &mut Head, body: &mut [u8])
        requires { head.old.len ≡ length body.old }
        ensures met { record { this = self.new; head = head.new; body = body.new } ≡ meets self.old head.old body.old }
        ensures moved { IsMoved head.old head.new };
}

// The body that begins at a place of some octets passes.
fn meet_body<P: Passage>(through: &mut P, head: &mut Head, octets: &mut [u8], from: usize)
    requires inside { from + head.old.len ≤ length octets.old }
    ensures met { let m = P.meets through.old head.old (take head.old.len (drop from octets.old)) in (through.new ≡ m.this) × (head.new ≡ m.head) × (octets.new ≡ replaced octets.old from m.body) }
    ensures length { length (P.meets through.old head.old (take head.old.len (drop from octets.old))).body ≡ head.old.len }
    ensures moved { IsMoved head.old head.new }
{
    let to = from + head.len as usize;
    through.meet(head, &mut octets[from..to]);
}

// The same in a frame.
fn meet_within<P: Passage>(through: &mut P, head: &mut Head, frame: &mut FrameBuf, from: usize)
    requires inside { from + head.old.len ≤ length frame.old.items }
    ensures met { let m = P.meets through.old head.old (take head.old.len (drop from frame.old.items)) in (through.new ≡ m.this) × (head.new ≡ m.head) × (frame.new.items ≡ replaced frame.old.items from m.body) }
    ensures length { length (P.meets through.old head.old (take head.old.len (drop from frame.old.items))).body ≡ head.old.len }
    ensures moved { IsMoved head.old head.new }
{
    meet_body(through, head, frame.as_mut_slice(), from);
}

// Where the body of a datagram begins that lies within the frame.
fn body_place(frame: &FrameBuf, part: &Part) -> usize
    requires { part.now.at + (12 + part.now.head.len) ≤ length frame.now.items }
    ensures { result ≡ part.now.at + 10 }
{
    // its length bounds the sum
    let _octets = frame.len();
    part.at + FRONT
}

/// One datagram of a frame that reads passes, in its place; all other octets of the frame stay. The
/// answer is the datagram as it is then, from which a walk goes on.
pub fn pass<P: Passage>(frame: &mut FrameBuf, part: &Part, through: &mut P) -> Part
    requires { IsPart frame.old.items part.now }
    ensures part { IsPart frame.new.items result }
    ensures passes { (front : List Datagram) (d : Datagram) (behind : List Datagram) → IsFrame frame.old.items (front ++ d ∷ behind) → part.now.at ≡ 16 + length (text_of front) → part.now.head ≡ d.head → (through.new ≡ (P.meets through.old d.head d.body).this) × IsFrame frame.new.items (front ++ met_datagram d (P.meets through.old d.head d.body) ∷ behind) × (result ≡ part_with_head part.now (P.meets through.old d.head d.body).head) }
{
    let mut head = part.head;
    let from = body_place(frame, part);
    meet_within(through, &mut head, frame, from);
    set(frame, part, head.adp, head.counter);
    Part { at: part.at, head }
}
