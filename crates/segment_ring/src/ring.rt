ghost use Rattle.std.specs.Prelude.{◌≡◌, ◌≤◌, ◌<◌, ◌+◌, ℕ, suc, if◌then◌else◌, length, slice_get};
ghost use Rattle.std.specs.Option.{option_copied};
ghost use Rattle.segment_ring.specs.Schedule.{Rises};
ghost use Rattle.segment_ring.specs.Ring.{ArePaces, AllFew, is_in_pace, nodes_passed, frame_met, nodes_stepped};

use crate::schedule::fate_of;
use crate::wire::{Fate, Slave, Wire};
use datagrams::FrameBuf;
use ec_fields::Rows;
use std::marker::Model;

/// A ring of slaves, in the order in which a frame meets them.
#[derive(Drop)]
pub struct Ring<N: Slave> {
    nodes: Rows<N>,
    paces: Rows<u32>,
    lose: Rows<(u32, u32)>,
    number: u32,
    next: usize,
}

impl<N: Slave> Model for Ring<N> {
    ghost use Rattle.std.specs.Prelude.{◌≡◌, ◌+◌, length};
    ghost use Rattle.segment_ring.specs.Schedule.{Rises, StandsAt};
    ghost use Rattle.segment_ring.specs.Ring.{RingState, ArePaces, AllFew};

    ghost Value = { RingState N };

    ghost view = { λ r. record { nodes = r.nodes; paces = r.paces; lose = r.lose; number = r.number } };

    ghost invariant = { λ r. (length r.paces ≡ length r.nodes) × ArePaces r.paces × Rises r.lose × StandsAt r.lose r.next r.number × AllFew N.handled (9223372036854775808 + r.number) r.nodes };
}

impl<N: Slave> Ring<N> {
    /// A ring of these slaves before its first frame: behind every `paces[k]`-th frame the processor of slave `k` makes a step, 1 to 16; a frame
    /// whose number is in `lose` is met by the first so many slaves and lost. The numbers of `lose` rise.
    pub fn new(nodes: Rows<N>, paces: Rows<u32>, lose: Rows<(u32, u32)>) -> Ring<N>
        requires paced { length paces ≡ length nodes }
        requires paces { ArePaces paces }
        requires lose { Rises lose }
        requires few { AllFew N.handled 9223372036854775808 nodes }
        ensures { result ≡ record { nodes = nodes; paces = paces; lose = lose; number = 0 } }
    {
        Ring {
            nodes,
            paces,
            lose,
            number: 0,
            next: 0,
        }
    }

    /// The slave at a place of the ring, counted from 0; `None` exactly where there is none.
    pub fn node(&self, at: u32) -> Option<&N>
        ensures { option_copied result ≡ slice_get self.now.nodes at }
    {
        // A field is named so that the proof has what holds of the fields.
        let _ = &self.next;
        self.nodes.get(at as usize)
    }

    /// The slaves in order.
    pub fn into_nodes(self) -> Rows<N>
        ensures { result ≡ self.nodes }
    {
        self.nodes
    }
}

// A frame meets the first slaves of a ring, in place.
fn meet<N: Slave>(nodes: &mut Rows<N>, count: usize, frame: &mut FrameBuf)
    requires { count ≤ length nodes.old }
    ensures met { (nodes.new, frame.new.items) ≡ nodes_passed N.passed count nodes.old frame.old.items }
    ensures length { length nodes.new ≡ length nodes.old }
    ensures few { (most : ℕ) → AllFew N.handled most nodes.old → AllFew N.handled most nodes.new }
{
    for at in 0..count {
        nodes.at_mut(at).pass(frame);
    }
}

// A frame meets the first `after` slaves of a ring, or all where there are fewer.
fn meet_first<N: Slave>(nodes: &mut Rows<N>, after: u32, frame: &mut FrameBuf)
    ensures met { (nodes.new, frame.new.items) ≡ nodes_passed N.passed after nodes.old frame.old.items }
    ensures length { length nodes.new ≡ length nodes.old }
    ensures few { (most : ℕ) → AllFew N.handled most nodes.old → AllFew N.handled most nodes.new }
{
    let count = nodes.len();
    if (after as usize) < count {
        meet(nodes, after as usize, frame);
    } else {
        meet(nodes, count, frame);
    }
}

// A frame meets all slaves of a ring and comes back, or the first of them and is lost.
fn meet_by<N: Slave>(nodes: &mut Rows<N>, fate: Fate, frame: &mut FrameBuf)
    ensures met { (nodes.new, frame.new.items) ≡ frame_met N.passed nodes.old frame.old.items fate }
    ensures length { length nodes.new ≡ length nodes.old }
    ensures few { (most : ℕ) → AllFew N.handled most nodes.old → AllFew N.handled most nodes.new }
{
    match fate {
        Fate::Pass => {
            let count = nodes.len();
            meet(nodes, count, frame);
        }
        Fate::Lost { after } => {
            meet_first(nodes, after, frame);
            frame.clear();
        }
    }
}

// The processor of a slave of this pace makes a step behind a frame, or none.
fn step_one<N: Slave>(node: &mut N, pace: u32, number: u32)
    requires pace { 1 ≤ pace }
    requires number { number < 100000000 }
    requires few { N.handled node.old < 18446744073709551615 }
    ensures stepped { node.new ≡ (if is_in_pace pace number then N.stepped node.old else node.old) }
    ensures few { N.handled node.new ≤ suc (N.handled node.old) }
{
    if (number + 1) % pace == 0 {
        node.step();
    }
}

// The processors of the slaves whose pace divides the number of frames so far make a step.
fn step<N: Slave>(nodes: &mut Rows<N>, paces: &[u32], number: u32)
    requires paced { length paces.now ≡ length nodes.old }
    requires paces { ArePaces paces.now }
    requires few { AllFew N.handled (9223372036854775808 + number) nodes.old }
    requires number { number < 100000000 }
    ensures stepped { nodes.new ≡ nodes_stepped N.stepped paces.now number nodes.old }
    ensures length { length nodes.new ≡ length nodes.old }
    ensures few { AllFew N.handled (9223372036854775808 + (number + 1)) nodes.new }
{
    for at in 0..paces.len() {
        step_one(nodes.at_mut(at), paces[at], number);
    }
}

// A frame's octets in place of those of a buffer.
fn copy(from: &FrameBuf, into: &mut FrameBuf)
    ensures { into.new.items ≡ from.now.items }
{
    into.clear();
    match into.try_extend_from_slice(from.as_slice()) {
        Ok(()) => {}
        Err(_) => unreachable!(),
    }
}

impl<N: Slave> Wire for Ring<N> {
    ghost use Rattle.std.specs.Prelude.{ℕ};
    ghost use Rattle.segment_ring.specs.Schedule.{fate_at};
    ghost use Rattle.segment_ring.specs.Ring.{ring_behind, ring_returned};

    ghost number = { λ r. r.number };

    ghost fate = { λ r. fate_at r.lose r.number };

    ghost returned = { ring_returned N.passed };

    ghost behind = { ring_behind N.passed N.stepped };

    fn exchange(&mut self, sent: &FrameBuf, back: &mut FrameBuf) -> Fate {
        let fate = fate_of(&self.lose, &mut self.next, self.number);
        copy(sent, back);
        meet_by(&mut self.nodes, fate, back);
        step(&mut self.nodes, self.paces.as_slice(), self.number);
        self.number += 1;
        fate
    }
}
