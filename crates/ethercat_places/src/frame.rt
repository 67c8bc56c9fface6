ghost use Rattle.std.specs.Prelude.{◌≡◌, ◌+◌, ◌<◌, ◌≤◌, ◌^◌, length, drop};
ghost use Rattle.datagrams.specs.Datagram.{body_length};
ghost use Rattle.ethercat_places.specs.Frame.{says_more, step_of, ended_at, walk_within, unseen, kind_of, datagrams_in, frame_in, frame_of};

use crate::place::{Place, find};
use ec_fields::{bits, u16_at};

/// How many octets a datagram has before its body.
const FRONT: usize = 10;

/// How many octets a datagram has beside its body.
const BESIDE_BODY: usize = 12;

/// How many octets the EtherCAT header has.
const HEADER: usize = 2;

const DATAGRAMS: u16 = 1;

const GATEWAY: u16 = 5;

/// What a packet of a capture is.
#[derive(Clone, Copy)]
pub enum Kind {
    /// No EtherCAT, or a type other than datagrams and gateway mails.
    Other,
    /// Gateway mails, type 5.
    Gateway,
    /// Datagrams within the length of the header, all there.
    EtherCat,
    /// The same, where they reach behind the captured octets of a packet that had more.
    Cut,
    /// Every other type 1.
    Unreadable,
}

/// A packet's EtherCAT frame as far as it is visible: a datagram is visible where its first ten octets were
/// captured, it lies within the frame's length, and so do all before it.
#[derive(Clone, Copy)]
pub struct Frame {
    pub kind: Kind,
    /// The place of the first datagram in the packet, 0 where none is looked for.
    pub first: usize,
    /// How many datagrams are visible.
    pub visible: usize,
    /// Whether there is a visible one that says that none follows.
    pub wholly: bool,
}

/// How the visible datagrams of a frame end.
#[derive(Clone, Copy)]
pub enum Ending {
    /// Behind a datagram that says that none follows; `cut` where octets of it weren't captured.
    Last { cut: bool },
    /// Fewer than ten octets are left.
    Torn,
    /// A datagram reaches behind the frame's length.
    Beyond,
}

/// One step from datagram to datagram.
#[derive(Clone, Copy)]
pub enum Step {
    /// A datagram of so many octets is visible and another one follows.
    On { size: usize },
    /// The end.
    End { ending: Ending },
}

/// How many datagrams are visible, and how they end.
#[derive(Clone, Copy)]
pub struct Walk {
    pub visible: usize,
    pub ending: Ending,
}

// How many octets the datagram has whose octets begin here.
fn size_at(octets: &[u8]) -> usize
    requires { 8 ≤ length octets.now }
    ensures value { result ≡ 12 + body_length octets.now }
    ensures some { 12 ≤ result }
    ensures small { result < 12 + 2 ^ 11 }
{
    BESIDE_BODY + bits(u16_at(octets, 6), 0, 11) as usize
}

// Whether the datagram whose octets begin here says that another one follows.
fn more_at(octets: &[u8]) -> bool
    requires { 8 ≤ length octets.now }
    ensures { result ≡ says_more octets.now }
{
    bits(u16_at(octets, 6), 15, 1) == 1
}

// The step from the datagram whose octets begin here, where the frame's length has `left` octets left.
fn step_at(octets: &[u8], left: usize) -> Step
    ensures { result ≡ step_of left octets.now }
{
    if octets.len() < FRONT {
        return Step::End {
            ending: Ending::Torn,
        };
    }
    let size = size_at(octets);
    if left < size {
        return Step::End {
            ending: Ending::Beyond,
        };
    }
    if more_at(octets) {
        return Step::On { size };
    }
    Step::End {
        ending: Ending::Last {
            cut: octets.len() < size,
        },
    }
}

// The step at a place of octets.
fn step_behind(octets: &[u8], at: usize, left: usize) -> Step
    requires { at ≤ length octets.now }
    ensures { result ≡ step_of left (drop at octets.now) }
{
    step_at(&octets[at..], left)
}

// The step at a place of the captured octets within the frame's length; the place may be behind them.
fn step_from(octets: &[u8], at: usize, left: usize) -> Step
    ensures { result ≡ step_of left (drop at octets.now) }
{
    step_behind(octets, at.min(octets.len()), left)
}

// The walk that ends so behind so many datagrams.
fn ended(before: usize, ending: Ending) -> Walk
    requires { before < 2 ^ 11 }
    ensures { result ≡ ended_at before ending }
{
    match ending {
        Ending::Last { .. } => Walk {
            visible: before + 1,
            ending,
        },
        _ => Walk {
            visible: before,
            ending,
        },
    }
}

// Walks the captured octets within a frame's length, `size`.
fn walk_over(octets: &[u8], size: usize) -> Walk
    requires { size < 2 ^ 11 }
    ensures { result ≡ walk_within (length octets.now) 0 size octets.now }
{
    let mut visible = 0;
    let mut at = 0;
    'datagrams: loop {
        match step_from(octets, at, size - at) {
            Step::On { size: step } => at += step,
            Step::End { ending } => return ended(visible, ending),
        }
        visible += 1;
    }
}

// A frame of which nothing is visible.
fn hidden(kind: Kind) -> Frame
    ensures { result ≡ unseen kind }
{
    Frame {
        kind,
        first: 0,
        visible: 0,
        wholly: false,
    }
}

// What a frame of datagrams is whose octets within its length are all there, or aren't.
fn kind_at(ending: Ending, short: bool) -> Kind
    ensures { result ≡ kind_of short ending }
{
    match ending {
        Ending::Last { cut: false } => Kind::EtherCat,
        Ending::Last { cut: true } => Kind::Cut,
        Ending::Torn if short => Kind::Cut,
        _ => Kind::Unreadable,
    }
}

// The frame of datagrams from place `first` on, where `there` octets were captured of the frame's length.
fn datagrams_at(bytes: &[u8], had_more: bool, first: usize, there: usize, size: usize) -> Frame
    requires inside { first + there ≤ length bytes.now }
    requires short { size < 2 ^ 11 }
    ensures { result ≡ datagrams_in bytes.now had_more first there size }
{
    let short = there < size;
    if short && !had_more {
        return hidden(Kind::Unreadable);
    }
    let walk = walk_over(&bytes[first..][..there.min(size)], size);
    Frame {
        kind: kind_at(walk.ending, short),
        first,
        visible: walk.visible,
        wholly: matches!(walk.ending, Ending::Last { .. }),
    }
}

// The frame whose EtherCAT header stands at a place.
fn frame_from(bytes: &[u8], had_more: bool, place: Place) -> Frame
    requires order { place.from ≤ place.to }
    requires inside { place.to ≤ length bytes.now }
    ensures { result ≡ frame_in bytes.now had_more place }
{
    let room = place.to - place.from;
    if room < HEADER {
        return hidden(if had_more {
            Kind::Cut
        } else {
            Kind::Unreadable
        });
    }
    let word = u16_at(bytes, place.from);
    let kind = bits(word, 12, 4);
    if kind == GATEWAY {
        return hidden(Kind::Gateway);
    }
    if kind != DATAGRAMS {
        return hidden(Kind::Other);
    }
    let size = bits(word, 0, 11) as usize;
    datagrams_at(bytes, had_more, place.from + HEADER, room - HEADER, size)
}

/// What a packet is of which these octets were captured, and which had `original` octets on the wire
/// (ETG.1000.4, 5.3): its kind, and the datagrams that are visible.
pub fn read_frame(bytes: &[u8], original: u32) -> Frame
    ensures { result ≡ frame_of bytes.now original }
{
    let had_more = bytes.len() < original as usize;
    match find(bytes) {
        Some(place) => frame_from(bytes, had_more, place),
        None => hidden(Kind::Other),
    }
}
