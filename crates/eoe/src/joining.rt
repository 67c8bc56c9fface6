ghost use Rattle.std.specs.Prelude.{◌≡◌, ◌≤◌, ◌<◌, ◌+◌, ◌*◌, length, None};
ghost use Rattle.std.specs.Bool.{OnTrue};
ghost use Rattle.std.specs.Option.{option_copied};
ghost use Rattle.eoe.specs.Joining.{is_awaited, awaited, added, payload_of, is_packet, ended, ended_by, taken, going_on, IsWithin};
ghost use Rattle.eoe.specs.View.{fragment_seen, joined_in, IsKept};

use crate::cutting::blocks;
use crate::message::{Fragment, Packet};
use crate::viewing::{BLOCK, FragmentView, fragment_of};
use ec_fields::{append, refill};
use std::marker::Model;

/// The least and the greatest packet.
const LEAST: usize = 14;

const GREATEST: usize = 1514;

/// The octets of a time stamp.
const STAMP: usize = 4;

/// A packet whose last fragment has not come yet: its frame number, the number of the fragment that
/// came last, how many blocks it is to have, how many octets came, and those octets. A packet that
/// outgrows 1,514 octets keeps none from then on.
#[derive(Drop)]
pub struct Unfinished {
    pub frame: u8,
    pub number: u8,
    pub blocks: u8,
    pub size: usize,
    pub octets: Packet,
}

/// What became of a fragment.
#[derive(Drop)]
pub enum Joined {
    /// It was awaited, and more are.
    More,
    /// It was the last of this packet.
    Whole(Packet),
    /// It wasn't the awaited one. The unfinished packet is gone.
    Dropped,
}

/// The same by itself.
#[derive(Clone, Copy)]
pub enum Came {
    More,
    Whole,
    Dropped,
}

/// Packets joined from their fragments, one at a time, in one place.
#[derive(Drop)]
pub struct Reassembler {
    is_going: bool,
    packet: Unfinished,
}

impl Model for Reassembler {
    ghost use Rattle.std.specs.Prelude.{Option};
    ghost use Rattle.eoe.specs.declared.joining.Unfinished.{Unfinished};
    ghost use Rattle.eoe.specs.Joining.{going_on, IsWithin};

    ghost Value = { Option Unfinished };

    ghost view = { λ r. going_on r.is_going r.packet };

    ghost invariant = { λ r. IsWithin r.packet };
}

// Adds the octets of a fragment to a packet.
fn add(packet: &mut Unfinished, bytes: &[u8])
    requires short { packet.old.size < 65536 }
    requires within { IsWithin packet.old }
    ensures value { packet.new ≡ added packet.old bytes.now }
    ensures kept { IsWithin packet.new }
{
    packet.size += bytes.len();
    if packet.size <= GREATEST {
        append(&mut packet.octets, bytes);
    } else {
        packet.octets.clear();
    }
}

// Whether a fragment goes on with a packet.
fn is_awaited(packet: &Unfinished, fragment: FragmentView<'_>) -> bool
    ensures value { result ≡ is_awaited packet.now (fragment_seen fragment.entry) }
    ensures short { OnTrue result (packet.now.size < 65536) }
{
    fragment.frame == packet.frame
        && fragment.number as usize == packet.number as usize + 1
        && BLOCK * fragment.offset as usize == packet.size
}

// Makes a packet the one that a fragment belongs to, before its octets; false where there is none.
// Fragment 0 starts one.
fn accept(packet: &mut Unfinished, is_going: bool, fragment: FragmentView<'_>) -> bool
    requires { IsWithin packet.old }
    ensures value { going_on result packet.new ≡ awaited (going_on is_going packet.old) (fragment_seen fragment.entry) }
    ensures kept { IsWithin packet.new }
    ensures short { OnTrue result (packet.new.size < 65536) }
{
    if fragment.number == 0 {
        packet.frame = fragment.frame;
        packet.number = 0;
        packet.blocks = fragment.offset;
        packet.size = 0;
        packet.octets.clear();
        return true;
    }
    if !is_going || !is_awaited(packet, fragment) {
        return false;
    }
    packet.number = fragment.number;
    true
}

// The octets of a last fragment without its time stamp, `None` where it is too short for one.
fn payload(fragment: FragmentView<'_>) -> Option<&[u8]>
    ensures { option_copied result ≡ payload_of (fragment_seen fragment.entry) }
{
    let bytes = fragment.bytes;
    if !fragment.stamped {
        return Some(bytes);
    }
    if bytes.len() < STAMP {
        return None;
    }
    Some(&bytes[..bytes.len() - STAMP])
}

// Whether a packet has a size that a packet may have, and the one that its first fragment said.
fn is_packet(packet: &Unfinished) -> bool
    ensures { result ≡ is_packet packet.now }
{
    packet.size >= LEAST && packet.size <= GREATEST && blocks(packet.size) == packet.blocks as usize
}

// Adds the octets of the last fragment to a packet, and says whether it is whole then.
fn end(packet: &mut Unfinished, fragment: FragmentView<'_>) -> bool
    requires short { packet.old.size < 65536 }
    requires within { IsWithin packet.old }
    ensures value { ended_by result packet.new ≡ ended packet.old (payload_of (fragment_seen fragment.entry)) }
    ensures kept { IsWithin packet.new }
{
    let Some(bytes) = payload(fragment) else {
        return false;
    };
    add(packet, bytes);
    is_packet(packet)
}

impl Reassembler {
    /// Nothing is unfinished.
    pub fn new() -> Reassembler
        ensures { result ≡ None }
    {
        Reassembler {
            is_going: false,
            packet: Unfinished {
                frame: 0,
                number: 0,
                blocks: 0,
                size: 0,
                octets: Packet::new(),
            },
        }
    }

    /// Takes the next fragment that came, as [`Reassembler::take`] does. Where it makes a packet whole,
    /// this stands in `whole` then, which stays otherwise. Nothing but octets that came is copied.
    pub fn take_into(&mut self, fragment: FragmentView<'_>, whole: &mut Packet) -> Came
        ensures taken { record { unfinished = self.new; joined = joined_in result whole.new } ≡ taken self.old (fragment_seen fragment.entry) }
        ensures kept { IsKept result whole.old whole.new }
    {
        self.is_going = accept(&mut self.packet, self.is_going, fragment);
        if !self.is_going {
            return Came::Dropped;
        }
        if !fragment.last {
            add(&mut self.packet, fragment.bytes);
            return Came::More;
        }
        self.is_going = false;
        if !end(&mut self.packet, fragment) {
            return Came::Dropped;
        }
        refill(whole, self.packet.octets.as_slice());
        Came::Whole
    }

    /// Takes the next fragment that came. `Dropped` comes exactly where it isn't the awaited one: a
    /// fragment 0 always starts a packet; another has to have the packet's frame number, the next
    /// number, and its offset where the octets end. A last one has to make the packet as long as
    /// fragment 0 said, and 14 to 1,514 octets long.
    pub fn take(&mut self, fragment: &Fragment) -> Joined
        ensures { record { unfinished = self.new; joined = result } ≡ taken self.old fragment.now }
    {
        let mut whole = Packet::new();
        match self.take_into(fragment_of(fragment), &mut whole) {
            Came::More => Joined::More,
            Came::Whole => Joined::Whole(whole),
            Came::Dropped => Joined::Dropped,
        }
    }
}
