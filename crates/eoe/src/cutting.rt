ghost use Rattle.std.specs.Prelude.{◌≡◌, ◌≤◌, ◌<◌, ◌*◌, ◌/◌, ◌-◌, ◌^◌, nat_le, length, take, drop, IfSome, option_map};
ghost use Rattle.eoe.specs.Cutting.{blocks_of, next_fragment, cutting_after};
ghost use Rattle.eoe.specs.Message.{IsFragment};
ghost use Rattle.eoe.specs.View.{fragment_seen};

use crate::message::{Fragment, Packet};
use crate::reading::copy_of;
use crate::viewing::{BLOCK, FragmentView};
use ec_fields::buffer_of;
use std::marker::Model;

/// A packet on its way into fragments.
#[derive(Drop)]
pub struct Fragmenter {
    packet: Packet,
    size: usize,
    frame: u8,
    number: u8,
    at: usize,
}

impl Model for Fragmenter {
    ghost use Rattle.std.specs.Prelude.{◌≤◌, ◌*◌};
    ghost use Rattle.eoe.specs.Cutting.{Cutting, IsCutting};

    ghost Value = { Cutting };

    ghost view = { λ f. record { packet = f.packet.items; size = f.size; frame = f.frame; number = f.number; at = f.at } };

    ghost invariant = { λ f. IsCutting f.size f.frame f.number f.at };
}

/// Begins to cut a packet for a mailbox area of 64 to 1,486 octets, with the frame number 0 to 15.
/// Each fragment but the last has as many blocks of 32 octets as the area holds.
pub fn cut(packet: &Packet, area: u16, frame: u8) -> Fragmenter
    requires least { 64 ≤ area }
    requires greatest { area ≤ 1486 }
    requires framed { frame < 2 ^ 4 }
    ensures { result ≡ record { packet = packet.now.items; size = 32 * ((area - 10) / 32); frame = frame; number = 0; at = 0 } }
{
    Fragmenter {
        packet: buffer_of(packet.as_slice()),
        size: BLOCK * ((area as usize - 10) / BLOCK),
        frame,
        number: 0,
        at: 0,
    }
}

/// How many blocks of 32 octets this many octets have, the last one begun.
pub fn blocks(len: usize) -> usize
    requires { len < 65536 }
    ensures { result ≡ blocks_of len }
{
    (len + BLOCK - 1) / BLOCK
}

// At most `size` octets of a packet from a place on.
fn piece(packet: &[u8], at: usize, size: usize) -> &[u8]
    requires { at ≤ length packet.now }
    ensures value { result.now ≡ take size (drop at packet.now) }
    ensures fits { length result.now ≤ size }
{
    let rest = &packet[at..];
    if rest.len() <= size {
        rest
    } else {
        &rest[..size]
    }
}

impl Fragmenter {
    /// Whether no fragment is left.
    pub fn is_over(&self) -> bool
        ensures { result ≡ nat_le (length self.now.packet) self.now.at }
    {
        self.at >= self.packet.len()
    }

    /// The next fragment as it stands in the packet, `None` exactly behind the last. It is one that
    /// [`write_view`](crate::write_view) takes. Nothing is copied.
    pub fn peek(&self) -> Option<FragmentView<'_>>
        ensures fragment { option_map fragment_seen result ≡ next_fragment self.now }
        ensures written { IfSome result (λ f. IsFragment (fragment_seen f)) }
        ensures fits { IfSome result (λ f. length f.bytes.now ≤ 1476) }
    {
        let len = self.packet.len();
        if self.at >= len {
            return None;
        }
        let offset = if self.number == 0 {
            blocks(len)
        } else {
            self.at / BLOCK
        };
        Some(FragmentView {
            last: len <= self.at + self.size,
            stamped: false,
            number: self.number,
            offset: offset as u8,
            frame: self.frame,
            bytes: piece(self.packet.as_slice(), self.at, self.size),
        })
    }

    /// Goes on behind the next fragment; behind the last it stays.
    pub fn skip(&mut self)
        ensures { self.new ≡ cutting_after self.old }
    {
        if self.at < self.packet.len() {
            self.number += 1;
            self.at += self.size;
        }
    }

    /// The next fragment, `None` exactly behind the last. It is one that [`write`](crate::write) takes.
    pub fn next(&mut self) -> Option<Fragment>
        ensures fragment { result ≡ next_fragment self.old }
        ensures goes_on { self.new ≡ cutting_after self.old }
        ensures written { IfSome result IsFragment }
    {
        let fragment = match self.peek() {
            Some(fragment) => Some(copy_of(fragment)),
            None => None,
        };
        self.skip();
        fragment
    }
}
