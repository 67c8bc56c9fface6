ghost use Rattle.std.specs.Prelude.{◌≡◌, false, ◌+◌, ◌<◌, ◌≤◌, ◌^◌, length};
ghost use Rattle.datagrams.specs.Datagram.{IsInRange, body_length, head_read, length_word, front_text};

use crate::command::Command;
use ec_fields::{bits, put_u16, u16_at};

/// What stands in a datagram beside its body (ETG.1000.4, 5.4.1): the command, the index that the
/// master chose, the two address fields, the body's length, whether the frame circulates, whether
/// another datagram follows, the interrupts, and the working counter.
#[derive(Clone, Copy, Default)]
pub struct Head {
    pub command: Command,
    pub index: u8,
    pub adp: u16,
    pub ado: u16,
    pub len: u16,
    pub circulating: bool,
    pub more: bool,
    pub interrupt: u16,
    pub counter: u16,
}

/// How many octets a datagram has before its body.
pub const FRONT: usize = 10;

/// How many octets a datagram has beside its body.
pub const BESIDE_BODY: usize = 12;

const CIRCULATING: u16 = 0x4000;

const MORE: u16 = 0x8000;

/// How many octets the datagram whose octets begin here says that its body has.
pub fn body_len(octets: &[u8]) -> u16
    requires { 8 ≤ length octets.now }
    ensures value { result ≡ body_length octets.now }
    ensures fits { result < 2 ^ 11 }
{
    bits(u16_at(octets, 6), 0, 11)
}

/// The head of the datagram whose octets begin here and are all there.
pub fn head_at(octets: &[u8]) -> Head
    requires { 12 + body_length octets.now ≤ length octets.now }
    ensures { result ≡ head_read octets.now }
{
    let word = u16_at(octets, 6);
    let len = body_len(octets);
    Head {
        command: Command::of(octets[0]),
        index: octets[1],
        adp: u16_at(octets, 2),
        ado: u16_at(octets, 4),
        len,
        circulating: bits(word, 14, 1) == 1,
        more: bits(word, 15, 1) == 1,
        interrupt: u16_at(octets, 8),
        counter: u16_at(octets, FRONT + len as usize),
    }
}

// The word of the body's length with the two marks.
fn length_word(head: &Head) -> u16
    requires { head.now.len < 2 ^ 11 }
    ensures { result ≡ length_word 0 head.now }
{
    let circulating = if head.circulating { CIRCULATING } else { 0 };
    let more = if head.more { MORE } else { 0 };
    head.len + circulating + more
}

/// The ten octets before the body.
pub fn front_octets(head: &Head) -> [u8; 10]
    requires { head.now.len < 2 ^ 11 }
    ensures { result ≡ front_text 0 head.now }
{
    let mut octets = [head.command.number(), head.index, 0, 0, 0, 0, 0, 0, 0, 0];
    put_u16(&mut octets, 2, head.adp);
    put_u16(&mut octets, 4, head.ado);
    put_u16(&mut octets, 6, length_word(head));
    put_u16(&mut octets, 8, head.interrupt);
    octets
}

/// The head of a datagram behind which none follows yet.
pub fn last_head(head: Head) -> Head
    ensures value { result ≡ record head { more = false } }
    ensures in_range { IsInRange result }
{
    Head {
        more: false,
        ..head
    }
}
