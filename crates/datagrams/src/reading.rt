ghost use Rattle.std.specs.Prelude.{◌≡◌, ℕ, ◌+◌, ◌<◌, ◌≤◌, ◌^◌, List, ◌∷◌, ◌++◌, length, take, drop, slice_get, Some, Err, IfOk, IfSome, IfNone, All};
ghost use Rattle.std.specs.Option.{option_to_list};
ghost use Rattle.datagrams.specs.Datagram.{Datagram, is_cut, size_of, body_length, head_read};
ghost use Rattle.datagrams.specs.Frame.{IsFrame, IsPart, text_of, parts_of, part_at, part_from, parts_within, frame_of, frame_read, FaultIs};

use crate::frame::{Frame, FrameFault, Part};
use crate::head::{BESIDE_BODY, Head, body_len, head_at};
use arrayvec::ArrayVec;
use ec_fields::{bits, u16_at};

/// Where the first datagram of a frame stands.
pub const FIRST: usize = 16;

// Whether the datagram that begins here has more octets than are left.
fn is_cut(octets: &[u8]) -> bool
    ensures { result ≡ is_cut octets.now }
{
    octets.len() < BESIDE_BODY || octets.len() < BESIDE_BODY + body_len(octets) as usize
}

// The datagram at a place behind the header, `None` where fewer octets are left than it has.
fn part_from(octets: &[u8], start: usize) -> Option<Part>
    requires inside { start ≤ length octets.now }
    requires short { length octets.now < 2 ^ 11 }
    ensures { result ≡ part_from octets.now start }
{
    let rest = &octets[start..];
    if is_cut(rest) {
        return None;
    }
    Some(Part {
        at: FIRST + start,
        head: head_at(rest),
    })
}

// The datagrams that stand in the octets within a frame's length.
fn read_parts(octets: &[u8]) -> Result<Frame, FrameFault>
    requires { length octets.now < 2 ^ 11 }
    ensures { result ≡ frame_of (parts_within (length octets.now) 16 octets.now) }
{
    let mut parts = ArrayVec::new();
    let mut start = 0;
    'datagrams: loop {
        let Some(part) = part_from(octets, start) else {
            return Err(FrameFault::DatagramCut { at: FIRST + start });
        };
        parts.push(part);
        start += BESIDE_BODY + part.head.len as usize;
        if !part.head.more {
            return Ok(Frame { parts });
        }
        if start == octets.len() {
            return Err(FrameFault::MoreButEnd);
        }
    }
}

// What the octets read as, by the reader's own rule.
fn read_plain(bytes: &[u8]) -> Result<Frame, FrameFault>
    ensures { result ≡ frame_read bytes.now }
{
    if bytes.len() < FIRST {
        return Err(FrameFault::Short);
    }
    if bytes[12] != 0x88 || bytes[13] != 0xA4 {
        return Err(FrameFault::NotEtherCat);
    }
    let word = u16_at(bytes, 14);
    if bits(word, 12, 4) != 1 {
        return Err(FrameFault::WrongType);
    }
    let size = bits(word, 0, 11) as usize;
    if bytes.len() - FIRST < size {
        return Err(FrameFault::LengthWord);
    }
    read_parts(&bytes[FIRST..][..size])
}

// The fault with which octets within a frame's length do not read, `None` of those that read.
fn walk(octets: &[u8]) -> Option<FrameFault>
    requires { length octets.now < 2 ^ 11 }
    ensures { FaultIs result (frame_of (parts_within (length octets.now) 16 octets.now)) }
{
    let mut start = 0;
    'datagrams: loop {
        let Some(part) = part_from(octets, start) else {
            return Some(FrameFault::DatagramCut { at: FIRST + start });
        };
        start += BESIDE_BODY + part.head.len as usize;
        if !part.head.more {
            return None;
        }
        if start == octets.len() {
            return Some(FrameFault::MoreButEnd);
        }
    }
}

// The same of a frame.
fn fault_plain(bytes: &[u8]) -> Option<FrameFault>
    ensures { FaultIs result (frame_read bytes.now) }
{
    if bytes.len() < FIRST {
        return Some(FrameFault::Short);
    }
    if bytes[12] != 0x88 || bytes[13] != 0xA4 {
        return Some(FrameFault::NotEtherCat);
    }
    let word = u16_at(bytes, 14);
    if bits(word, 12, 4) != 1 {
        return Some(FrameFault::WrongType);
    }
    let size = bits(word, 0, 11) as usize;
    if bytes.len() - FIRST < size {
        return Some(FrameFault::LengthWord);
    }
    walk(&bytes[FIRST..][..size])
}

/// The fault with which a frame does not read, `None` of one that reads. A frame that reads is walked by
/// [`first`] and [`next`], without a list of its datagrams.
pub fn fault(bytes: &[u8]) -> Option<FrameFault>
    ensures fault { IfSome result (λ fault. frame_read bytes.now ≡ Err fault) }
    ensures reads { IfNone result ((ds : List Datagram) × IsFrame bytes.now ds) }
{
    fault_plain(bytes)
}

// The head of the datagram at a place.
fn head_in(bytes: &[u8], at: usize) -> Head
    requires inside { at ≤ length bytes.now }
    requires whole { 12 + body_length (drop at bytes.now) ≤ length (drop at bytes.now) }
    ensures { result ≡ head_read (drop at bytes.now) }
{
    head_at(&bytes[at..])
}

/// The datagram at a place of a frame that reads.
pub fn part_at(bytes: &[u8], at: usize) -> Part
    requires { IsPart bytes.now (part_at at (drop at bytes.now)) }
    ensures { result ≡ part_at at (drop at bytes.now) }
{
    Part {
        at,
        head: head_in(bytes, at),
    }
}

/// The first datagram of a frame that reads.
pub fn first(bytes: &[u8]) -> Part
    requires { (ds : List Datagram) × IsFrame bytes.now ds }
    ensures first { (ds : List Datagram) → IsFrame bytes.now ds → Some result ≡ slice_get (parts_of 16 ds) 0 }
    ensures part { IsPart bytes.now result }
{
    Part {
        at: FIRST,
        head: head_in(bytes, FIRST),
    }
}

/// The datagram behind this one in a frame that reads, `None` where it is the last.
pub fn next(bytes: &[u8], part: &Part) -> Option<Part>
    requires { IsPart bytes.now part.now }
    ensures next { (front : List Datagram) (d : Datagram) (behind : List Datagram) → IsFrame bytes.now (front ++ d ∷ behind) → part.now.at ≡ 16 + length (text_of front) → part.now.head ≡ d.head → option_to_list result ≡ take 1 (parts_of (part.now.at + size_of d) behind) }
    ensures part { IfSome result (IsPart bytes.now) }
{
    if !part.head.more {
        return None;
    }
    let at = part.at + (BESIDE_BODY + part.head.len as usize);
    Some(Part {
        at,
        head: head_in(bytes, at),
    })
}

/// Reads a frame: its datagrams with their places, or the first fault (ETG.1000.4, 5.3 and 5.4).
/// The addresses, the reserved bits and the octets behind the last datagram are ignored.
pub fn read(bytes: &[u8]) -> Result<Frame, FrameFault>
    ensures found { IfOk result (λ frame. (ds : List Datagram) × IsFrame bytes.now ds × (frame.parts.items ≡ parts_of 16 ds)) }
    ensures only { (ds : List Datagram) → IsFrame bytes.now ds → result ≡ Ok (record { parts = record { items = parts_of 16 ds } }) }
    ensures exact { result ≡ frame_read bytes.now }
    ensures parts { IfOk result (λ frame. All (IsPart bytes.now) frame.parts.items) }
{
    read_plain(bytes)
}
