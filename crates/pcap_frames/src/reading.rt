ghost use Rattle.std.specs.Prelude.{◌≡◌, ◌==◌, ◌&&◌, ◌+◌, ◌<◌, ◌≤◌, Bool, List, length, drop, IfOk};
ghost use Rattle.pcap_frames.specs.Capture.{Packet, IsCapture, places_of};
ghost use Rattle.pcap_frames.specs.Order.{number_in};
ghost use Rattle.pcap_frames.specs.Reading.{magic_in, packet_read, packets_within, capture_by, capture_read, UnlessNoMemory};

use crate::capture::{Capture, PacketAt, PcapFault, Stamp};
use crate::order::{Order, u16_in, u32_in};
use ec_fields::Rows;
use std::alloc::Global;

/// How many octets a capture has before its first packet.
const HEAD: usize = 24;

/// How many octets a packet has before its own.
const RECORD: usize = 16;

/// The most octets that a packet may say that it has.
const LONGEST: u32 = 262_144;

const MICROS: u32 = 0xa1b2_c3d4;

const NANOS: u32 = 0xa1b2_3c4d;

const ETHERNET: u32 = 1;

// The byte order and the resolution that the magic number stands for, `true` for nanoseconds.
fn magic(bytes: &[u8]) -> Option<(Order, bool)>
    requires { 4 ≤ length bytes.now }
    ensures { result ≡ magic_in bytes.now }
{
    let low = u32_in(Order::LowFirst, bytes, 0);
    let high = u32_in(Order::HighFirst, bytes, 0);
    if low == MICROS {
        Some((Order::LowFirst, false))
    } else if low == NANOS {
        Some((Order::LowFirst, true))
    } else if high == MICROS {
        Some((Order::HighFirst, false))
    } else if high == NANOS {
        Some((Order::HighFirst, true))
    } else {
        None
    }
}

// Whether the header says version 2.4.
fn is_version_2_4(order: Order, bytes: &[u8]) -> bool
    requires { 8 ≤ length bytes.now }
    ensures { result ≡ (number_in order 2 bytes.now 4 == 2 && number_in order 2 bytes.now 6 == 4) }
{
    u16_in(order, bytes, 4) == 2 && u16_in(order, bytes, 6) == 4
}

// The packet whose header begins the octets that are left, at place `at` of the file.
fn packet_read(order: Order, at: usize, rest: &[u8]) -> Result<PacketAt, PcapFault>
    requires { at + length rest.now < 9223372036854775808 }
    ensures { result ≡ packet_read order at rest.now }
{
    if rest.len() < RECORD {
        return Err(PcapFault::RecordCut { at });
    }
    let len = u32_in(order, rest, 8);
    if len > LONGEST {
        return Err(PcapFault::RecordTooLong { at });
    }
    if rest.len() - RECORD < len as usize {
        return Err(PcapFault::RecordCut { at });
    }
    Ok(PacketAt {
        stamp: Stamp {
            seconds: u32_in(order, rest, 0),
            part: u32_in(order, rest, 4),
        },
        from: at + RECORD,
        len: len as usize,
        original: u32_in(order, rest, 12),
    })
}

// The packet whose header stands at place `at`.
fn packet_from(order: Order, bytes: &[u8], at: usize) -> Result<PacketAt, PcapFault>
    requires { at ≤ length bytes.now }
    ensures { result ≡ packet_read order at (drop at bytes.now) }
{
    packet_read(order, at, &bytes[at..])
}

// The packets behind the header.
fn read_packets(alloc: Global, order: Order, bytes: &[u8]) -> Result<Rows<PacketAt>, PcapFault>
    requires { 24 ≤ length bytes.now }
    ensures { UnlessNoMemory result (result ≡ packets_within order (length bytes.now) 24 (drop 24 bytes.now)) }
{
    let mut packets = Rows::new(alloc);
    let mut at = HEAD;
    'packets: while at < bytes.len() {
        let packet = match packet_from(order, bytes, at) {
            Ok(packet) => packet,
            Err(fault) => return Err(fault),
        };
        at += RECORD + packet.len;
        if packets.push(packet).is_err() {
            return Err(PcapFault::NoMemory);
        }
    }
    Ok(packets)
}

// What the octets read as, by the reader's own rule.
fn read_plain(alloc: Global, bytes: &[u8]) -> Result<Capture, PcapFault>
    ensures { UnlessNoMemory result (result ≡ capture_read bytes.now) }
{
    if bytes.len() < HEAD {
        return Err(PcapFault::Short { at: bytes.len() });
    }
    let Some((order, nanos)) = magic(bytes) else {
        return Err(PcapFault::Magic);
    };
    if !is_version_2_4(order, bytes) {
        return Err(PcapFault::Version);
    }
    if u32_in(order, bytes, 20) != ETHERNET {
        return Err(PcapFault::LinkType);
    }
    match read_packets(alloc, order, bytes) {
        Ok(packets) => Ok(Capture { nanos, packets }),
        Err(fault) => Err(fault),
    }
}

/// Reads a capture in one pass over its packets' headers: their places, or the first fault.
pub fn read(alloc: Global, bytes: &[u8]) -> Result<Capture, PcapFault>
    ensures found { IfOk result (λ capture. (packets : List Packet) × IsCapture bytes.now capture.nanos packets × (capture.packets ≡ places_of 24 packets)) }
    ensures only { (nanos : Bool) (packets : List Packet) → IsCapture bytes.now nanos packets → UnlessNoMemory result (result ≡ Ok (record { nanos = nanos; packets = places_of 24 packets })) }
    ensures exact { UnlessNoMemory result (result ≡ capture_read bytes.now) }
{
    read_plain(alloc, bytes)
}
