ghost use Rattle.std.specs.Prelude.{◌≡◌, ◌+◌, ◌<◌, ◌≤◌, List, length, drop, IfOk};
ghost use Rattle.capture_records.specs.Grammar.{Record, AreRead, AreRecords, packets_of, records_text};
ghost use Rattle.capture_records.specs.declared.packet.FileEnd.TheVariants.{Whole};
ghost use Rattle.capture_records.specs.Records.{form_by, form_in, record_read, records_read};

use crate::packet::{FileEnd, PacketAt};
use capture_blocks::{Order, u32_in};
use ec_fields::{NoMemory, Rows};
use std::alloc::Global;

/// The most octets that a packet may say that it has.
pub const LONGEST: u32 = 262_144;

/// What the magic number of a pcap file stands for: its byte order, how many nanoseconds the part of a
/// second counts, and how many octets a packet has before its own.
#[derive(Clone, Copy)]
pub struct Form {
    pub order: Order,
    pub unit: u32,
    pub head: usize,
}

/// The packets of a pcap file, and its end.
#[derive(Drop)]
pub struct Records {
    pub packets: Rows<PacketAt>,
    pub end: FileEnd,
}

// The form of a magic number in this byte order.
fn form_of(order: Order, magic: u32) -> Option<Form>
    ensures { result ≡ form_by order magic }
{
    let (unit, head) = match magic {
        0xa1b2_c3d4 => (1000, 16),
        0xa1b2_3c4d => (1, 16),
        0xa1b2_cd34 => (1000, 24),
        _ => return None,
    };
    Some(Form { order, unit, head })
}

/// The form of a pcap file by its magic number, `None` where that is no pcap file's: microseconds,
/// nanoseconds, or microseconds with 8 more octets before a packet's own, in either byte order.
pub fn read_form(bytes: &[u8]) -> Option<Form>
    requires { 4 ≤ length bytes.now }
    ensures { result ≡ form_in bytes.now }
{
    match form_of(Order::LowFirst, u32_in(Order::LowFirst, bytes, 0)) {
        Some(form) => Some(form),
        None => form_of(Order::HighFirst, u32_in(Order::HighFirst, bytes, 0)),
    }
}

// The packet whose header begins the octets that are left, at place `at` of the file, or the file's end.
fn record_read(form: Form, at: usize, rest: &[u8]) -> Result<PacketAt, FileEnd>
    requires head { 16 ≤ form.head }
    requires small { at + length rest.now < 9223372036854775808 }
    ensures value { result ≡ record_read form at rest.now }
    ensures inside { IfOk result (λ p. form.head + p.len ≤ length rest.now) }
{
    if rest.is_empty() {
        return Err(FileEnd::Whole);
    }
    if rest.len() < form.head {
        return Err(FileEnd::Cut { at });
    }
    let len = u32_in(form.order, rest, 8);
    if len > LONGEST {
        return Err(FileEnd::Damaged { at });
    }
    if rest.len() - form.head < len as usize {
        return Err(FileEnd::Cut { at });
    }
    let seconds = u32_in(form.order, rest, 0) as u128;
    let part = u32_in(form.order, rest, 4) as u128;
    Ok(PacketAt {
        link: 1,
        time: seconds * 1_000_000_000 + part * form.unit as u128,
        from: at + form.head,
        len: len as usize,
        original: u32_in(form.order, rest, 12),
    })
}

// The packet whose header stands at place `at`, or the file's end.
fn record_from(form: Form, bytes: &[u8], at: usize) -> Result<PacketAt, FileEnd>
    requires head { 16 ≤ form.head }
    requires inside { at ≤ length bytes.now }
    ensures value { result ≡ record_read form at (drop at bytes.now) }
    ensures inside { IfOk result (λ p. at + (form.head + p.len) ≤ length bytes.now) }
{
    record_read(form, at, &bytes[at..])
}

// The packets from place `begin` on, by the reader's own rule.
fn read_plain(alloc: Global, form: Form, bytes: &[u8], begin: usize) -> Result<Records, NoMemory>
    requires head { 16 ≤ form.head }
    requires inside { begin ≤ length bytes.now }
    ensures { IfOk result (λ records. records ≡ records_read form begin (drop begin bytes.now)) }
{
    let mut packets = Rows::new(alloc);
    let mut at = begin;
    'packets: loop {
        let packet = match record_from(form, bytes, at) {
            Ok(packet) => packet,
            Err(end) => return Ok(Records { packets, end }),
        };
        at += form.head + packet.len;
        packets.add(packet)?;
    }
}

/// Reads the packets of a pcap file of this form from place `begin` on, in one pass over their headers, to the
/// file's end or the first fault.
pub fn read_records(
    alloc: Global,
    form: Form,
    bytes: &[u8],
    begin: usize,
) -> Result<Records, NoMemory>
    requires head { 16 ≤ form.head }
    requires inside { begin ≤ length bytes.now }
    ensures found { IfOk result (AreRead form begin (drop begin bytes.now)) }
    ensures only { (rs : List Record) → AreRecords form rs → drop begin bytes.now ≡ records_text form rs → IfOk result (λ found. found ≡ record { packets = packets_of form begin rs; end = Whole }) }
    ensures exact { IfOk result (λ records. records ≡ records_read form begin (drop begin bytes.now)) }
{
    read_plain(alloc, form, bytes, begin)
}
