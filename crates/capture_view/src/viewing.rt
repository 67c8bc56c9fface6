ghost use Rattle.std.specs.Prelude.{◌≡◌, ◌≤◌, ◌+◌, List, length, All, Ok, Err};
ghost use Rattle.datagrams.specs.Datagram.{Datagram};
ghost use Rattle.datagrams.specs.Frame.{IsFrame, IsPart, frame_read};
ghost use Rattle.ec_outside.specs.Faults.{Rose};
ghost use Rattle.ec_outside.specs.declared.sink.SinkErr.TheVariants as errors;
ghost use Rattle.mailbox_mail.specs.Mail.{mail_read};
ghost use Rattle.pcap_frames.specs.Reading.{capture_read};
ghost use Rattle.capture_view.specs.View.{Tells, Told, IsWithin, mail_lines, is_for_mail, moves_mail, body_of, datagram_lines, frame_lines, octets_of, packet_lines, packets_lines, view_text};

use crate::bodies::body_line;
use crate::lines::{datagram_line, mail_line, no_frame_line, packet_line, packets_line};
use datagrams::register::{IN_AREA, OUT_AREA};
use datagrams::{Command, Head, Part, fault, first, next};
use ec_outside::{Sink, SinkErr};
use pcap_frames::{Capture, PacketAt};
use std::alloc::{AllocError, Global};

/// How many octets a datagram has before its body.
const FRONT: usize = 10;

fn no_memory(_error: AllocError) -> SinkErr
    ensures { result ≡ errors.NoMemory }
{
    SinkErr::NoMemory
}

// Puts a line, unless it is empty.
fn put_line<O: Sink>(line: &str, sink: &mut O) -> Result<(), SinkErr>
    ensures { Told O.written O.sink_faults sink.old sink.new line.now result }
{
    if line.is_empty() {
        return Ok(());
    }
    sink.put(line.as_bytes())
}

// Puts the lines of the mail that these octets begin with.
fn put_mail<O: Sink>(octets: &[u8], line: &mut String, sink: &mut O) -> Result<(), SinkErr>
    ensures { Told O.written O.sink_faults sink.old sink.new (mail_lines (mail_read octets.now)) result }
{
    let Ok(mail) = mailbox_mail::view(octets) else {
        return Ok(());
    };
    mail_line(line, mail).map_err(no_memory)?;
    put_line(line.as_str(), sink)?;
    body_line(line, mail.kind, mail.body).map_err(no_memory)?;
    put_line(line.as_str(), sink)
}

fn is_for_mail(command: Command, ado: u16) -> bool
    ensures { result ≡ is_for_mail command ado }
{
    match command {
        Command::Fpwr => ado == OUT_AREA,
        Command::Fprd => ado == IN_AREA,
        _ => false,
    }
}

fn moves_mail(head: &Head) -> bool
    ensures { result ≡ moves_mail head.now }
{
    head.counter != 0 && is_for_mail(head.command, head.ado)
}

/// The octets of a datagram's body in its frame.
pub fn body_of<'a>(frame: &'a [u8], part: &Part) -> &'a [u8]
    requires { IsPart frame.now part.now }
    ensures { result.now ≡ body_of frame.now part.now }
{
    let from = part.at + FRONT;
    &frame[from..][..part.head.len as usize]
}

// Puts the lines of a datagram.
fn put_datagram<O: Sink>(
    frame: &[u8],
    part: &Part,
    line: &mut String,
    sink: &mut O,
) -> Result<(), SinkErr>
    requires { IsPart frame.now part.now }
    ensures { Told O.written O.sink_faults sink.old sink.new (datagram_lines frame.now part.now) result }
{
    datagram_line(line, &part.head).map_err(no_memory)?;
    put_line(line.as_str(), sink)?;
    if moves_mail(&part.head) {
        put_mail(body_of(frame, part), line, sink)
    } else {
        Ok(())
    }
}

// Puts the lines of a frame that reads, datagram by datagram.
fn put_datagrams<O: Sink>(frame: &[u8], line: &mut String, sink: &mut O) -> Result<(), SinkErr>
    requires { (ds : List Datagram) × IsFrame frame.now ds }
    ensures { Told O.written O.sink_faults sink.old sink.new (frame_lines frame.now (frame_read frame.now)) result }
{
    let mut part = first(frame);
    'datagrams: loop {
        put_datagram(frame, &part, line, sink)?;
        let Some(behind) = next(frame, &part) else {
            return Ok(());
        };
        part = behind;
    }
}

// Puts the lines of a packet's octets.
fn put_frame<O: Sink>(frame: &[u8], line: &mut String, sink: &mut O) -> Result<(), SinkErr>
    ensures { Told O.written O.sink_faults sink.old sink.new (frame_lines frame.now (frame_read frame.now)) result }
{
    let Some(fault) = fault(frame) else {
        return put_datagrams(frame, line, sink);
    };
    no_frame_line(line, fault).map_err(no_memory)?;
    put_line(line.as_str(), sink)
}

/// The octets of a packet in its file.
pub fn octets_of<'a>(file: &'a [u8], packet: &PacketAt) -> &'a [u8]
    requires { packet.now.from + packet.now.len ≤ length file.now }
    ensures { result.now ≡ octets_of file.now packet.now }
{
    &file[packet.from..][..packet.len]
}

// Puts the lines of a packet.
fn put_packet<O: Sink>(
    file: &[u8],
    nanos: bool,
    number: usize,
    packet: &PacketAt,
    line: &mut String,
    sink: &mut O,
) -> Result<(), SinkErr>
    requires { packet.now.from + packet.now.len ≤ length file.now }
    ensures { Told O.written O.sink_faults sink.old sink.new (packet_lines file.now nanos number packet.now) result }
{
    packet_line(line, nanos, number, packet).map_err(no_memory)?;
    put_line(line.as_str(), sink)?;
    put_frame(octets_of(file, packet), line, sink)
}

// Puts the lines of all packets.
fn put_packets<O: Sink>(
    file: &[u8],
    nanos: bool,
    packets: &[PacketAt],
    line: &mut String,
    sink: &mut O,
) -> Result<(), SinkErr>
    requires { All (IsWithin file.now) packets.now }
    ensures { Told O.written O.sink_faults sink.old sink.new (packets_lines file.now nanos 0 packets.now) result }
{
    for (number, packet) in packets.iter().enumerate() {
        put_packet(file, nanos, number, packet, line, sink)?;
    }
    Ok(())
}

// Puts the whole text.
fn put_view<O: Sink>(
    bytes: &[u8],
    capture: &Capture,
    line: &mut String,
    sink: &mut O,
) -> Result<(), SinkErr>
    requires { All (IsWithin bytes.now) capture.now.packets }
    ensures { Told O.written O.sink_faults sink.old sink.new (view_text bytes.now capture.now) result }
{
    let packets = capture.packets.as_slice();
    put_packets(bytes, capture.nanos, packets, line, sink)?;
    packets_line(line, packets.len()).map_err(no_memory)?;
    put_line(line.as_str(), sink)
}

/// Puts the decoding text of a capture into a sink, a line at a time: a line for each packet, and in it
/// one for each datagram, two for a mail that a datagram moved, or one that says why the packet is no
/// frame of datagrams; last how many packets there are. `capture` is what [`pcap_frames::read`] answers
/// for `bytes`.
///
/// After an error the sink took a prefix of the text. `Failed` comes only where the sink's count of
/// faults rose in this call, `NoMemory` where the sink or a line wanted memory.
pub fn view<O: Sink>(
    alloc: Global,
    bytes: &[u8],
    capture: &Capture,
    sink: &mut O,
) -> Result<(), SinkErr>
    requires { capture_read bytes.now ≡ Ok capture.now }
    ensures text { Tells (O.written sink.old) (O.written sink.new) (view_text bytes.now capture.now) result }
    ensures later { O.sink_faults sink.old ≤ O.sink_faults sink.new }
    ensures cause { result ≡ Err errors.Failed → Rose (O.sink_faults sink.old) (O.sink_faults sink.new) }
{
    let mut line = String::new(alloc);
    put_view(bytes, capture, &mut line, sink)
}
