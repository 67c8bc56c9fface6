ghost use Rattle.std.specs.Prelude.{◌≡◌, ◌+◌, ◌*◌, ◌≤◌, [], ◌∷◌, ◌++◌, length, replicate, take};
ghost use Rattle.byteorder.specs.Endian.{little_bytes};
ghost use Rattle.coe_codec.specs.Coe.{IsCoe};
ghost use Rattle.coe_codec.specs.View.{coe_seen, IsCapped};
ghost use Rattle.coe_codec.specs.Writing.{HasSpelling, IsRanged, IsFew, coe_text, head_of, part_of, padding_of, target, opcode_head, command_of_segment, command_of_expedited};

use crate::fields::number;
use crate::message::Coe;
use crate::viewing::{CoeView, view_of};
use arrayvec::ArrayVec;
use ec_fields::{append, buffer_of, refill_parts};

type Head = ArrayVec<u8, 10>;

// An SDO form that names an entry.
fn target_head(service: u8, command: u8, index: u16, sub: u8) -> Head
    requires { service ≤ 15 }
    ensures { result.items ≡ target service command index sub }
{
    let [low, high] = index.to_le_bytes();
    buffer_of(&[0, 16 * service, command, low, high, sub])
}

// The same with a number of four octets behind.
fn numbered_head(service: u8, command: u8, index: u16, sub: u8, field: u32) -> Head
    requires { service ≤ 15 }
    ensures { result.items ≡ target service command index sub ++ little_bytes 4 field }
{
    let [low, high] = index.to_le_bytes();
    let [a, b, c, d] = field.to_le_bytes();
    buffer_of(&[0, 16 * service, command, low, high, sub, a, b, c, d])
}

// A segment, or a segment's answer or request.
fn segment_head(service: u8, command: u8) -> Head
    requires { service ≤ 15 }
    ensures { result.items ≡ 0 ∷ 16 * service ∷ command ∷ [] }
{
    buffer_of(&[0, 16 * service, command])
}

// A part of an information answer.
fn part_head(opcode: u8, left: u16) -> Head
    ensures { result.items ≡ opcode_head opcode left }
{
    let [low, high] = left.to_le_bytes();
    buffer_of(&[0, 128, opcode, 0, low, high])
}

// An information request with an index or a kind.
fn word_head(opcode: u8, word: u16) -> Head
    ensures { result.items ≡ opcode_head opcode 0 ++ little_bytes 2 word }
{
    let [low, high] = word.to_le_bytes();
    buffer_of(&[0, 128, opcode, 0, 0, 0, low, high])
}

// An information request for an entry.
fn entry_head(index: u16, sub: u8, info: u8) -> Head
    ensures { result.items ≡ opcode_head 5 0 ++ (little_bytes 2 index ++ sub ∷ info ∷ []) }
{
    let [low, high] = index.to_le_bytes();
    buffer_of(&[0, 128, 5, 0, 0, 0, low, high, sub, info])
}

// An information error.
fn code_head(code: u32) -> Head
    ensures { result.items ≡ opcode_head 7 0 ++ little_bytes 4 code }
{
    let [a, b, c, d] = code.to_le_bytes();
    buffer_of(&[0, 128, 7, 0, 0, 0, a, b, c, d])
}

fn segment_command(toggle: bool, last: bool, bytes: &[u8]) -> u8
    ensures { result ≡ command_of_segment toggle last bytes.now }
{
    let unused = 7usize.saturating_sub(bytes.len());
    number(last) + 2 * unused as u8 + 16 * number(toggle)
}

fn expedited_command(specifier: u8, bytes: &[u8]) -> u8
    requires specifier { specifier ≤ 2 }
    requires short { length bytes.now ≤ 4 }
    ensures command { result ≡ command_of_expedited specifier bytes.now }
    ensures small { result ≤ 32 * specifier + 19 }
{
    32 * specifier + 3 + 4 * (4 - bytes.len()) as u8
}

fn head(message: CoeView<'_>) -> Head
    requires spelling { HasSpelling (coe_seen message) }
    requires capped { IsCapped message }
    ensures head { result.items ≡ head_of (coe_seen message.entry) }
    ensures ranged { IsRanged (coe_seen message.entry) }
    ensures few { IsFew (coe_seen message.entry) }
{
    match message {
        CoeView::Emergency { octets: _ } => buffer_of(&[0, 16]),
        CoeView::Expedited {
            index,
            sub,
            all,
            bytes,
        } => {
            let command = expedited_command(1, bytes) + 16 * number(all);
            target_head(2, command, index, sub)
        }
        CoeView::First {
            index,
            sub,
            all,
            size,
            bytes: _,
        } => { numbered_head(2, 33 + 16 * number(all), index, sub, size) }
        CoeView::Upload { index, sub, all } => target_head(2, 64 + 16 * number(all), index, sub),
        CoeView::DownloadAnswer { index, sub } => target_head(3, 96, index, sub),
        CoeView::ExpeditedAnswer { index, sub, bytes } => {
            target_head(3, expedited_command(2, bytes), index, sub)
        }
        CoeView::FirstAnswer {
            index,
            sub,
            size,
            bytes: _,
        } => { numbered_head(3, 65, index, sub, size) }
        CoeView::Segment {
            toggle,
            last,
            bytes,
        } => { segment_head(2, segment_command(toggle, last, bytes)) }
        CoeView::SegmentAnswer { toggle } => segment_head(3, 32 + 16 * number(toggle)),
        CoeView::UploadSegment { toggle } => segment_head(2, 96 + 16 * number(toggle)),
        CoeView::UploadSegmentAnswer {
            toggle,
            last,
            bytes,
        } => { segment_head(3, segment_command(toggle, last, bytes)) }
        CoeView::Abort { index, sub, code } => numbered_head(2, 128, index, sub, code),
        CoeView::ListRequest { kind } => word_head(1, kind),
        CoeView::ObjectRequest { index } => word_head(3, index),
        CoeView::EntryRequest { index, sub, info } => entry_head(index, sub, info),
        CoeView::Information {
            opcode,
            incomplete,
            left,
            bytes: _,
        } => { part_head(opcode + 128 * number(incomplete), left) }
        CoeView::InformationError { code } => code_head(code),
    }
}

fn part(message: CoeView<'_>) -> &[u8]
    requires { IsCapped message }
    ensures part { result.now ≡ part_of (coe_seen message.entry) }
    ensures fits { length (head_of (coe_seen message.entry)) + length result.now + padding_of (coe_seen message.entry) ≤ 1480 }
{
    match message {
        CoeView::Emergency { octets } => octets,
        CoeView::Expedited {
            index: _,
            sub: _,
            all: _,
            bytes,
        } => bytes,
        CoeView::ExpeditedAnswer {
            index: _,
            sub: _,
            bytes,
        } => bytes,
        CoeView::First {
            index: _,
            sub: _,
            all: _,
            size: _,
            bytes,
        } => bytes,
        CoeView::FirstAnswer {
            index: _,
            sub: _,
            size: _,
            bytes,
        } => bytes,
        CoeView::Segment {
            toggle: _,
            last: _,
            bytes,
        } => bytes,
        CoeView::UploadSegmentAnswer {
            toggle: _,
            last: _,
            bytes,
        } => bytes,
        CoeView::Information {
            opcode: _,
            incomplete: _,
            left: _,
            bytes,
        } => bytes,
        CoeView::Upload {
            index: _,
            sub: _,
            all: _,
        }
        | CoeView::DownloadAnswer { index: _, sub: _ }
        | CoeView::SegmentAnswer { toggle: _ }
        | CoeView::UploadSegment { toggle: _ }
        | CoeView::Abort {
            index: _,
            sub: _,
            code: _,
        }
        | CoeView::ListRequest { kind: _ }
        | CoeView::ObjectRequest { index: _ }
        | CoeView::EntryRequest {
            index: _,
            sub: _,
            info: _,
        }
        | CoeView::InformationError { code: _ } => &[],
    }
}

// How many unused octets follow.
fn padding(message: CoeView<'_>) -> usize
    requires { IsCapped message }
    ensures unused { result ≡ padding_of (coe_seen message.entry) }
    ensures within { padding_of (coe_seen message.entry) ≤ 7 }
{
    match message {
        CoeView::Expedited {
            index: _,
            sub: _,
            all: _,
            bytes,
        } => 4 - bytes.len(),
        CoeView::ExpeditedAnswer {
            index: _,
            sub: _,
            bytes,
        } => 4 - bytes.len(),
        CoeView::Segment {
            toggle: _,
            last: _,
            bytes,
        } => 7usize.saturating_sub(bytes.len()),
        CoeView::UploadSegmentAnswer {
            toggle: _,
            last: _,
            bytes,
        } => { 7usize.saturating_sub(bytes.len()) }
        CoeView::Upload {
            index: _,
            sub: _,
            all: _,
        }
        | CoeView::DownloadAnswer { index: _, sub: _ } => 4,
        CoeView::SegmentAnswer { toggle: _ } | CoeView::UploadSegment { toggle: _ } => 7,
        CoeView::Emergency { octets: _ }
        | CoeView::First {
            index: _,
            sub: _,
            all: _,
            size: _,
            bytes: _,
        }
        | CoeView::FirstAnswer {
            index: _,
            sub: _,
            size: _,
            bytes: _,
        }
        | CoeView::Information {
            opcode: _,
            incomplete: _,
            left: _,
            bytes: _,
        }
        | CoeView::Abort {
            index: _,
            sub: _,
            code: _,
        }
        | CoeView::ListRequest { kind: _ }
        | CoeView::ObjectRequest { index: _ }
        | CoeView::EntryRequest {
            index: _,
            sub: _,
            info: _,
        }
        | CoeView::InformationError { code: _ } => 0,
    }
}

/// Writes the one spelling of a message as it stands somewhere in place of a body's contents, as [`write`] does.
pub fn write_view(message: CoeView<'_>, body: &mut ArrayVec<u8, 1480>)
    requires spelling { HasSpelling (coe_seen message) }
    requires capped { IsCapped message }
    ensures octets { body.new.items ≡ coe_text (coe_seen message.entry) }
    ensures spelled { IsCoe body.new.items (coe_seen message.entry) }
{
    const ZEROS: [u8; 7] = [0; 7];
    let head = head(message);
    refill_parts(body, head.as_slice(), part(message));
    append(body, &ZEROS[..padding(message)]);
}

/// Writes the message's one spelling in place of a body's contents: reserved bits and unused octets
/// are 0, an abort is written as a request, and a segment of fewer than 7 octets is padded.
pub fn write(message: &Coe, body: &mut ArrayVec<u8, 1480>)
    requires { HasSpelling message.now }
    ensures octets { body.new.items ≡ coe_text message.now }
    ensures spelled { IsCoe body.new.items message.now }
{
    write_view(view_of(message), body);
}
