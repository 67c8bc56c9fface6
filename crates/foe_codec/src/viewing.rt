ghost use Rattle.std.specs.Prelude.{◌≡◌, ◌≤◌, length, IfOk, Ok};
ghost use Rattle.foe_codec.specs.Message.{IsFoe, is_name, message_in, foe_read};
ghost use Rattle.foe_codec.specs.View.{foe_seen, seen, IsCapped};

use crate::message::{Foe, FoeFault};
use ec_fields::u32_at;

/// The octets of opcode, reserved octet and field.
const HEADER: usize = 6;

/// The most octets of a name.
const LONGEST: usize = 32;

/// A message as it stands in a body: its variants are those of [`Foe`], and its octets are where they lie.
#[derive(Clone, Copy)]
pub enum FoeView<'a> {
    Read { pass: u32, name: &'a [u8] },
    Write { pass: u32, name: &'a [u8] },
    Data { packet: u32, bytes: &'a [u8] },
    Ack { packet: u32 },
    Error { code: u32 },
    Busy { done: u16, entire: u16 },
}

fn is_name(octets: &[u8]) -> bool
    ensures { result ≡ is_name octets.now }
{
    1 <= octets.len() && octets.len() <= LONGEST
}

// The message of an opcode, a field and the octets behind it.
fn message_in(opcode: u8, field: u32, rest: &[u8]) -> Result<FoeView<'_>, FoeFault>
    requires { length rest.now ≤ 1474 }
    ensures value { seen result ≡ message_in opcode field rest.now }
    ensures capped { IfOk result IsCapped }
{
    match opcode {
        1 | 2 if !is_name(rest) => Err(FoeFault::Name),
        1 => Ok(FoeView::Read {
            pass: field,
            name: rest,
        }),
        2 => Ok(FoeView::Write {
            pass: field,
            name: rest,
        }),
        3 => Ok(FoeView::Data {
            packet: field,
            bytes: rest,
        }),
        4 => Ok(FoeView::Ack { packet: field }),
        5 => Ok(FoeView::Error { code: field }),
        6 => Ok(FoeView::Busy {
            done: (field % 65536) as u16,
            entire: (field / 65536) as u16,
        }),
        _ => Err(FoeFault::Opcode),
    }
}

// What the body reads as, by the reader's own rule.
fn view_plain(body: &[u8]) -> Result<FoeView<'_>, FoeFault>
    requires { length body.now ≤ 1480 }
    ensures value { seen result ≡ foe_read body.now }
    ensures capped { IfOk result IsCapped }
{
    if body.len() < HEADER {
        return Err(FoeFault::Short);
    }
    message_in(body[0], u32_at(body, 2), &body[HEADER..])
}

/// The message in the body of an FoE mail as it stands there. The reserved octet, and the octets behind
/// an acknowledgement, an error code or a busy answer, are ignored. The faults come in the order of
/// [`FoeFault`]. Nothing is copied.
pub fn view(body: &[u8]) -> Result<FoeView<'_>, FoeFault>
    requires { length body.now ≤ 1480 }
    ensures found { IfOk result (λ v. IsFoe body.now (foe_seen v)) }
    ensures only { (foe : Foe) → IsFoe body.now foe → seen result ≡ Ok foe }
    ensures exact { seen result ≡ foe_read body.now }
    ensures capped { IfOk result IsCapped }
{
    view_plain(body)
}

/// A message as a view of itself.
pub fn view_of(foe: &Foe) -> FoeView<'_>
    ensures value { foe_seen result ≡ foe.now }
    ensures capped { IsCapped result }
{
    match foe {
        Foe::Read { pass, name } => FoeView::Read {
            pass: *pass,
            name: name.as_slice(),
        },
        Foe::Write { pass, name } => FoeView::Write {
            pass: *pass,
            name: name.as_slice(),
        },
        Foe::Data { packet, bytes } => FoeView::Data {
            packet: *packet,
            bytes: bytes.as_slice(),
        },
        Foe::Ack { packet } => FoeView::Ack { packet: *packet },
        Foe::Error { code } => FoeView::Error { code: *code },
        Foe::Busy { done, entire } => FoeView::Busy {
            done: *done,
            entire: *entire,
        },
    }
}
