ghost use Rattle.std.specs.Prelude.{◌≡◌, ◌≤◌, length, IfOk, Ok};
ghost use Rattle.soe_codec.specs.Message.{IsSoe, IsSpellable, is_opcode, has_fragments, message_in, soe_read};
ghost use Rattle.soe_codec.specs.View.{soe_seen, seen, IsCapped};

use crate::message::{READ_ANSWER, Soe, SoeFault, WRITE, WRITE_ANSWER};
use ec_fields::{bits, u16_at};

/// The octets of the word and the IDN.
const HEADER: usize = 4;

/// A message as it stands in a body: its fields are those of [`Soe`], and its octets are where they lie.
#[derive(Clone, Copy)]
pub struct SoeView<'a> {
    pub opcode: u8,
    pub incomplete: bool,
    pub error: bool,
    pub drive: u8,
    pub elements: u8,
    pub field: u16,
    pub bytes: &'a [u8],
}

// Whether a number is one of the opcodes.
fn is_opcode(opcode: u16) -> bool
    ensures { result ≡ is_opcode opcode }
{
    1 <= opcode && opcode <= WRITE_ANSWER as u16
}

// Whether messages of this opcode may come in fragments.
fn has_fragments(opcode: u16) -> bool
    ensures { result ≡ has_fragments opcode }
{
    opcode == READ_ANSWER as u16 || opcode == WRITE as u16
}

// The message of a word, a field and the octets behind them.
fn message_in(word: u16, field: u16, rest: &[u8]) -> Result<SoeView<'_>, SoeFault>
    requires { length rest.now ≤ 1476 }
    ensures value { seen result ≡ message_in word field rest.now }
    ensures capped { IfOk result IsCapped }
{
    let opcode = bits(word, 0, 3);
    let incomplete = bits(word, 3, 1) == 1;
    if !is_opcode(opcode) {
        return Err(SoeFault::Opcode);
    }
    if incomplete && !has_fragments(opcode) {
        return Err(SoeFault::Incomplete);
    }
    Ok(SoeView {
        opcode: opcode as u8,
        incomplete,
        error: bits(word, 4, 1) == 1,
        drive: bits(word, 5, 3) as u8,
        elements: bits(word, 8, 8) as u8,
        field,
        bytes: rest,
    })
}

// What the body reads as, by the reader's own rule.
fn view_plain(body: &[u8]) -> Result<SoeView<'_>, SoeFault>
    requires { length body.now ≤ 1480 }
    ensures value { seen result ≡ soe_read body.now }
    ensures capped { IfOk result IsCapped }
{
    if body.len() < HEADER {
        return Err(SoeFault::Short);
    }
    message_in(u16_at(body, 0), u16_at(body, 2), &body[HEADER..])
}

/// The message in the body of an SoE mail as it stands there. Each message has one spelling, so nothing
/// is ignored. The faults come in the order of [`SoeFault`]. Nothing is copied.
pub fn view(body: &[u8]) -> Result<SoeView<'_>, SoeFault>
    requires { length body.now ≤ 1480 }
    ensures found { IfOk result (λ v. IsSoe body.now (soe_seen v)) }
    ensures only { (soe : Soe) → IsSoe body.now soe → seen result ≡ Ok soe }
    ensures exact { seen result ≡ soe_read body.now }
    ensures sound { IfOk result (λ v. IsSpellable (soe_seen v)) }
    ensures capped { IfOk result IsCapped }
{
    view_plain(body)
}

/// A message as a view of itself.
pub fn view_of(soe: &Soe) -> SoeView<'_>
    ensures value { soe_seen result ≡ soe.now }
    ensures capped { IsCapped result }
{
    SoeView {
        opcode: soe.opcode,
        incomplete: soe.incomplete,
        error: soe.error,
        drive: soe.drive,
        elements: soe.elements,
        field: soe.field,
        bytes: soe.bytes.as_slice(),
    }
}
