ghost use Rattle.std.specs.Prelude.{◌≡◌, ◌≤◌, ◌<◌, ◌+◌, ◌^◌, ◌∷◌, [], true, false, length, drop, Some, IfSome};
ghost use Rattle.byteorder.specs.Endian.{little_bytes};
ghost use Rattle.protocol_models.specs.of_soe_codec.Message.{IsSpellable, is_opcode, has_fragments, soe_text};
ghost use Rattle.protocol_models.specs.SoeMails.{message, refusal};
ghost use Rattle.soe_parts.specs.Parts.{subject_view, message_with, left_from, IsFirst};

use crate::subject::Subject;
use arrayvec::ArrayVec;
use soe_codec::{SoeView, write_view};

/// The octets of a mail in front of an element's: its header, the message's word and its field.
const HEADER: usize = 10;

// The octets from a place on.
fn behind(bytes: &[u8], at: usize) -> &[u8]
    requires { at ≤ length bytes.now }
    ensures { result.now ≡ drop at bytes.now }
{
    &bytes[at..]
}

// Writes a message about an element; the field is the IDN, or how many fragments follow.
fn put(
    opcode: u8,
    marks: (bool, bool),
    subject: Subject,
    field: u16,
    bytes: &[u8],
    body: &mut ArrayVec<u8, 1480>,
)
    requires spelled { IsSpellable (message_with opcode marks.0 marks.1 (subject_view subject) field bytes.now) }
    requires few { length bytes.now ≤ 1476 }
    ensures { body.new.items ≡ soe_text (message_with opcode marks.0 marks.1 (subject_view subject) field bytes.now) }
{
    let (incomplete, error) = marks;
    let message = SoeView {
        opcode,
        incomplete,
        error,
        drive: subject.drive,
        elements: subject.elements,
        field,
        bytes,
    };
    write_view(message, body);
}

/// Writes a message without octets: the request for an element, or the answer to a write.
pub fn write_message(opcode: u8, subject: Subject, body: &mut ArrayVec<u8, 1480>)
    requires opcode { is_opcode opcode ≡ true }
    requires drive { subject.drive < 2 ^ 3 }
    ensures text { body.new.items ≡ soe_text (message opcode false (subject_view subject) subject.idn []) }
    ensures short { length body.new.items ≡ 4 }
{
    put(opcode, (false, false), subject, subject.idn, &[], body);
}

/// Writes the refusal of a request, by an SoE error code; the answer has this opcode.
pub fn write_refusal(opcode: u8, subject: Subject, code: u16, body: &mut ArrayVec<u8, 1480>)
    requires opcode { is_opcode opcode ≡ true }
    requires drive { subject.drive < 2 ^ 3 }
    ensures text { body.new.items ≡ soe_text (refusal opcode (subject_view subject) code) }
    ensures short { length body.new.items ≡ 6 }
{
    put(
        opcode,
        (false, true),
        subject,
        subject.idn,
        &code.to_le_bytes(),
        body,
    );
}

/// Writes the next fragment of an element's octets, through a mailbox of this length: those from `from` on that it takes. `Some` is where the
/// octets of the fragment behind it begin; `None` where this one is the last.
pub fn write_part(
    opcode: u8,
    subject: Subject,
    room: u16,
    octets: &[u8],
    from: u32,
    body: &mut ArrayVec<u8, 1480>,
) -> Option<u32>
    requires kind { has_fragments opcode ≡ true }
    requires drive { subject.drive < 2 ^ 3 }
    requires least { 64 ≤ room }
    requires most { room ≤ 1486 }
    requires few { length octets.now ≤ 16384 }
    requires inside { from ≤ length octets.now }
    ensures first { IsFirst (left_from room opcode (subject_view subject) octets.now (Some from)) body.new.items (left_from room opcode (subject_view subject) octets.now result) }
    ensures within { IfSome result (λ next. next ≤ length octets.now) }
    ensures short { length body.new.items + 6 ≤ room }
{
    let rest = behind(octets, from as usize);
    let part = room as usize - HEADER;
    if rest.len() <= part {
        put(opcode, (false, false), subject, subject.idn, rest, body);
        return None;
    }
    let follow = ((rest.len() - part + part - 1) / part) as u16;
    put(opcode, (true, false), subject, follow, &rest[..part], body);
    Some(from + part as u32)
}
