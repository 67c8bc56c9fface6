ghost use Rattle.std.specs.Prelude.{◌≡◌, ◌≤◌};
ghost use Rattle.soe_codec.specs.Message.{IsSoe, IsSpellable, word_of, soe_text};
ghost use Rattle.soe_codec.specs.View.{soe_seen, IsCapped};

use crate::message::Soe;
use crate::viewing::{SoeView, view_of};
use arrayvec::ArrayVec;
use ec_fields::refill_parts;

const INCOMPLETE: u16 = 8;

const ERROR: u16 = 16;

// The word: opcode, the two marks, drive and element flags.
fn word_of(message: SoeView<'_>) -> u16
    requires { IsSpellable (soe_seen message) }
    ensures { result ≡ word_of (soe_seen message.entry) }
{
    let incomplete = if message.incomplete { INCOMPLETE } else { 0 };
    let error = if message.error { ERROR } else { 0 };
    message.opcode as u16
        + incomplete
        + error
        + 32 * message.drive as u16
        + 256 * message.elements as u16
}

// The octets, and that the message's numbers are in their ranges.
fn write_plain(message: SoeView<'_>, body: &mut ArrayVec<u8, 1480>)
    requires spelling { IsSpellable (soe_seen message) }
    requires capped { IsCapped message }
    ensures octets { body.new.items ≡ soe_text (soe_seen message.entry) }
    ensures in_range { word_of (soe_seen message.entry) ≤ 65535 }
    ensures field { (soe_seen message.entry).field ≤ 65535 }
    ensures flags { (soe_seen message.entry).elements ≤ 255 }
{
    let [a, b] = word_of(message).to_le_bytes();
    let [c, d] = message.field.to_le_bytes();
    refill_parts(body, &[a, b, c, d], message.bytes);
}

/// Writes a message as it stands somewhere as the body of an SoE mail, as [`write`] does.
pub fn write_view(message: SoeView<'_>, body: &mut ArrayVec<u8, 1480>)
    requires spelling { IsSpellable (soe_seen message) }
    requires capped { IsCapped message }
    ensures octets { body.new.items ≡ soe_text (soe_seen message.entry) }
    ensures spelled { IsSoe body.new.items (soe_seen message.entry) }
{
    write_plain(message, body);
}

/// Writes a message as the body of an SoE mail, in place of what it held.
pub fn write(soe: &Soe, body: &mut ArrayVec<u8, 1480>)
    requires { IsSpellable soe.now }
    ensures octets { body.new.items ≡ soe_text soe.now }
    ensures spelled { IsSoe body.new.items soe.now }
{
    write_view(view_of(soe), body);
}
