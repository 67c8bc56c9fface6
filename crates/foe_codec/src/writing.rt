ghost use Rattle.std.specs.Prelude.{◌≡◌, ◌≤◌, length};
ghost use Rattle.foe_codec.specs.Message.{IsFoe, IsSpellable, opcode_of, IsRanged, field_of, octets_of, foe_text};
ghost use Rattle.foe_codec.specs.View.{foe_seen, IsCapped};

use crate::message::Foe;
use crate::viewing::{FoeView, view_of};
use arrayvec::ArrayVec;
use ec_fields::refill_parts;

fn opcode(message: FoeView<'_>) -> u8
    ensures { result ≡ opcode_of (foe_seen message.entry) }
{
    match message {
        FoeView::Read { .. } => 1,
        FoeView::Write { .. } => 2,
        FoeView::Data { .. } => 3,
        FoeView::Ack { .. } => 4,
        FoeView::Error { .. } => 5,
        FoeView::Busy { .. } => 6,
    }
}

fn field(message: FoeView<'_>) -> u32
    ensures value { result ≡ field_of (foe_seen message.entry) }
    ensures ranged { IsRanged (foe_seen message.entry) }
{
    match message {
        FoeView::Read { pass, .. } | FoeView::Write { pass, .. } => pass,
        FoeView::Data { packet, .. } | FoeView::Ack { packet } => packet,
        FoeView::Error { code } => code,
        FoeView::Busy { done, entire } => done as u32 + 65536 * entire as u32,
    }
}

// The octets behind the field.
fn octets(message: FoeView<'_>) -> &[u8]
    requires { IsCapped message }
    ensures value { result.now ≡ octets_of (foe_seen message.entry) }
    ensures fits { length result.now ≤ 1474 }
{
    match message {
        FoeView::Read { name, .. } | FoeView::Write { name, .. } => name,
        FoeView::Data { bytes, .. } => bytes,
        FoeView::Ack { .. } | FoeView::Error { .. } | FoeView::Busy { .. } => &[],
    }
}

// The octets, and that the message's numbers are in their ranges.
fn write_plain(message: FoeView<'_>, body: &mut ArrayVec<u8, 1480>)
    requires { IsCapped message }
    ensures octets { body.new.items ≡ foe_text (foe_seen message.entry) }
    ensures ranged { IsRanged (foe_seen message.entry) }
{
    let [a, b, c, d] = field(message).to_le_bytes();
    refill_parts(body, &[opcode(message), 0, a, b, c, d], octets(message));
}

/// Writes a message as it stands somewhere as the body of an FoE mail, as [`write`] does.
pub fn write_view(message: FoeView<'_>, body: &mut ArrayVec<u8, 1480>)
    requires spelling { IsSpellable (foe_seen message) }
    requires capped { IsCapped message }
    ensures octets { body.new.items ≡ foe_text (foe_seen message.entry) }
    ensures spelled { IsFoe body.new.items (foe_seen message.entry) }
{
    write_plain(message, body);
}

/// Writes a message as the body of an FoE mail, in place of what it held. Error and busy texts are empty.
pub fn write(foe: &Foe, body: &mut ArrayVec<u8, 1480>)
    requires { IsSpellable foe.now }
    ensures octets { body.new.items ≡ foe_text foe.now }
    ensures spelled { IsFoe body.new.items foe.now }
{
    write_view(view_of(foe), body);
}
