ghost use Rattle.std.specs.Prelude.{◌≡◌, ◌≤◌, length, IfOk, Ok};
ghost use Rattle.foe_codec.specs.Message.{IsFoe, foe_read};
ghost use Rattle.foe_codec.specs.View.{foe_seen, IsCapped};

use crate::message::{Foe, FoeFault};
use crate::viewing::{FoeView, view};
use ec_fields::buffer_of;

// The message by itself.
fn message_of(message: FoeView<'_>) -> Foe
    requires { IsCapped message }
    ensures { result ≡ foe_seen message.entry }
{
    match message {
        FoeView::Read { pass, name } => Foe::Read {
            pass,
            name: buffer_of(name),
        },
        FoeView::Write { pass, name } => Foe::Write {
            pass,
            name: buffer_of(name),
        },
        FoeView::Data { packet, bytes } => Foe::Data {
            packet,
            bytes: buffer_of(bytes),
        },
        FoeView::Ack { packet } => Foe::Ack { packet },
        FoeView::Error { code } => Foe::Error { code },
        FoeView::Busy { done, entire } => Foe::Busy { done, entire },
    }
}

/// Reads the body of an FoE mail. The reserved octet, and the octets behind an acknowledgement, an error code or a busy answer, are ignored.
pub fn read(body: &[u8]) -> Result<Foe, FoeFault>
    requires { length body.now ≤ 1480 }
    ensures found { IfOk result (IsFoe body.now) }
    ensures only { (foe : Foe) → IsFoe body.now foe → result ≡ Ok foe }
    ensures exact { result ≡ foe_read body.now }
{
    match view(body) {
        Ok(found) => Ok(message_of(found)),
        Err(fault) => Err(fault),
    }
}
