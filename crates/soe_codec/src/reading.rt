ghost use Rattle.std.specs.Prelude.{◌≡◌, ◌≤◌, length, IfOk, Ok};
ghost use Rattle.soe_codec.specs.Message.{IsSoe, IsSpellable, soe_read};
ghost use Rattle.soe_codec.specs.View.{soe_seen, IsCapped};

use crate::message::{Soe, SoeFault};
use crate::viewing::{SoeView, view};
use ec_fields::buffer_of;

// The message by itself.
fn message_of(message: SoeView<'_>) -> Soe
    requires { IsCapped message }
    ensures { result ≡ soe_seen message.entry }
{
    Soe {
        opcode: message.opcode,
        incomplete: message.incomplete,
        error: message.error,
        drive: message.drive,
        elements: message.elements,
        field: message.field,
        bytes: buffer_of(message.bytes),
    }
}

/// Reads the body of an SoE mail. Each message has one spelling, so nothing is ignored.
pub fn read(body: &[u8]) -> Result<Soe, SoeFault>
    requires { length body.now ≤ 1480 }
    ensures found { IfOk result (IsSoe body.now) }
    ensures only { (soe : Soe) → IsSoe body.now soe → result ≡ Ok soe }
    ensures exact { result ≡ soe_read body.now }
    ensures sound { IfOk result IsSpellable }
{
    match view(body) {
        Ok(found) => Ok(message_of(found)),
        Err(fault) => Err(fault),
    }
}
