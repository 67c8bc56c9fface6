ghost use Rattle.std.specs.Prelude.{◌≡◌, ◌≤◌, length, IfOk, Ok};
ghost use Rattle.eoe.specs.Message.{IsEoe, eoe_read};
ghost use Rattle.eoe.specs.View.{fragment_seen, eoe_seen, IsCapped};

use crate::message::{Eoe, EoeFault, Fragment};
use crate::viewing::{EoeView, FragmentView, view};
use ec_fields::buffer_of;

// The fragment by itself.
pub(crate) fn copy_of(fragment: FragmentView<'_>) -> Fragment
    requires { length fragment.bytes.now ≤ 1476 }
    ensures { result ≡ fragment_seen fragment.entry }
{
    Fragment {
        last: fragment.last,
        stamped: fragment.stamped,
        number: fragment.number,
        offset: fragment.offset,
        frame: fragment.frame,
        bytes: buffer_of(fragment.bytes),
    }
}

// The message by itself.
fn message_of(message: EoeView<'_>) -> Eoe
    requires { IsCapped message }
    ensures { result ≡ eoe_seen message.entry }
{
    match message {
        EoeView::Fragment(fragment) => Eoe::Fragment(copy_of(fragment)),
        EoeView::SetIp(block) => Eoe::SetIp(buffer_of(block)),
        EoeView::SetIpAnswer(result_code) => Eoe::SetIpAnswer(result_code),
        EoeView::GetIp => Eoe::GetIp,
        EoeView::GetIpAnswer { result_code, block } => Eoe::GetIpAnswer {
            result_code,
            block: buffer_of(block),
        },
    }
}

/// Reads the body of an EoE mail. The port, the request of a time, reserved bits, the last bit of an
/// address message and the octets behind a fixed message are ignored.
pub fn read(body: &[u8]) -> Result<Eoe, EoeFault>
    requires { length body.now ≤ 1480 }
    ensures found { IfOk result (IsEoe body.now) }
    ensures only { (eoe : Eoe) → IsEoe body.now eoe → result ≡ Ok eoe }
    ensures exact { result ≡ eoe_read body.now }
{
    match view(body) {
        Ok(found) => Ok(message_of(found)),
        Err(fault) => Err(fault),
    }
}
