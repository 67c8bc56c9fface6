ghost use Rattle.std.specs.Prelude.{◌≡◌, ◌≤◌, true, false, length};
ghost use Rattle.slave_server.specs.Serving.{is_quiet_drive, is_quiet_ether, is_last_ether};

use ec_fields::{bits, u16_at};
use eoe::{EoeFault, EoeView};
use soe_codec::SoeFault;

/// Whether a mail of SoE gets no answer where that isn't served: it goes on.
pub(crate) fn is_quiet_drive(body: &[u8]) -> bool
    requires { length body.now ≤ 1480 }
    ensures { result ≡ is_quiet_drive body.now }
{
    match soe_codec::view(body) {
        Ok(message) => message.incomplete,
        Err(SoeFault::Short) => false,
        Err(SoeFault::Opcode) | Err(SoeFault::Incomplete) => bits(u16_at(body, 0), 3, 1) == 1,
    }
}

/// Whether a mail of EoE gets no answer where that isn't served: it is a fragment.
pub(crate) fn is_quiet_ether(body: &[u8]) -> bool
    requires { length body.now ≤ 1480 }
    ensures quiet { result ≡ is_quiet_ether body.now }
    ensures last { result ≡ false → is_last_ether body.now ≡ true }
{
    match eoe::view(body) {
        Ok(EoeView::Fragment(_)) | Err(EoeFault::Offset) => true,
        Ok(EoeView::SetIp(_))
        | Ok(EoeView::SetIpAnswer(_))
        | Ok(EoeView::GetIp)
        | Ok(EoeView::GetIpAnswer { .. })
        | Err(EoeFault::Short)
        | Err(EoeFault::WrongType) => false,
    }
}

/// Whether such a mail counts as a service: a fragment does only as the last of its packet.
pub(crate) fn is_last_ether(body: &[u8]) -> bool
    requires { length body.now ≤ 1480 }
    ensures { result ≡ is_last_ether body.now }
{
    match eoe::view(body) {
        Ok(EoeView::Fragment(fragment)) => fragment.last,
        Err(EoeFault::Offset) => false,
        Ok(EoeView::SetIp(_))
        | Ok(EoeView::SetIpAnswer(_))
        | Ok(EoeView::GetIp)
        | Ok(EoeView::GetIpAnswer { .. })
        | Err(EoeFault::Short)
        | Err(EoeFault::WrongType) => true,
    }
}
