ghost use Rattle.std.specs.Prelude.{◌≡◌, ◌≤◌, length, IfOk, Ok, MatchResult};
ghost use Rattle.coe_codec.specs.Coe.{IsCoe};
ghost use Rattle.coe_codec.specs.Faults.{fault_of};
ghost use Rattle.coe_codec.specs.Reading.{coe_read};
ghost use Rattle.coe_codec.specs.View.{coe_seen, IsCapped};

use crate::message::{Coe, CoeFault};
use crate::viewing::{CoeView, view};
use ec_fields::buffer_of;

// The message by itself.
fn message_of(message: CoeView<'_>) -> Coe
    requires { IsCapped message }
    ensures { result ≡ coe_seen message.entry }
{
    match message {
        CoeView::Emergency { octets } => Coe::Emergency {
            octets: buffer_of(octets),
        },
        CoeView::Expedited {
            index,
            sub,
            all,
            bytes,
        } => Coe::Expedited {
            index,
            sub,
            all,
            bytes: buffer_of(bytes),
        },
        CoeView::First {
            index,
            sub,
            all,
            size,
            bytes,
        } => Coe::First {
            index,
            sub,
            all,
            size,
            bytes: buffer_of(bytes),
        },
        CoeView::Upload { index, sub, all } => Coe::Upload { index, sub, all },
        CoeView::DownloadAnswer { index, sub } => Coe::DownloadAnswer { index, sub },
        CoeView::ExpeditedAnswer { index, sub, bytes } => Coe::ExpeditedAnswer {
            index,
            sub,
            bytes: buffer_of(bytes),
        },
        CoeView::FirstAnswer {
            index,
            sub,
            size,
            bytes,
        } => Coe::FirstAnswer {
            index,
            sub,
            size,
            bytes: buffer_of(bytes),
        },
        CoeView::Segment {
            toggle,
            last,
            bytes,
        } => Coe::Segment {
            toggle,
            last,
            bytes: buffer_of(bytes),
        },
        CoeView::SegmentAnswer { toggle } => Coe::SegmentAnswer { toggle },
        CoeView::UploadSegment { toggle } => Coe::UploadSegment { toggle },
        CoeView::UploadSegmentAnswer {
            toggle,
            last,
            bytes,
        } => Coe::UploadSegmentAnswer {
            toggle,
            last,
            bytes: buffer_of(bytes),
        },
        CoeView::Abort { index, sub, code } => Coe::Abort { index, sub, code },
        CoeView::ListRequest { kind } => Coe::ListRequest { kind },
        CoeView::ObjectRequest { index } => Coe::ObjectRequest { index },
        CoeView::EntryRequest { index, sub, info } => Coe::EntryRequest { index, sub, info },
        CoeView::Information {
            opcode,
            incomplete,
            left,
            bytes,
        } => Coe::Information {
            opcode,
            incomplete,
            left,
            bytes: buffer_of(bytes),
        },
        CoeView::InformationError { code } => Coe::InformationError { code },
    }
}

/// Reads the CoE message in a mail's body of at most 1,480 octets. Reserved bits, unused octets and
/// octets behind the last field of a fixed form are ignored, and an expedited download without the
/// size bit counts 4 octets. The faults come in the order of [`CoeFault`].
pub fn read(body: &[u8]) -> Result<Coe, CoeFault>
    requires { length body.now ≤ 1480 }
    ensures value { result ≡ coe_read body.now }
    ensures found { IfOk result (IsCoe body.now) }
    ensures only { (message : Coe) → IsCoe body.now message → result ≡ Ok message }
    ensures exact { MatchResult result (λ _. fault_of body.now ≡ None) (λ fault. fault_of body.now ≡ Some fault) }
{
    match view(body) {
        Ok(found) => Ok(message_of(found)),
        Err(fault) => Err(fault),
    }
}
