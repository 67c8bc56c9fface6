ghost use Rattle.std.specs.Prelude.{◌≡◌, ◌≤◌, length, IfOk, Ok, MatchResult};
ghost use Rattle.coe_codec.specs.Coe.{IsCoe};
ghost use Rattle.coe_codec.specs.Faults.{fault_of};
ghost use Rattle.coe_codec.specs.View.{seen, coe_seen, IsWithin, IsCapped, first_seen, segment_seen};
ghost use Rattle.coe_codec.specs.Fields.{service_in, specifier_in};
ghost use Rattle.coe_codec.specs.Reading.{coe_read, request_read, answer_read, information_read, download_read, upload_answer_read, segment_read, first_read, expedited_part, abort_in};

use crate::fields::{flag, service, specifier, unused};
use crate::message::{Coe, CoeFault};
use ec_fields::{u16_at, u32_at};

/// A CoE message as it stands in a body: its variants are those of [`Coe`](crate::Coe), and its octets are where they lie.
#[derive(Clone, Copy)]
pub enum CoeView<'a> {
    Emergency {
        octets: &'a [u8],
    },
    Expedited {
        index: u16,
        sub: u8,
        all: bool,
        bytes: &'a [u8],
    },
    First {
        index: u16,
        sub: u8,
        all: bool,
        size: u32,
        bytes: &'a [u8],
    },
    Upload {
        index: u16,
        sub: u8,
        all: bool,
    },
    DownloadAnswer {
        index: u16,
        sub: u8,
    },
    ExpeditedAnswer {
        index: u16,
        sub: u8,
        bytes: &'a [u8],
    },
    FirstAnswer {
        index: u16,
        sub: u8,
        size: u32,
        bytes: &'a [u8],
    },
    Segment {
        toggle: bool,
        last: bool,
        bytes: &'a [u8],
    },
    SegmentAnswer {
        toggle: bool,
    },
    UploadSegment {
        toggle: bool,
    },
    UploadSegmentAnswer {
        toggle: bool,
        last: bool,
        bytes: &'a [u8],
    },
    Abort {
        index: u16,
        sub: u8,
        code: u32,
    },
    ListRequest {
        kind: u16,
    },
    ObjectRequest {
        index: u16,
    },
    EntryRequest {
        index: u16,
        sub: u8,
        info: u8,
    },
    Information {
        opcode: u8,
        incomplete: bool,
        left: u16,
        bytes: &'a [u8],
    },
    InformationError {
        code: u32,
    },
}

// The octets of an expedited value: four, less the count that bits 2 and 3 give where bit 0 says so.
fn expedited(body: &[u8]) -> &[u8]
    requires { 10 ≤ length body.now }
    ensures value { result.now ≡ expedited_part body.now }
    ensures few { length result.now ≤ 4 }
{
    let unused = if flag(body, 1) {
        (body[2] / 4 % 4) as usize
    } else {
        0
    };
    &body[6..10 - unused]
}

// The complete size and the first part of a value.
fn first(body: &[u8]) -> Result<(u32, &[u8]), CoeFault>
    requires long { 10 ≤ length body.now }
    requires fits { length body.now ≤ 1480 }
    ensures value { first_seen result ≡ first_read body.now }
    ensures within { IfOk result (λ v. (length v.1.now ≤ v.0) × (length v.1.now ≤ 1470)) }
{
    let size = u32_at(body, 6);
    if body.len() - 10 > size as usize {
        return Err(CoeFault::Size);
    }
    Ok((size, &body[10..]))
}

// Whether it is the last segment, and its octets.
fn segment(body: &[u8]) -> Result<(bool, &[u8]), CoeFault>
    requires long { 10 ≤ length body.now }
    requires fits { length body.now ≤ 1480 }
    ensures value { segment_seen result ≡ segment_read body.now }
    ensures some { IfOk result (λ v. (1 ≤ length v.1.now) × (length v.1.now ≤ 1477)) }
{
    let unused = unused(body);
    if unused == 7 || (body.len() > 10 && unused != 0) {
        return Err(CoeFault::Size);
    }
    Ok((flag(body, 1), &body[3..body.len() - unused]))
}

fn download(body: &[u8]) -> Result<CoeView<'_>, CoeFault>
    requires long { 10 ≤ length body.now }
    requires fits { length body.now ≤ 1480 }
    requires of { service_in body.now ≡ 2 }
    requires initiate { specifier_in body.now ≡ 1 }
    ensures value { seen result ≡ download_read body.now }
    ensures within { IfOk result IsWithin }
    ensures capped { IfOk result IsCapped }
    ensures found { IfOk result (λ v. IsCoe body.now (coe_seen v)) }
    ensures exact { MatchResult result (λ _. fault_of body.now ≡ None) (λ fault. fault_of body.now ≡ Some fault) }
{
    let index = u16_at(body, 3);
    let sub = body[5];
    let all = flag(body, 16);
    if flag(body, 2) {
        let bytes = expedited(body);
        return Ok(CoeView::Expedited {
            index,
            sub,
            all,
            bytes,
        });
    }
    if !flag(body, 1) {
        return Err(CoeFault::Command);
    }
    let (size, bytes) = first(body)?;
    Ok(CoeView::First {
        index,
        sub,
        all,
        size,
        bytes,
    })
}

fn upload_answer(body: &[u8]) -> Result<CoeView<'_>, CoeFault>
    requires long { 10 ≤ length body.now }
    requires fits { length body.now ≤ 1480 }
    requires of { service_in body.now ≡ 3 }
    requires initiate { specifier_in body.now ≡ 2 }
    ensures value { seen result ≡ upload_answer_read body.now }
    ensures within { IfOk result IsWithin }
    ensures capped { IfOk result IsCapped }
    ensures found { IfOk result (λ v. IsCoe body.now (coe_seen v)) }
    ensures exact { MatchResult result (λ _. fault_of body.now ≡ None) (λ fault. fault_of body.now ≡ Some fault) }
{
    let index = u16_at(body, 3);
    let sub = body[5];
    if !flag(body, 1) {
        return Err(CoeFault::Command);
    }
    if flag(body, 2) {
        let bytes = expedited(body);
        return Ok(CoeView::ExpeditedAnswer { index, sub, bytes });
    }
    let (size, bytes) = first(body)?;
    Ok(CoeView::FirstAnswer {
        index,
        sub,
        size,
        bytes,
    })
}

fn abort(body: &[u8]) -> CoeView<'_>
    requires { 10 ≤ length body.now }
    ensures { coe_seen result ≡ abort_in body.now }
{
    CoeView::Abort {
        index: u16_at(body, 3),
        sub: body[5],
        code: u32_at(body, 6),
    }
}

fn request(body: &[u8]) -> Result<CoeView<'_>, CoeFault>
    requires long { 10 ≤ length body.now }
    requires fits { length body.now ≤ 1480 }
    requires of { service_in body.now ≡ 2 }
    ensures value { seen result ≡ request_read body.now }
    ensures within { IfOk result IsWithin }
    ensures capped { IfOk result IsCapped }
    ensures found { IfOk result (λ v. IsCoe body.now (coe_seen v)) }
    ensures exact { MatchResult result (λ _. fault_of body.now ≡ None) (λ fault. fault_of body.now ≡ Some fault) }
{
    match specifier(body) {
        0 => {
            let (last, bytes) = segment(body)?;
            let toggle = flag(body, 16);
            Ok(CoeView::Segment {
                toggle,
                last,
                bytes,
            })
        }
        1 => download(body),
        2 => Ok(CoeView::Upload {
            index: u16_at(body, 3),
            sub: body[5],
            all: flag(body, 16),
        }),
        3 => Ok(CoeView::UploadSegment {
            toggle: flag(body, 16),
        }),
        4 => Ok(abort(body)),
        _ => Err(CoeFault::Command),
    }
}

fn answer(body: &[u8]) -> Result<CoeView<'_>, CoeFault>
    requires long { 10 ≤ length body.now }
    requires fits { length body.now ≤ 1480 }
    requires of { service_in body.now ≡ 3 }
    ensures value { seen result ≡ answer_read body.now }
    ensures within { IfOk result IsWithin }
    ensures capped { IfOk result IsCapped }
    ensures found { IfOk result (λ v. IsCoe body.now (coe_seen v)) }
    ensures exact { MatchResult result (λ _. fault_of body.now ≡ None) (λ fault. fault_of body.now ≡ Some fault) }
{
    match specifier(body) {
        0 => {
            let (last, bytes) = segment(body)?;
            let toggle = flag(body, 16);
            Ok(CoeView::UploadSegmentAnswer {
                toggle,
                last,
                bytes,
            })
        }
        1 => Ok(CoeView::SegmentAnswer {
            toggle: flag(body, 16),
        }),
        2 => upload_answer(body),
        3 => Ok(CoeView::DownloadAnswer {
            index: u16_at(body, 3),
            sub: body[5],
        }),
        4 => Ok(abort(body)),
        _ => Err(CoeFault::Command),
    }
}

fn information(body: &[u8]) -> Result<CoeView<'_>, CoeFault>
    requires long { 6 ≤ length body.now }
    requires fits { length body.now ≤ 1480 }
    requires of { service_in body.now ≡ 8 }
    ensures value { seen result ≡ information_read body.now }
    ensures within { IfOk result IsWithin }
    ensures capped { IfOk result IsCapped }
    ensures found { IfOk result (λ v. IsCoe body.now (coe_seen v)) }
    ensures exact { MatchResult result (λ _. fault_of body.now ≡ None) (λ fault. fault_of body.now ≡ Some fault) }
{
    match body[2] % 128 {
        1 if body.len() >= 8 => Ok(CoeView::ListRequest {
            kind: u16_at(body, 6),
        }),
        3 if body.len() >= 8 => Ok(CoeView::ObjectRequest {
            index: u16_at(body, 6),
        }),
        5 if body.len() >= 10 => Ok(CoeView::EntryRequest {
            index: u16_at(body, 6),
            sub: body[8],
            info: body[9],
        }),
        7 if body.len() >= 10 => Ok(CoeView::InformationError {
            code: u32_at(body, 6),
        }),
        opcode @ (2 | 4 | 6) => Ok(CoeView::Information {
            opcode,
            incomplete: flag(body, 128),
            left: u16_at(body, 4),
            bytes: &body[6..],
        }),
        _ => Err(CoeFault::Command),
    }
}

// The parts are judged in the order of the faults.
fn view_parts(body: &[u8]) -> Result<CoeView<'_>, CoeFault>
    requires { length body.now ≤ 1480 }
    ensures value { seen result ≡ coe_read body.now }
    ensures within { IfOk result IsWithin }
    ensures capped { IfOk result IsCapped }
    ensures found { IfOk result (λ v. IsCoe body.now (coe_seen v)) }
    ensures exact { MatchResult result (λ _. fault_of body.now ≡ None) (λ fault. fault_of body.now ≡ Some fault) }
{
    if body.len() < 2 {
        return Err(CoeFault::Short);
    }
    match service(body) {
        1 | 2 | 3 if body.len() < 10 => Err(CoeFault::Short),
        1 => Ok(CoeView::Emergency {
            octets: &body[2..10],
        }),
        2 => request(body),
        3 => answer(body),
        8 if body.len() < 6 => Err(CoeFault::Short),
        8 => information(body),
        _ => Err(CoeFault::Service),
    }
}

/// The CoE message in a body as it stands there, as [`read`](crate::read) reads it. Nothing is copied.
pub fn view(body: &[u8]) -> Result<CoeView<'_>, CoeFault>
    requires { length body.now ≤ 1480 }
    ensures value { seen result ≡ coe_read body.now }
    ensures within { IfOk result IsWithin }
    ensures capped { IfOk result IsCapped }
    ensures found { IfOk result (λ v. IsCoe body.now (coe_seen v)) }
    ensures only { (message : Coe) → IsCoe body.now message → seen result ≡ Ok message }
    ensures exact { MatchResult result (λ _. fault_of body.now ≡ None) (λ fault. fault_of body.now ≡ Some fault) }
{
    view_parts(body)
}

/// A message as a view of itself.
pub fn view_of(message: &Coe) -> CoeView<'_>
    ensures value { coe_seen result ≡ message.now }
    ensures capped { IsCapped result }
{
    match message {
        Coe::Emergency { octets } => CoeView::Emergency {
            octets: octets.as_slice(),
        },
        Coe::Expedited {
            index,
            sub,
            all,
            bytes,
        } => CoeView::Expedited {
            index: *index,
            sub: *sub,
            all: *all,
            bytes: bytes.as_slice(),
        },
        Coe::First {
            index,
            sub,
            all,
            size,
            bytes,
        } => CoeView::First {
            index: *index,
            sub: *sub,
            all: *all,
            size: *size,
            bytes: bytes.as_slice(),
        },
        Coe::Upload { index, sub, all } => CoeView::Upload {
            index: *index,
            sub: *sub,
            all: *all,
        },
        Coe::DownloadAnswer { index, sub } => CoeView::DownloadAnswer {
            index: *index,
            sub: *sub,
        },
        Coe::ExpeditedAnswer { index, sub, bytes } => CoeView::ExpeditedAnswer {
            index: *index,
            sub: *sub,
            bytes: bytes.as_slice(),
        },
        Coe::FirstAnswer {
            index,
            sub,
            size,
            bytes,
        } => CoeView::FirstAnswer {
            index: *index,
            sub: *sub,
            size: *size,
            bytes: bytes.as_slice(),
        },
        Coe::Segment {
            toggle,
            last,
            bytes,
        } => CoeView::Segment {
            toggle: *toggle,
            last: *last,
            bytes: bytes.as_slice(),
        },
        Coe::SegmentAnswer { toggle } => CoeView::SegmentAnswer { toggle: *toggle },
        Coe::UploadSegment { toggle } => CoeView::UploadSegment { toggle: *toggle },
        Coe::UploadSegmentAnswer {
            toggle,
            last,
            bytes,
        } => CoeView::UploadSegmentAnswer {
            toggle: *toggle,
            last: *last,
            bytes: bytes.as_slice(),
        },
        Coe::Abort { index, sub, code } => CoeView::Abort {
            index: *index,
            sub: *sub,
            code: *code,
        },
        Coe::ListRequest { kind } => CoeView::ListRequest { kind: *kind },
        Coe::ObjectRequest { index } => CoeView::ObjectRequest { index: *index },
        Coe::EntryRequest { index, sub, info } => CoeView::EntryRequest {
            index: *index,
            sub: *sub,
            info: *info,
        },
        Coe::Information {
            opcode,
            incomplete,
            left,
            bytes,
        } => CoeView::Information {
            opcode: *opcode,
            incomplete: *incomplete,
            left: *left,
            bytes: bytes.as_slice(),
        },
        Coe::InformationError { code } => CoeView::InformationError { code: *code },
    }
}
