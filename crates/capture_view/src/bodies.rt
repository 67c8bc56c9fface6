ghost use Rattle.std.specs.Prelude.{◌≡◌, ◌≤◌, ◌++◌, length, string_bytes, OnOk};
ghost use Rattle.coe_codec.specs.Coe.{IsCoe};
ghost use Rattle.coe_codec.specs.Reading.{coe_read};
ghost use Rattle.coe_codec.specs.View.{coe_seen};
ghost use Rattle.foe_codec.specs.Message.{foe_read};
ghost use Rattle.soe_codec.specs.Message.{soe_read};
ghost use Rattle.eoe.specs.Message.{eoe_read};
ghost use Rattle.capture_view.specs.Bodies.{coe_fault, foe_fault, soe_fault, eoe_fault, service_text, segment_line, object_line, emergency_line, information_line, form_line, coe_line, foe_line, soe_line, words_line, eoe_line, is_error, error_line, body_line};

use crate::lines::fault_line;
use coe_codec::{CoeFault, CoeView};
use ec_fields::{bits, u16_at, u32_at};
use eoe::EoeFault;
use foe_codec::FoeFault;
use mailbox_mail::Kind;
use soe_codec::{SoeFault, SoeView};
use std::alloc::AllocError;

fn coe_fault(fault: CoeFault) -> u8
    ensures { result ≡ coe_fault fault }
{
    match fault {
        CoeFault::Short => 1,
        CoeFault::Service => 2,
        CoeFault::Command => 3,
        CoeFault::Size => 4,
    }
}

// The line's front: service and command of an SDO body.
fn service_text(line: &mut String, body: &[u8]) -> Result<(), AllocError>
    requires { 3 ≤ length body.now }
    ensures { OnOk result (string_bytes line.new ≡ service_text body.now) }
{
    let service = body[1] / 16;
    let command = body[2];
    line.clear();
    write!(line, "coe service {service} command {command:02x}")
}

fn segment_line(line: &mut String, body: &[u8]) -> Result<(), AllocError>
    requires { 3 ≤ length body.now }
    ensures { OnOk result (string_bytes line.new ≡ segment_line body.now) }
{
    service_text(line, body)?;
    line.push_str("\n")
}

fn object_line(line: &mut String, body: &[u8]) -> Result<(), AllocError>
    requires { 6 ≤ length body.now }
    ensures { OnOk result (string_bytes line.new ≡ object_line body.now) }
{
    let index = u16_at(body, 3);
    let sub = body[5];
    service_text(line, body)?;
    write!(line, " object {index:04x}:{sub:02x}\n")
}

fn emergency_line(line: &mut String, body: &[u8]) -> Result<(), AllocError>
    requires { 4 ≤ length body.now }
    ensures { OnOk result (string_bytes line.new ≡ emergency_line body.now) }
{
    let code = u16_at(body, 2);
    line.clear();
    write!(line, "coe emergency {code:04x}\n")
}

fn information_line(line: &mut String, body: &[u8]) -> Result<(), AllocError>
    requires { 6 ≤ length body.now }
    ensures { OnOk result (string_bytes line.new ≡ information_line body.now) }
{
    let opcode = body[2] % 128;
    let left = u16_at(body, 4);
    line.clear();
    write!(line, "coe information opcode {opcode} left {left}\n")
}

// The line of a CoE body by the form that it reads as.
fn form_line(line: &mut String, body: &[u8], message: CoeView<'_>) -> Result<(), AllocError>
    requires { IsCoe body.now (coe_seen message) }
    ensures { OnOk result (string_bytes line.new ≡ form_line body.now (coe_seen message.entry)) }
{
    match message {
        CoeView::Emergency { .. } => emergency_line(line, body),
        CoeView::Segment { .. }
        | CoeView::SegmentAnswer { .. }
        | CoeView::UploadSegment { .. }
        | CoeView::UploadSegmentAnswer { .. } => segment_line(line, body),
        CoeView::ListRequest { .. }
        | CoeView::ObjectRequest { .. }
        | CoeView::EntryRequest { .. }
        | CoeView::Information { .. }
        | CoeView::InformationError { .. } => information_line(line, body),
        _ => object_line(line, body),
    }
}

fn coe_line(line: &mut String, body: &[u8]) -> Result<(), AllocError>
    requires { length body.now ≤ 1480 }
    ensures { OnOk result (string_bytes line.new ≡ coe_line body.now (coe_read body.now)) }
{
    match coe_codec::view(body) {
        Ok(message) => form_line(line, body, message),
        Err(fault) => fault_line(line, coe_fault(fault)),
    }
}

fn foe_fault(fault: FoeFault) -> u8
    ensures { result ≡ foe_fault fault }
{
    match fault {
        FoeFault::Short => 1,
        FoeFault::Opcode => 2,
        FoeFault::Name => 3,
    }
}

fn foe_line(line: &mut String, body: &[u8]) -> Result<(), AllocError>
    requires { length body.now ≤ 1480 }
    ensures { OnOk result (string_bytes line.new ≡ foe_line body.now (foe_read body.now)) }
{
    if let Err(fault) = foe_codec::view(body) {
        return fault_line(line, foe_fault(fault));
    }
    let opcode = body[0];
    let number = u32_at(body, 2);
    line.clear();
    write!(line, "foe opcode {opcode} number {number:08x}\n")
}

fn soe_fault(fault: SoeFault) -> u8
    ensures { result ≡ soe_fault fault }
{
    match fault {
        SoeFault::Short => 1,
        SoeFault::Opcode => 2,
        SoeFault::Incomplete => 3,
    }
}

fn soe_line(line: &mut String, body: &[u8]) -> Result<(), AllocError>
    requires { length body.now ≤ 1480 }
    ensures { OnOk result (string_bytes line.new ≡ soe_line (soe_read body.now)) }
{
    match soe_codec::view(body) {
        Err(fault) => fault_line(line, soe_fault(fault)),
        Ok(
            SoeView {
                opcode,
                drive,
                elements,
                field,
                ..
            },
        ) => {
            line.clear();
            write!(
                line,
                "soe opcode {opcode} drive {drive} elements {elements:02x} field {field:04x}\n"
            )
        }
    }
}

fn eoe_fault(fault: EoeFault) -> u8
    ensures { result ≡ eoe_fault fault }
{
    match fault {
        EoeFault::Short => 1,
        EoeFault::WrongType => 2,
        EoeFault::Offset => 3,
    }
}

// The line of an EoE body's two words.
fn words_line(line: &mut String, first: u16, second: u16) -> Result<(), AllocError>
    ensures { OnOk result (string_bytes line.new ≡ words_line first second) }
{
    let kind = bits(first, 0, 4);
    let last = bits(first, 8, 1);
    let fragment = bits(second, 0, 6);
    line.clear();
    write!(
        line,
        "eoe type {kind} last {last} fragment {fragment} second {second:04x}\n"
    )
}

fn eoe_line(line: &mut String, body: &[u8]) -> Result<(), AllocError>
    requires { length body.now ≤ 1480 }
    ensures { OnOk result (string_bytes line.new ≡ eoe_line body.now (eoe_read body.now)) }
{
    match eoe::view(body) {
        Ok(_) => words_line(line, u16_at(body, 0), u16_at(body, 2)),
        Err(fault) => fault_line(line, eoe_fault(fault)),
    }
}

// Whether a body is a mailbox error with a detail.
fn is_error(body: &[u8]) -> bool
    ensures { result ≡ is_error body.now }
{
    body.len() == 4 && body[0] == 1 && body[1] == 0
}

fn error_line(line: &mut String, body: &[u8]) -> Result<(), AllocError>
    ensures { OnOk result (string_bytes line.new ≡ error_line body.now) }
{
    line.clear();
    if is_error(body) {
        let detail = u16_at(body, 2);
        write!(line, "error detail {detail}\n")
    } else {
        Ok(())
    }
}

/// The line of a mail's body by its protocol. It is empty where the body has none.
pub fn body_line(line: &mut String, kind: Kind, body: &[u8]) -> Result<(), AllocError>
    requires { length body.now ≤ 1480 }
    ensures { OnOk result (string_bytes line.new ≡ body_line kind body.now) }
{
    match kind {
        Kind::Error => error_line(line, body),
        Kind::EoE => eoe_line(line, body),
        Kind::CoE => coe_line(line, body),
        Kind::FoE => foe_line(line, body),
        Kind::SoE => soe_line(line, body),
        Kind::AoE | Kind::VoE => {
            line.clear();
            Ok(())
        }
    }
}
