//! Messages as they read, and as they are written.

ghost use Rattle.std.specs.Prelude.{◌≤◌, length};

use crate::writing::{coe_back, eoe_back, foe_back, soe_back};
use coe_codec::{CoeFault, CoeView};
use ec_fields::buffer_of;
use eoe::{EoeFault, EoeView, first_block, is_block};
use foe_codec::{FoeFault, FoeView};
use mailbox_mail::{
    Kind, Mail, MailFault, error_mail, next_counter, read, read_into, write, write_head,
};
use row_table::{Bench, Row};
use soe_codec::SoeFault;

/// Mails and messages: `coe OCTETS` is what the body of a mail of CoE reads as, `coe_back OCTETS` what is written of that; and so of the other protocols.
#[derive(Drop)]
pub struct CodecBench;

// A message by its name, its numbers and its octets.
fn tell(row: &mut Row<'_>, name: &str, numbers: &[u32], octets: &[u8]) {
    row.say(name);
    for number in numbers {
        row.show(u64::from(*number));
    }
    row.digits(octets);
}

// Why a body is no message of CoE.
fn coe_fault(fault: CoeFault) -> &'static str {
    match fault {
        CoeFault::Short => "short",
        CoeFault::Service => "service",
        CoeFault::Command => "command",
        CoeFault::Size => "size",
    }
}

// The answers of CoE.
fn tell_coe_answer(row: &mut Row<'_>, message: CoeView<'_>) {
    match message {
        CoeView::DownloadAnswer { index, sub } => {
            tell(row, "download answer", &[index as u32, sub as u32], &[])
        }
        CoeView::ExpeditedAnswer { index, sub, bytes } => {
            tell(row, "expedited answer", &[index as u32, sub as u32], bytes)
        }
        CoeView::FirstAnswer {
            index,
            sub,
            size,
            bytes,
        } => tell(
            row,
            "first answer",
            &[index as u32, sub as u32, size],
            bytes,
        ),
        CoeView::SegmentAnswer { toggle } => tell(row, "segment answer", &[toggle as u32], &[]),
        CoeView::UploadSegmentAnswer {
            toggle,
            last,
            bytes,
        } => tell(
            row,
            "upload segment answer",
            &[toggle as u32, last as u32],
            bytes,
        ),
        CoeView::Information {
            opcode,
            incomplete,
            left,
            bytes,
        } => tell(
            row,
            "information",
            &[opcode as u32, incomplete as u32, left as u32],
            bytes,
        ),
        CoeView::InformationError { code } => tell(row, "information error", &[code], &[]),
        _ => row.fail(),
    }
}

// A message of CoE.
fn tell_coe(row: &mut Row<'_>, message: CoeView<'_>) {
    match message {
        CoeView::Emergency { octets } => tell(row, "emergency", &[], octets),
        CoeView::Expedited {
            index,
            sub,
            all,
            bytes,
        } => tell(
            row,
            "expedited",
            &[index as u32, sub as u32, all as u32],
            bytes,
        ),
        CoeView::First {
            index,
            sub,
            all,
            size,
            bytes,
        } => tell(
            row,
            "first",
            &[index as u32, sub as u32, all as u32, size],
            bytes,
        ),
        CoeView::Upload { index, sub, all } => tell(
            row,
            "upload",
            &[index as u32, sub as u32, all as u32],
            &[],
        ),
        CoeView::Segment {
            toggle,
            last,
            bytes,
        } => tell(row, "segment", &[toggle as u32, last as u32], bytes),
        CoeView::UploadSegment { toggle } => tell(row, "upload segment", &[toggle as u32], &[]),
        CoeView::Abort { index, sub, code } => {
            tell(row, "abort", &[index as u32, sub as u32, code], &[])
        }
        CoeView::ListRequest { kind } => tell(row, "list", &[kind as u32], &[]),
        CoeView::ObjectRequest { index } => tell(row, "object", &[index as u32], &[]),
        CoeView::EntryRequest { index, sub, info } => tell(
            row,
            "entry",
            &[index as u32, sub as u32, info as u32],
            &[],
        ),
        answer => tell_coe_answer(row, answer),
    }
}

// A message of FoE, or why a body is none.
fn tell_foe(row: &mut Row<'_>, octets: &[u8])
    requires { length octets.now ≤ 1480 }
{
    match foe_codec::view(octets) {
        Ok(FoeView::Read { pass, name }) => tell(row, "read", &[pass], name),
        Ok(FoeView::Write { pass, name }) => tell(row, "write", &[pass], name),
        Ok(FoeView::Data { packet, bytes }) => tell(row, "data", &[packet], bytes),
        Ok(FoeView::Ack { packet }) => tell(row, "ack", &[packet], &[]),
        Ok(FoeView::Error { code }) => tell(row, "error", &[code], &[]),
        Ok(FoeView::Busy { done, entire }) => {
            tell(row, "busy", &[done as u32, entire as u32], &[])
        }
        Err(FoeFault::Short) => row.say("short"),
        Err(FoeFault::Opcode) => row.say("opcode"),
        Err(FoeFault::Name) => row.say("name"),
    }
}

// A message of SoE, or why a body is none.
fn tell_soe(row: &mut Row<'_>, octets: &[u8])
    requires { length octets.now ≤ 1480 }
{
    match soe_codec::view(octets) {
        Ok(soe) => {
            row.show(u64::from(soe.opcode));
            row.answer(soe.incomplete);
            row.answer(soe.error);
            row.show(u64::from(soe.drive));
            row.show(u64::from(soe.elements));
            row.show(u64::from(soe.field));
            row.digits(soe.bytes);
        }
        Err(SoeFault::Short) => row.say("short"),
        Err(SoeFault::Opcode) => row.say("opcode"),
        Err(SoeFault::Incomplete) => row.say("incomplete"),
    }
}

// A message of EoE, or why a body is none.
fn tell_eoe(row: &mut Row<'_>, octets: &[u8])
    requires { length octets.now ≤ 1480 }
{
    match eoe::view(octets) {
        Ok(EoeView::Fragment(part)) => {
            row.say("fragment");
            row.answer(part.last);
            row.answer(part.stamped);
            row.show(u64::from(part.number));
            row.show(u64::from(part.offset));
            row.show(u64::from(part.frame));
            row.digits(part.bytes);
        }
        Ok(EoeView::SetIp(block)) => tell(row, "set", &[], block),
        Ok(EoeView::SetIpAnswer(code)) => tell(row, "set answer", &[code as u32], &[]),
        Ok(EoeView::GetIp) => row.say("get"),
        Ok(EoeView::GetIpAnswer { result_code, block }) => {
            tell(row, "get answer", &[result_code as u32], block)
        }
        Err(EoeFault::Short) => row.say("short"),
        Err(EoeFault::WrongType) => row.say("type"),
        Err(EoeFault::Offset) => row.say("offset"),
    }
}

// An area of 64 octets with a mail of CoE. Where the head alone is written, its body stands in its place before.
fn tell_written(row: &mut Row<'_>, heads: bool) {
    let counter = row.small();
    let body = row.octets();
    if counter > 7 || body.len() > 58 {
        return row.fail();
    }
    let mail = Mail {
        address: 0,
        kind: Kind::CoE,
        counter,
        body: buffer_of(body.bytes()),
    };
    let mut area = [0xEE; 64];
    if heads {
        area[6..6 + body.len()].copy_from_slice(body.bytes());
        write_head(mail.head(), body.len(), &mut area);
    } else {
        write(&mail, &mut area);
    }
    row.digits(&area);
}

// A mail by address, kind, counter and octets, or why there is none.
fn tell_mail(row: &mut Row<'_>, mail: &Result<Mail, MailFault>) {
    match mail {
        Ok(mail) => {
            row.show(u64::from(mail.address));
            row.show(u64::from(mail.kind.code()));
            row.show(u64::from(mail.counter));
            row.digits(mail.body.as_slice());
        }
        Err(MailFault::Short) => row.say("short"),
        Err(MailFault::LengthPastArea) => row.say("long"),
        Err(MailFault::UnknownKind) => row.say("kind"),
    }
}

// What an area reads as, at once and in place of another mail.
fn tell_read(row: &mut Row<'_>) {
    let area = row.octets();
    let mut kept = Ok(error_mail(1));
    read_into(area.bytes(), &mut kept);
    tell_mail(row, &read(area.bytes()));
    tell_mail(row, &kept);
}

// A mailbox error in ten octets.
fn tell_error(row: &mut Row<'_>) {
    let mut area = [0; 10];
    write(&error_mail(row.short()), &mut area);
    row.digits(&area);
}

// The counter behind one.
fn tell_next(row: &mut Row<'_>) {
    let counter = row.small();
    if counter > 7 {
        return row.fail();
    }
    row.show(u64::from(next_counter(counter)));
}

// What the body of a mail reads as.
fn tell_body(row: &mut Row<'_>, call: &str) {
    let body = row.octets();
    if body.len() > 1480 {
        return row.fail();
    }
    let octets = body.bytes();
    match call {
        "coe" => match coe_codec::view(octets) {
            Ok(message) => tell_coe(row, message),
            Err(fault) => row.say(coe_fault(fault)),
        },
        "foe" => tell_foe(row, octets),
        "soe" => tell_soe(row, octets),
        "eoe" => tell_eoe(row, octets),
        "coe_back" => coe_back(row, octets),
        "foe_back" => foe_back(row, octets),
        "soe_back" => soe_back(row, octets),
        "eoe_back" => eoe_back(row, octets),
        "block" => row.answer(is_block(octets)),
        _ => row.fail(),
    }
}

impl Bench for CodecBench {
    fn carry(&mut self, row: &mut Row<'_>) {
        match row.word() {
            "read" => tell_read(row),
            "write" => tell_written(row, false),
            "head" => tell_written(row, true),
            "next" => tell_next(row),
            "error" => tell_error(row),
            "first_block" => row.digits(first_block().as_slice()),
            call => tell_body(row, call),
        }
    }
}
