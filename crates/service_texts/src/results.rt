ghost use Rattle.std.specs.Prelude.{◌≡◌, ◌++◌, OnOk};
ghost use Rattle.service_texts.specs.Results.{meaning_text, refusal_text, coded_text, abort_text, sdo_value, brought, ended_text, result_text};

use code_texts::{Family, meaning};
use ec_fields::{NoMemory, Octets};
use mailbox_mail::ReplyKind;
use object_dictionary::SdoService;
use segment_plan::{Service, SlaveSpec};
use std::alloc::Global;
use value_texts::{
    add_block, add_entry_info, add_file, add_idn_value, add_list, add_object_info, add_octets,
    add_value, add_whole, kind_at,
};

// What a code says, where its family has it.
#[tactic(auto, unfolding(crate::specs::Results::meaning_text))]
fn add_meaning(alloc: Global, line: &mut Octets, family: Family, code: &str) -> Result<(), NoMemory>
    ensures { OnOk result (line.new ≡ line.old ++ meaning_text family code.now) }
{
    let says = meaning(alloc, family, code)?;
    if says.is_empty() {
        return Ok(());
    }
    line.add(b": ")?;
    line.add(says.as_bytes())?;
    Ok(())
}

// A refusal by a code.
#[tactic(auto, unfolding(crate::specs::Results::refusal_text))]
fn add_refusal(
    alloc: Global,
    line: &mut Octets,
    word: &str,
    family: Family,
    code: &str,
) -> Result<(), NoMemory>
    ensures { OnOk result (line.new ≡ line.old ++ refusal_text word.now family code.now) }
{
    line.add(b"refused, ")?;
    line.add(word.as_bytes())?;
    line.add(code.as_bytes())?;
    add_meaning(alloc, line, family, code)?;
    Ok(())
}

// A refusal by a code of four digits.
#[tactic(auto, unfolding(crate::specs::Results::coded_text))]
fn add_coded(
    alloc: Global,
    line: &mut Octets,
    word: &str,
    family: Family,
    code: u32,
) -> Result<(), NoMemory>
    ensures { OnOk result (line.new ≡ line.old ++ coded_text word.now family code) }
{
    let digits = format!(in alloc; "{code:04x}")?;
    add_refusal(alloc, line, word, family, digits.as_str())
}

// A refusal by an SDO abort code.
#[tactic(auto, unfolding(crate::specs::Results::abort_text))]
fn add_abort(alloc: Global, line: &mut Octets, code: u32) -> Result<(), NoMemory>
    ensures { OnOk result (line.new ≡ line.old ++ abort_text code) }
{
    let digits = format!(in alloc; "{code:08x}")?;
    add_refusal(alloc, line, "abort ", Family::Abort, digits.as_str())
}

// What a service of CoE brought.
#[tactic(auto, unfolding(crate::specs::Results::sdo_value))]
fn add_sdo_value(
    alloc: Global,
    line: &mut Octets,
    slave: &SlaveSpec,
    service: &SdoService,
    value: &[u8],
) -> Result<(), NoMemory>
    ensures { OnOk result (line.new ≡ line.old ++ sdo_value slave.now service.now value.now) }
{
    match service {
        SdoService::Upload { index, sub } => {
            add_value(alloc, line, kind_at(slave, *index, *sub), value)
        }
        SdoService::UploadAll { index, from } => {
            add_whole(alloc, line, slave, *index, *from, value)
        }
        SdoService::List { kind } => add_list(alloc, line, *kind, value),
        SdoService::ObjectInfo { .. } => add_object_info(alloc, line, value),
        SdoService::EntryInfo { .. } => add_entry_info(alloc, line, value),
        SdoService::Download { .. } | SdoService::DownloadAll { .. } => {
            add_octets(alloc, line, value)
        }
    }
}

// What a service brought.
#[tactic(auto, unfolding(crate::specs::Results::brought))]
fn add_brought(
    alloc: Global,
    line: &mut Octets,
    slave: &SlaveSpec,
    service: &Service,
    value: &[u8],
) -> Result<(), NoMemory>
    ensures { OnOk result (line.new ≡ line.old ++ brought slave.now service.now value.now) }
{
    match service {
        Service::Sdo(sdo) => add_sdo_value(alloc, line, slave, sdo, value),
        Service::ReadFile { .. } => add_file(alloc, line, value),
        Service::ReadIdn {
            drive,
            idn,
            elements,
        } => add_idn_value(alloc, line, slave, *drive, *idn, *elements, value),
        Service::GetIp => add_block(alloc, line, value),
        Service::WriteFile { .. }
        | Service::WriteIdn { .. }
        | Service::SetIp { .. }
        | Service::State { .. }
        | Service::Forward(_) => add_octets(alloc, line, value),
    }
}

/// How a service ended that brought no value: `done`, `handed over`, or `refused` with the code and what it says.
#[tactic(auto, unfolding(crate::specs::Results::ended_text))]
pub fn add_ended(alloc: Global, line: &mut Octets, kind: ReplyKind) -> Result<(), NoMemory>
    ensures { OnOk result (line.new ≡ line.old ++ ended_text kind) }
{
    match kind {
        ReplyKind::Done | ReplyKind::Value => line.add(b"done"),
        ReplyKind::Abort(code) => add_abort(alloc, line, code),
        ReplyKind::FoeError(code) => add_coded(alloc, line, "foe ", Family::FoeError, code),
        ReplyKind::SoeError(code) => {
            add_coded(alloc, line, "soe ", Family::SoeError, u32::from(code))
        }
        ReplyKind::EoeResult(code) => {
            add_coded(alloc, line, "eoe ", Family::EoeResult, u32::from(code))
        }
        ReplyKind::MailboxError(code) => {
            add_coded(
                alloc,
                line,
                "mailbox ",
                Family::MailboxError,
                u32::from(code),
            )
        }
        ReplyKind::StateRefused(code) => {
            add_coded(alloc, line, "AL status ", Family::AlStatus, u32::from(code))
        }
        ReplyKind::Handed => line.add(b"handed over"),
    }
}

/// What a service of a slave came to: the value that it brought, by its type, or how it ended.
#[tactic(auto, unfolding(crate::specs::Results::result_text))]
pub fn add_result(
    alloc: Global,
    line: &mut Octets,
    slave: &SlaveSpec,
    service: &Service,
    kind: ReplyKind,
    value: &[u8],
) -> Result<(), NoMemory>
    ensures { OnOk result (line.new ≡ line.old ++ result_text slave.now service.now kind value.now) }
{
    match kind {
        ReplyKind::Value => add_brought(alloc, line, slave, service, value),
        _ => add_ended(alloc, line, kind),
    }
}
