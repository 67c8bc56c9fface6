ghost use Rattle.std.specs.Prelude.{◌≡◌, ◌++◌, OnOk};
ghost use Rattle.service_texts.specs.Services.{place_text, object_place, from_text, download_text, upload_text, whole_place, download_all_text, list_service, sdo_text, named, sized, write_file_text, idn_place, write_idn_text, set_ip_text, target_text, service_text};

use crate::packets::add_gets;
use crate::states::add_state;
use ec_fields::{NoMemory, Octets};
use object_dictionary::SdoService;
use segment_plan::{Service, SlaveSpec};
use std::alloc::Global;
use value_texts::{
    add_block, add_element, add_idn_value, add_names, add_object_name, add_quoted, add_value,
    add_whole, kind_at,
};

// An index and a subindex, `2100:01`, behind a word.
#[tactic(auto, unfolding(crate::specs::Services::place_text))]
fn add_place(
    alloc: Global,
    line: &mut Octets,
    word: &str,
    index: u16,
    sub: u8,
) -> Result<(), NoMemory>
    ensures { OnOk result (line.new ≡ line.old ++ place_text word.now index sub) }
{
    let place = format!(in alloc; "{index:04x}:{sub:02x}")?;
    line.add(word.as_bytes())?;
    line.add(place.as_bytes())?;
    Ok(())
}

// An index behind a word.
#[tactic(auto, unfolding(crate::specs::Services::object_place))]
fn add_index(alloc: Global, line: &mut Octets, word: &str, index: u16) -> Result<(), NoMemory>
    ensures { OnOk result (line.new ≡ line.old ++ object_place word.now index) }
{
    let place = format!(in alloc; "{index:04x}")?;
    line.add(word.as_bytes())?;
    line.add(place.as_bytes())?;
    Ok(())
}

// The subindex that complete access begins at.
#[tactic(auto, unfolding(crate::specs::Services::from_text))]
fn add_from(alloc: Global, line: &mut Octets, from: u8) -> Result<(), NoMemory>
    ensures { OnOk result (line.new ≡ line.old ++ from_text from) }
{
    let text = format!(in alloc; " from {from}")?;
    line.add(text.as_bytes())?;
    Ok(())
}

#[tactic(auto, unfolding(crate::specs::Services::download_text))]
fn add_download(
    alloc: Global,
    line: &mut Octets,
    slave: &SlaveSpec,
    index: u16,
    sub: u8,
    octets: &[u8],
) -> Result<(), NoMemory>
    ensures { OnOk result (line.new ≡ line.old ++ download_text slave.now index sub octets.now) }
{
    add_place(alloc, line, "download ", index, sub)?;
    add_names(alloc, line, slave, index, sub)?;
    line.add(b" = ")?;
    add_value(alloc, line, kind_at(slave, index, sub), octets)?;
    Ok(())
}

#[tactic(auto, unfolding(crate::specs::Services::upload_text))]
fn add_upload(
    alloc: Global,
    line: &mut Octets,
    slave: &SlaveSpec,
    index: u16,
    sub: u8,
) -> Result<(), NoMemory>
    ensures { OnOk result (line.new ≡ line.old ++ upload_text slave.now index sub) }
{
    add_place(alloc, line, "upload ", index, sub)?;
    add_names(alloc, line, slave, index, sub)?;
    Ok(())
}

// An object by complete access.
#[tactic(auto, unfolding(crate::specs::Services::whole_place))]
fn add_whole_place(
    alloc: Global,
    line: &mut Octets,
    word: &str,
    slave: &SlaveSpec,
    index: u16,
    from: u8,
) -> Result<(), NoMemory>
    ensures { OnOk result (line.new ≡ line.old ++ whole_place word.now slave.now index from) }
{
    add_index(alloc, line, word, index)?;
    add_object_name(alloc, line, slave, index)?;
    add_from(alloc, line, from)?;
    Ok(())
}

#[tactic(auto, unfolding(crate::specs::Services::download_all_text))]
fn add_download_all(
    alloc: Global,
    line: &mut Octets,
    slave: &SlaveSpec,
    index: u16,
    from: u8,
    octets: &[u8],
) -> Result<(), NoMemory>
    ensures { OnOk result (line.new ≡ line.old ++ download_all_text slave.now index from octets.now) }
{
    add_whole_place(alloc, line, "download_all ", slave, index, from)?;
    line.add(b" = ")?;
    add_whole(alloc, line, slave, index, from, octets)?;
    Ok(())
}

// Which list of objects is asked for.
#[tactic(auto, unfolding(crate::specs::Services::list_service))]
fn add_list_service(alloc: Global, line: &mut Octets, kind: u16) -> Result<(), NoMemory>
    ensures { OnOk result (line.new ≡ line.old ++ list_service kind) }
{
    if kind == 0 {
        return line.add(b"list counts");
    }
    if kind == 1 {
        return line.add(b"list all objects");
    }
    let text = format!(in alloc; "list kind {kind}")?;
    line.add(text.as_bytes())?;
    Ok(())
}

// A service of CoE.
#[tactic(auto, unfolding(crate::specs::Services::sdo_text))]
fn add_sdo(
    alloc: Global,
    line: &mut Octets,
    slave: &SlaveSpec,
    service: &SdoService,
) -> Result<(), NoMemory>
    ensures { OnOk result (line.new ≡ line.old ++ sdo_text slave.now service.now) }
{
    match service {
        SdoService::Download { index, sub, bytes } => {
            add_download(alloc, line, slave, *index, *sub, bytes.bytes())
        }
        SdoService::Upload { index, sub } => add_upload(alloc, line, slave, *index, *sub),
        SdoService::DownloadAll { index, from, bytes } => {
            add_download_all(alloc, line, slave, *index, *from, bytes.bytes())
        }
        SdoService::UploadAll { index, from } => {
            add_whole_place(alloc, line, "upload_all ", slave, *index, *from)
        }
        SdoService::List { kind } => add_list_service(alloc, line, *kind),
        SdoService::ObjectInfo { index } => add_index(alloc, line, "object ", *index),
        SdoService::EntryInfo { index, sub, .. } => {
            add_place(alloc, line, "entry ", *index, *sub)
        }
    }
}

// A file by its name, behind a word.
#[tactic(auto, unfolding(crate::specs::Services::named))]
fn add_named(alloc: Global, line: &mut Octets, word: &str, name: &[u8]) -> Result<(), NoMemory>
    ensures { OnOk result (line.new ≡ line.old ++ named word.now name.now) }
{
    line.add(word.as_bytes())?;
    add_quoted(alloc, line, name)?;
    Ok(())
}

// How many octets are written.
#[tactic(auto, unfolding(crate::specs::Services::sized))]
fn add_sized(alloc: Global, line: &mut Octets, size: usize) -> Result<(), NoMemory>
    ensures { OnOk result (line.new ≡ line.old ++ sized size) }
{
    let text = if size == 1 {
        format!(in alloc; " = {size} octet")?
    } else {
        format!(in alloc; " = {size} octets")?
    };
    line.add(text.as_bytes())?;
    Ok(())
}

#[tactic(auto, unfolding(crate::specs::Services::write_file_text))]
fn add_write_file(
    alloc: Global,
    line: &mut Octets,
    name: &[u8],
    size: usize,
) -> Result<(), NoMemory>
    ensures { OnOk result (line.new ≡ line.old ++ write_file_text name.now size) }
{
    add_named(alloc, line, "write_file ", name)?;
    add_sized(alloc, line, size)?;
    Ok(())
}

// An element of an IDN, behind a word.
#[tactic(auto, unfolding(crate::specs::Services::idn_place))]
fn add_idn_place(
    alloc: Global,
    line: &mut Octets,
    word: &str,
    drive: u8,
    idn: u16,
    elements: u8,
) -> Result<(), NoMemory>
    ensures { OnOk result (line.new ≡ line.old ++ idn_place word.now drive idn elements) }
{
    let place = format!(in alloc; "{idn} of drive {drive}, ")?;
    line.add(word.as_bytes())?;
    line.add(place.as_bytes())?;
    add_element(alloc, line, elements)?;
    Ok(())
}

#[tactic(auto, unfolding(crate::specs::Services::write_idn_text))]
fn add_write_idn(
    alloc: Global,
    line: &mut Octets,
    slave: &SlaveSpec,
    drive: u8,
    idn: u16,
    elements: u8,
    octets: &[u8],
) -> Result<(), NoMemory>
    ensures { OnOk result (line.new ≡ line.old ++ write_idn_text slave.now drive idn elements octets.now) }
{
    add_idn_place(alloc, line, "write_idn ", drive, idn, elements)?;
    line.add(b" = ")?;
    add_idn_value(alloc, line, slave, drive, idn, elements, octets)?;
    Ok(())
}

#[tactic(auto, unfolding(crate::specs::Services::set_ip_text))]
fn add_set_ip(alloc: Global, line: &mut Octets, block: &[u8]) -> Result<(), NoMemory>
    ensures { OnOk result (line.new ≡ line.old ++ set_ip_text block.now) }
{
    line.add(b"set_ip = ")?;
    add_block(alloc, line, block)?;
    Ok(())
}

#[tactic(auto, unfolding(crate::specs::Services::target_text))]
fn add_target(alloc: Global, line: &mut Octets, target: u8) -> Result<(), NoMemory>
    ensures { OnOk result (line.new ≡ line.old ++ target_text target) }
{
    line.add(b"state ")?;
    add_state(alloc, line, target)?;
    Ok(())
}

/// A service of a slave, with the names that its plan has for what it is about, and what is written by its type: `download 2100:01 "Motor Rated
/// current" = 2000 (UNSIGNED16)`.
#[tactic(auto, unfolding(crate::specs::Services::service_text))]
pub fn add_service(
    alloc: Global,
    line: &mut Octets,
    slave: &SlaveSpec,
    service: &Service,
) -> Result<(), NoMemory>
    ensures { OnOk result (line.new ≡ line.old ++ service_text slave.now service.now) }
{
    match service {
        Service::Sdo(sdo) => add_sdo(alloc, line, slave, sdo),
        Service::ReadFile { name, .. } => add_named(alloc, line, "read_file ", name.as_slice()),
        Service::WriteFile { name, bytes, .. } => {
            add_write_file(alloc, line, name.as_slice(), bytes.len())
        }
        Service::ReadIdn {
            drive,
            idn,
            elements,
        } => add_idn_place(alloc, line, "read_idn ", *drive, *idn, *elements),
        Service::WriteIdn {
            drive,
            idn,
            elements,
            bytes,
        } => add_write_idn(alloc, line, slave, *drive, *idn, *elements, bytes.bytes()),
        Service::SetIp { block } => add_set_ip(alloc, line, block.bytes()),
        Service::GetIp => line.add(b"get_ip"),
        Service::State { target } => add_target(alloc, line, *target),
        Service::Forward(packet) => add_gets(alloc, line, packet.as_slice()),
    }
}
