ghost use Rattle.std.specs.Prelude.{◌≡◌, ◌==◌, ◌++◌, ◌∷◌, [], if◌then◌else◌, IfOk, OnOk};
ghost use Rattle.master_node.specs.Scripts.{script_for};

use ec_fields::{NoMemory, Octets, Rows, buffer_of};
use object_dictionary::SdoService;
use segment_plan::Service;
use std::alloc::Global;

// A service of CoE of its own.
fn copy_sdo(alloc: Global, service: &SdoService) -> Result<SdoService, NoMemory>
    ensures { IfOk result (λ s. s ≡ service.now) }
{
    Ok(match service {
        SdoService::Download { index, sub, bytes } => SdoService::Download {
            index: *index,
            sub: *sub,
            bytes: Octets::copy_of(alloc, bytes.bytes())?,
        },
        SdoService::Upload { index, sub } => SdoService::Upload {
            index: *index,
            sub: *sub,
        },
        SdoService::DownloadAll { index, from, bytes } => SdoService::DownloadAll {
            index: *index,
            from: *from,
            bytes: Octets::copy_of(alloc, bytes.bytes())?,
        },
        SdoService::UploadAll { index, from } => SdoService::UploadAll {
            index: *index,
            from: *from,
        },
        SdoService::List { kind } => SdoService::List { kind: *kind },
        SdoService::ObjectInfo { index } => SdoService::ObjectInfo { index: *index },
        SdoService::EntryInfo { index, sub, info } => SdoService::EntryInfo {
            index: *index,
            sub: *sub,
            info: *info,
        },
    })
}

// A service of its own.
fn copy_service(alloc: Global, service: &Service) -> Result<Service, NoMemory>
    ensures { IfOk result (λ s. s ≡ service.now) }
{
    Ok(match service {
        Service::Sdo(sdo) => Service::Sdo(copy_sdo(alloc, sdo)?),
        Service::ReadFile { name, pass } => Service::ReadFile {
            name: buffer_of(name.as_slice()),
            pass: *pass,
        },
        Service::WriteFile { name, pass, bytes } => Service::WriteFile {
            name: buffer_of(name.as_slice()),
            pass: *pass,
            bytes: Octets::copy_of(alloc, bytes.bytes())?,
        },
        Service::ReadIdn {
            drive,
            idn,
            elements,
        } => Service::ReadIdn {
            drive: *drive,
            idn: *idn,
            elements: *elements,
        },
        Service::WriteIdn {
            drive,
            idn,
            elements,
            bytes,
        } => Service::WriteIdn {
            drive: *drive,
            idn: *idn,
            elements: *elements,
            bytes: Octets::copy_of(alloc, bytes.bytes())?,
        },
        Service::SetIp { block } => Service::SetIp {
            block: Octets::copy_of(alloc, block.bytes())?,
        },
        Service::GetIp => Service::GetIp,
        Service::State { target } => Service::State { target: *target },
        Service::Forward(packet) => Service::Forward(buffer_of(packet.as_slice())),
    })
}

// A copy of a service stands next in the script, where it is addressed to this slave.
fn put(
    alloc: Global,
    slave: u32,
    row: &(u32, Service),
    script: &mut Rows<Service>,
) -> Result<(), NoMemory>
    ensures { OnOk result (script.new ≡ (if row.now.0 == slave then script.old ++ row.now.1 ∷ [] else script.old)) }
{
    if row.0 != slave {
        return Ok(());
    }
    let service = copy_service(alloc, &row.1)?;
    script.add(service)
}

/// Copies of the services that are addressed to a slave, in order.
pub fn script_of(
    alloc: Global,
    slave: u32,
    services: &[(u32, Service)],
) -> Result<Rows<Service>, NoMemory>
    ensures { IfOk result (λ s. s ≡ script_for slave services.now) }
{
    let mut script = Rows::new(alloc);
    for row in services {
        put(alloc, slave, row, &mut script)?;
    }
    Ok(script)
}
