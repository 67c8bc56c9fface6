ghost use Rattle.std.specs.Prelude.{◌≡◌, ◌≤◌, ◌<◌, ◌^◌, ◌+◌, ◌*◌, length, All, sum_by};
ghost use Rattle.std.specs.Option.{option_copied};
ghost use Rattle.segment_plan.specs.Bound.{most_at, most_of, own_most, object_of, entry_most, sdo_size, smaller, mails_of, spread, file_of, busy_of, emitted, state_work, work_of, addressed_work, services_work, host_work, slowest, bound_of};
ghost use Rattle.segment_plan.specs.Sound.{IsSlave, IsSdo, IsService, IsAddressed, IsPacket, IsPace, IsLaid};

use crate::plan::Scenario;
use crate::service::Service;
use crate::slave::{ObjectSpec, SlaveSpec};
use ec_fields::Octets;
use eoe::Packet;
use file_store::FileSpec;
use object_dictionary::{EntrySpec, SdoService};

/// The object code of a variable.
const VARIABLE: u8 = 7;
/// The profile's object for emergencies.
const EMERGENCY: u16 = 0x2F00;
/// The profile's object for packets.
const PACKET: u16 = 0x2F01;

fn most_at(entries: &[EntrySpec], place: usize) -> u32
    ensures { result ≡ most_at entries.now place }
{
    match entries.get(place) {
        Some(entry) => entry.most,
        None => 0,
    }
}

/// The greatest size of the entry at a subindex.
fn most_of(object: &ObjectSpec, sub: u8) -> u32
    ensures { result ≡ most_of object.now sub }
{
    let entries = object.entries.as_slice();
    if object.code == VARIABLE {
        most_at(entries, usize::from(sub))
    } else if sub == 0 {
        1
    } else {
        most_at(entries, usize::from(sub - 1))
    }
}

fn own_most(most: u32, sub: u8) -> u32
    ensures { result ≡ own_most most sub }
{
    if sub == 0 {
        1
    } else if sub == 1 {
        most
    } else {
        0
    }
}

fn object_of(slave: &SlaveSpec, index: u16) -> Option<&ObjectSpec>
    ensures { option_copied result ≡ object_of slave.now index }
{
    slave
        .objects
        .as_slice()
        .iter()
        .find(|object| object.index == index)
}

fn entry_most(slave: &SlaveSpec, index: u16, sub: u8) -> u32
    ensures { result ≡ entry_most slave.now index sub }
{
    if slave.coe && index == EMERGENCY {
        own_most(8, sub)
    } else if slave.coe && slave.eoe && index == PACKET {
        own_most(1514, sub)
    } else {
        match object_of(slave, index) {
            Some(object) => most_of(object, sub),
            None => 0,
        }
    }
}

fn sdo_size(slave: &SlaveSpec, service: &SdoService) -> u64
    requires { IsSdo service.now }
    ensures value { result ≡ sdo_size slave.now service.now }
    ensures within { result < 2 ^ 32 }
{
    match service {
        SdoService::Download { bytes, .. } => bytes.len() as u64,
        SdoService::Upload { index, sub } => u64::from(entry_most(slave, *index, *sub)),
        SdoService::DownloadAll { bytes, .. } => bytes.len() as u64,
        SdoService::UploadAll { .. } => 16_000,
        SdoService::List { .. } => 1024,
        SdoService::ObjectInfo { .. } => 64,
        SdoService::EntryInfo { .. } => 64,
    }
}

/// The length of a slave's smaller mailbox.
pub fn smaller(slave: &SlaveSpec) -> u16
    ensures { result ≡ smaller slave.now }
{
    if slave.out_len <= slave.in_len {
        slave.out_len
    } else {
        slave.in_len
    }
}

/// The mails of so many octets: each exchange of a third of the smaller mailbox counts two.
fn mails_of(slave: &SlaveSpec, size: u64) -> u64
    requires slave { IsSlave slave.now }
    requires size { size < 2 ^ 32 }
    ensures value { result ≡ mails_of slave.now size }
    ensures within { result ≤ 2 ^ 33 + 8 }
{
    let third = u64::from(smaller(slave)) / 3;
    6 + 2 * (size / third + 1)
}

/// A packet at each of `n` slaves and the host, and what that leads to.
fn spread(n: u64, size: usize) -> u64
    requires few { n ≤ 16 }
    requires size { size ≤ 8000 }
    ensures value { result ≡ spread n size }
    ensures within { result ≤ 72250 }
{
    let parts = (size as u64 + 31) / 32;
    let seats = (n + 1) * (n + 1);
    parts * seats
}

fn file_of<'a>(slave: &'a SlaveSpec, name: &[u8]) -> Option<&'a (FileSpec, Octets)>
    ensures { option_copied result ≡ file_of slave.now name.now }
{
    slave
        .files
        .as_slice()
        .iter()
        .find(|file| file.0.name.as_slice() == name)
}

fn busy_of(slave: &SlaveSpec, name: &[u8]) -> u8
    ensures { result ≡ busy_of slave.now name.now }
{
    match file_of(slave, name) {
        Some(file) => file.0.busy,
        None => 0,
    }
}

fn emitted(n: u64, service: &SdoService) -> u64
    requires few { n ≤ 16 }
    requires sdo { IsSdo service.now }
    ensures value { result ≡ emitted n service.now }
    ensures within { result ≤ 72250 }
{
    match service {
        SdoService::Download { index, sub, bytes } if *index == PACKET && *sub == 1 => {
            spread(n, bytes.len())
        }
        SdoService::Download { .. }
        | SdoService::Upload { .. }
        | SdoService::DownloadAll { .. }
        | SdoService::UploadAll { .. }
        | SdoService::List { .. }
        | SdoService::ObjectInfo { .. }
        | SdoService::EntryInfo { .. } => 0,
    }
}

fn state_work(target: u8) -> u64
    ensures value { result ≡ state_work target }
    ensures within { result ≤ 24 }
{
    if target == 1 || target == 3 { 24 } else { 8 }
}

/// What a service counts at one of `n` slaves.
fn work_of(n: u64, slave: &SlaveSpec, service: &Service) -> u64
    requires few { n ≤ 16 }
    requires slave { IsSlave slave.now }
    requires service { IsService service.now }
    ensures value { result ≡ work_of n slave.now service.now }
    ensures within { result ≤ 2 ^ 34 }
{
    match service {
        Service::Sdo(sdo) => mails_of(slave, sdo_size(slave, sdo)) + emitted(n, sdo),
        Service::ReadFile { .. } => mails_of(slave, 128 * u64::from(slave.blocks)),
        Service::WriteFile { name, bytes, .. } => {
            mails_of(slave, bytes.len() as u64) + 2 * u64::from(busy_of(slave, name.as_slice()))
        }
        Service::ReadIdn { .. } => mails_of(slave, 4096),
        Service::WriteIdn { bytes, .. } => mails_of(slave, bytes.len() as u64),
        Service::SetIp { .. } => mails_of(slave, 64),
        Service::GetIp => mails_of(slave, 64),
        Service::State { target } => state_work(*target),
        Service::Forward(packet) => spread(n, packet.len()),
    }
}

fn addressed_work(slaves: &[SlaveSpec], slave: u32, service: &Service) -> u64
    requires few { length slaves.now ≤ 16 }
    requires slaves { All IsSlave slaves.now }
    requires service { IsService service.now }
    ensures value { result ≡ addressed_work slaves.now (slave, service.now) }
    ensures within { result ≤ 2 ^ 34 }
{
    match slaves.get(slave as usize) {
        Some(spec) => work_of(slaves.len() as u64, spec, service),
        None => 0,
    }
}

fn services_work(slaves: &[SlaveSpec], services: &[(u32, Service)]) -> u64
    requires few { length slaves.now ≤ 16 }
    requires slaves { All IsSlave slaves.now }
    requires services { All (IsAddressed (length slaves.now)) services.now }
    requires few_services { length services.now ≤ 4096 }
    ensures value { result ≡ services_work slaves.now services.now }
    ensures within { result ≤ 2 ^ 34 * length services.now }
{
    let mut work = 0;
    for (slave, service) in services {
        work += addressed_work(slaves, *slave, service);
    }
    work
}

fn host_work(n: u64, host: &[Packet]) -> u64
    requires few { n ≤ 16 }
    requires host { All IsPacket host.now }
    requires few_packets { length host.now ≤ 4096 }
    ensures value { result ≡ host_work n host.now }
    ensures within { result ≤ 72250 * length host.now }
{
    let mut work = 0;
    for packet in host {
        work += spread(n, packet.len());
    }
    work
}

fn slowest(paces: &[u32]) -> u32
    requires { All IsPace paces.now }
    ensures value { result ≡ slowest paces.now }
    ensures within { result ≤ 16 }
{
    let mut slowest = 0;
    for pace in paces {
        if slowest < *pace {
            slowest = *pace;
        }
    }
    slowest
}

/// The frames that a step of work takes, of `n` slaves of which the slowest has this pace.
fn frames_of(slowest: u32, n: u64) -> u64
    requires pace { slowest ≤ 16 }
    requires few { n ≤ 16 }
    ensures value { result ≡ 16 * slowest * (n + 1) }
    ensures within { result ≤ 4352 }
{
    16 * u64::from(slowest) * (n + 1)
}

fn product(frames: u64, work: u64) -> u64
    requires frames { frames ≤ 4352 }
    requires work { work ≤ 2 ^ 50 }
    ensures { result ≡ frames * work }
{
    frames * work
}

/// The frame bound: the most frames that a run of the plan takes, or a serving of it that hears so many datagrams.
pub fn bound(scenario: &Scenario, grams: u32) -> u64
    requires { IsLaid scenario.now }
    ensures { result ≡ bound_of scenario.now grams }
{
    let slaves = scenario.slaves.as_slice();
    let n = slaves.len() as u64;
    let services = services_work(slaves, scenario.services.as_slice());
    let host = host_work(n, scenario.host.as_slice());
    let work = services + host + 128 * u64::from(grams) + scenario.lose.len() as u64 + 2 * n;
    let frames = frames_of(slowest(scenario.paces.as_slice()), n);
    product(frames, work)
}
