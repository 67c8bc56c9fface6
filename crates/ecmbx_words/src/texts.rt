ghost use Rattle.std.specs.Prelude.{◌≡◌, ◌≢◌, ◌++◌, codes, IfOk, string_bytes};
ghost use Rattle.pcap_frames.specs.declared.capture.PcapFault.TheVariants as faults;
ghost use Rattle.std.specs.Fmt.{decimal};
ghost use Rattle.ecmbx_words.specs.Texts.{usage_line, absent_line, long_line, fault_line, place_text, refusal_line, capture_line, station_line, yes_line, no_line};

use ec_fields::{NoMemory, Octets};
use pcap_frames::PcapFault;
use scenario_keys::Place;
use std::alloc::Global;

/// The forms of the command line.
pub fn usage() -> &'static [u8]
    ensures { result.now ≡ usage_line }
{
    b"usage: ecmbx run SCENARIO [CAPTURE] | decode CAPTURE | serve SCENARIO COUNT | make SEED SIZE | stream SCENARIO COUNT | audit CAPTURE | ask STATION OUT IN DO ARGS\n"
}

pub fn absent() -> &'static [u8]
    ensures { result.now ≡ absent_line }
{
    b"absent\n"
}

pub fn too_long() -> &'static [u8]
    ensures { result.now ≡ long_line }
{
    b"too long\n"
}

pub fn file_fault() -> &'static [u8]
    ensures { result.now ≡ fault_line }
{
    b"file fault\n"
}

/// The last line of an audit that no datagram fails.
pub fn audit_yes() -> &'static [u8]
    ensures { result.now ≡ yes_line }
{
    b"audit yes\n"
}

/// A station of an audit, and how many mails were sent there and accepted.
pub fn station_text(
    alloc: Global,
    station: u16,
    sent: usize,
    accepted: usize,
) -> Result<Octets, NoMemory>
    ensures { IfOk result (λ line. line ≡ station_line station sent accepted) }
{
    let text = format!(in alloc; "station {station:04x} sent {sent} accepted {accepted}\n")?;
    Octets::copy_of(alloc, text.as_bytes())
}

/// The line of an audit that a datagram fails: the rule's number, and the packet.
pub fn audit_no(alloc: Global, rule: u8, packet: u32) -> Result<Octets, NoMemory>
    ensures { IfOk result (λ line. line ≡ no_line rule packet) }
{
    let text = format!(in alloc; "audit no A{rule} at {packet}\n")?;
    Octets::copy_of(alloc, text.as_bytes())
}

fn place_words(alloc: Global, place: Place) -> Result<String, NoMemory>
    ensures { IfOk result (λ text. string_bytes text ≡ place_text place) }
{
    match place {
        Place::Top => Ok(format!(in alloc; "top")?),
        Place::Slave(i) => Ok(format!(in alloc; "slave {i}")?),
        Place::Object(i, k) => Ok(format!(in alloc; "object {i} {k}")?),
        Place::Entry(i, k, n) => Ok(format!(in alloc; "entry {i} {k} {n}")?),
        Place::File(i, k) => Ok(format!(in alloc; "file {i} {k}")?),
        Place::Idn(i, k) => Ok(format!(in alloc; "idn {i} {k}")?),
        Place::Service(i) => Ok(format!(in alloc; "service {i}")?),
        Place::Host(i) => Ok(format!(in alloc; "host {i}")?),
    }
}

/// A refusal by the rule of a number, at a place.
pub fn refusal(alloc: Global, rule: u8, place: Place) -> Result<Octets, NoMemory>
    ensures { IfOk result (λ line. line ≡ refusal_line rule place) }
{
    let head = format!(in alloc; "refused S{rule} at ")?;
    let words = place_words(alloc, place)?;
    let mut line = Octets::copy_of(alloc, head.as_bytes())?;
    line.add(words.as_bytes())?;
    line.add(b"\n")?;
    Ok(line)
}

fn numbered(alloc: Global, number: u8) -> Result<Octets, NoMemory>
    ensures { IfOk result (λ line. line ≡ codes "refused P" ++ (decimal number ++ codes "\n")) }
{
    let text = format!(in alloc; "refused P{number}\n")?;
    Octets::copy_of(alloc, text.as_bytes())
}

fn placed(alloc: Global, number: u8, at: usize) -> Result<Octets, NoMemory>
    ensures { IfOk result (λ line. line ≡ codes "refused P" ++ (decimal number ++ (codes " at " ++ (decimal at ++ codes "\n")))) }
{
    let text = format!(in alloc; "refused P{number} at {at}\n")?;
    Octets::copy_of(alloc, text.as_bytes())
}

/// A refusal of a capture: the number of its fault, and the fault's place where it has one. `NoMemory` is want of memory,
/// here or as the fault.
pub fn capture_refusal(alloc: Global, fault: PcapFault) -> Result<Octets, NoMemory>
    ensures line { IfOk result (λ line. line ≡ capture_line fault) }
    ensures told { IfOk result (λ line. fault ≢ faults.NoMemory) }
{
    match fault {
        PcapFault::Short { at } => placed(alloc, 1, at),
        PcapFault::Magic => numbered(alloc, 2),
        PcapFault::Version => numbered(alloc, 3),
        PcapFault::LinkType => numbered(alloc, 4),
        PcapFault::RecordCut { at } => placed(alloc, 5, at),
        PcapFault::RecordTooLong { at } => placed(alloc, 6, at),
        PcapFault::NoMemory => Err(NoMemory),
    }
}
