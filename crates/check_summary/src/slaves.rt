ghost use Rattle.std.specs.Prelude.{◌≡◌, ◌++◌, OnOk};
ghost use Rattle.check_summary.specs.Slaves.{word_of, protocols, start_text, pace_text, services_of, station_text, slave_head, slave_counts, slave_line};

use crate::numbers::{add_count, add_number, add_some};
use ec_fields::{NoMemory, Octets};
use segment_plan::{Service, SlaveSpec};
use std::alloc::Global;

// Adds a word behind a blank, where it is to be told.
fn add_word(text: &mut Octets, is_told: bool, word: &str) -> Result<(), NoMemory>
    ensures { OnOk result (text.new ≡ text.old ++ word_of is_told word.now) }
{
    if is_told {
        text.add(b" ")?;
        text.add(word.as_bytes())?;
    }
    Ok(())
}

// Adds the protocols that a slave serves.
#[tactic(auto, unfolding(crate::specs::Slaves::protocols))]
fn add_protocols(text: &mut Octets, slave: &SlaveSpec) -> Result<(), NoMemory>
    ensures { OnOk result (text.new ≡ text.old ++ protocols slave.now) }
{
    add_word(text, slave.coe, "coe")?;
    add_word(text, slave.foe, "foe")?;
    add_word(text, slave.eoe, "eoe")?;
    add_word(text, slave.soe, "soe")?;
    let serves_some = slave.coe || slave.foe || slave.eoe || slave.soe;
    add_word(text, !serves_some, "no protocol")
}

// Adds a pace above 1.
#[tactic(auto, unfolding(crate::specs::Slaves::pace_text))]
fn add_pace(text: &mut Octets, pace: u32) -> Result<(), NoMemory>
    ensures { OnOk result (text.new ≡ text.old ++ pace_text pace) }
{
    if pace > 1 {
        text.add(b", pace ")?;
        add_number(text, u64::from(pace))?;
    }
    Ok(())
}

// Adds what is told of Bootstrap: that the slave starts there, or has it.
#[tactic(auto, unfolding(crate::specs::Slaves::start_text))]
fn add_start(text: &mut Octets, slave: &SlaveSpec) -> Result<(), NoMemory>
    ensures { OnOk result (text.new ≡ text.old ++ start_text slave.now) }
{
    if slave.start == 3 {
        text.add(b", starts in Bootstrap")?;
    } else if slave.boot {
        text.add(b", has Bootstrap")?;
    }
    Ok(())
}

/// How many services are of a slave.
#[tactic(auto, unfolding(crate::specs::Slaves::services_of))]
pub(crate) fn services_of(services: &[(u32, Service)], number: usize) -> usize
    ensures { result ≡ services_of services.now number }
{
    services
        .iter()
        .filter(|service| service.0 as usize == number)
        .count()
}

// Adds the station of a slave.
#[tactic(auto, unfolding(crate::specs::Slaves::station_text))]
fn add_station(alloc: Global, text: &mut Octets, station: u16) -> Result<(), NoMemory>
    ensures { OnOk result (text.new ≡ text.old ++ station_text station) }
{
    let digits = format!(in alloc; ": station 0x{station:04x},")?;
    text.add(digits.as_bytes())?;
    Ok(())
}

// Adds what a slave is.
#[tactic(auto, unfolding(crate::specs::Slaves::slave_head))]
fn add_head(alloc: Global, text: &mut Octets, slave: &SlaveSpec, pace: u32) -> Result<(), NoMemory>
    ensures { OnOk result (text.new ≡ text.old ++ slave_head slave.now pace) }
{
    text.add(b"slave ")?;
    text.add(slave.name.bytes())?;
    add_station(alloc, text, slave.station)?;
    add_protocols(text, slave)?;
    add_pace(text, pace)?;
    add_start(text, slave)
}

// Adds how many objects, files and IDNs a slave has.
#[tactic(auto, unfolding(crate::specs::Slaves::slave_counts))]
fn add_counts(text: &mut Octets, slave: &SlaveSpec) -> Result<(), NoMemory>
    ensures { OnOk result (text.new ≡ text.old ++ slave_counts slave.now) }
{
    add_some(text, slave.objects.len(), "object", "objects")?;
    add_some(text, slave.files.len(), "file", "files")?;
    add_some(text, slave.idns.len(), "IDN", "IDNs")
}

/// Adds the line of a slave: what it is, and how many objects, files, IDNs and services it has.
#[tactic(auto, unfolding(crate::specs::Slaves::slave_line))]
pub(crate) fn add_slave(
    alloc: Global,
    text: &mut Octets,
    slave: &SlaveSpec,
    pace: u32,
    services: usize,
) -> Result<(), NoMemory>
    ensures { OnOk result (text.new ≡ text.old ++ slave_line slave.now pace services) }
{
    add_head(alloc, text, slave, pace)?;
    add_counts(text, slave)?;
    text.add(b", ")?;
    add_count(text, services, "service", "services")?;
    text.add(b"\n")?;
    Ok(())
}
