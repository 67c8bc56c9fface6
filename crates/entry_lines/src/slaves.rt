ghost use Rattle.std.specs.Prelude.{◌≡◌, ◌++◌, map, option_copied, IfOk, OnOk};
ghost use Rattle.std.specs.List.{flat_map};
ghost use Rattle.entry_lines.specs.Slaves.{text_in, name_list, names_in, station_text, station_item, name_item, there, stations_text, no_station_line, no_name_line, no_slave_line};

use ec_fields::{NoMemory, Octets};
use entry_words::station_of;
use near_words::{add_hint, near};
use segment_plan::SlaveSpec;
use std::alloc::Global;
use std::str;
use value_texts::{add_quoted, behind_comma};

// A station address.
#[tactic(auto, unfolding(crate::specs::Slaves::station_text))]
fn add_station(alloc: Global, line: &mut Octets, station: u16) -> Result<(), NoMemory>
    ensures { OnOk result (line.new ≡ line.old ++ station_text station) }
{
    let digits = format!(in alloc; "0x{station:04x}")?;
    line.add(digits.as_bytes())?;
    Ok(())
}

// A slave with its station, behind a comma.
#[tactic(auto, unfolding(crate::specs::Slaves::station_item))]
fn add_station_item(alloc: Global, items: &mut Octets, slave: &SlaveSpec) -> Result<(), NoMemory>
    ensures { OnOk result (items.new ≡ items.old ++ station_item slave.now) }
{
    items.add(b", ")?;
    items.add(slave.name.bytes())?;
    items.add(b" ")?;
    add_station(alloc, items, slave.station)?;
    Ok(())
}

fn station_items(alloc: Global, slaves: &[SlaveSpec]) -> Result<Octets, NoMemory>
    ensures { IfOk result (λ items. items ≡ flat_map station_item slaves.now) }
{
    let mut items = Octets::new(alloc);
    for slave in slaves {
        add_station_item(alloc, &mut items, slave)?;
    }
    Ok(items)
}

// A slave's name in quotes, behind a comma.
#[tactic(auto, unfolding(crate::specs::Slaves::name_item))]
fn add_name_item(alloc: Global, items: &mut Octets, slave: &SlaveSpec) -> Result<(), NoMemory>
    ensures { OnOk result (items.new ≡ items.old ++ name_item slave.now) }
{
    items.add(b", ")?;
    add_quoted(alloc, items, slave.name.bytes())?;
    Ok(())
}

fn name_items(alloc: Global, slaves: &[SlaveSpec]) -> Result<Octets, NoMemory>
    ensures { IfOk result (λ items. items ≡ flat_map name_item slaves.now) }
{
    let mut items = Octets::new(alloc);
    for slave in slaves {
        add_name_item(alloc, &mut items, slave)?;
    }
    Ok(items)
}

// How so many are told.
fn there(slaves: &[SlaveSpec]) -> &'static [u8]
    ensures { result.now ≡ there slaves.now }
{
    if slaves.len() == 1 {
        b"; there is "
    } else {
        b"; there are "
    }
}

// Octets as a text, where they are one of UTF-8.
fn text_of(octets: &[u8]) -> Option<&str>
    ensures { option_copied result ≡ text_in octets.now }
{
    match str::from_utf8(octets) {
        Ok(text) => Some(text),
        Err(_) => None,
    }
}

// Puts a slave's name behind others, where it is a text.
fn add_name<'a>(names: &mut Vec<&'a str>, slave: &'a SlaveSpec) -> Result<(), NoMemory>
    ensures { OnOk result (map (λ name. name.now) names.new.items ≡ map (λ name. name.now) names.old.items ++ name_list slave.now) }
{
    if let Some(name) = text_of(slave.name.bytes()) {
        names.push(name)?;
    }
    Ok(())
}

// The slaves' names as texts.
fn names<'a>(alloc: Global, slaves: &'a [SlaveSpec]) -> Result<Vec<&'a str>, NoMemory>
    ensures { IfOk result (λ names. map (λ name. name.now) names.items ≡ names_in slaves.now) }
{
    let mut names = Vec::new(alloc);
    for slave in slaves {
        add_name(&mut names, slave)?;
    }
    Ok(names)
}

// The slaves that there are, with their stations.
#[tactic(auto, unfolding(crate::specs::Slaves::stations_text))]
fn add_stations(alloc: Global, line: &mut Octets, slaves: &[SlaveSpec]) -> Result<(), NoMemory>
    ensures { OnOk result (line.new ≡ line.old ++ stations_text slaves.now) }
{
    let items = station_items(alloc, slaves)?;
    line.add(b"; there are ")?;
    line.add(behind_comma(items.bytes()))?;
    Ok(())
}

// No slave has a station.
#[tactic(auto, unfolding(crate::specs::Slaves::no_station_line))]
fn no_station(alloc: Global, slaves: &[SlaveSpec], station: u16) -> Result<Octets, NoMemory>
    ensures { IfOk result (λ line. line ≡ no_station_line slaves.now station) }
{
    let mut line = Octets::copy_of(alloc, b"no slave has the station ")?;
    add_station(alloc, &mut line, station)?;
    add_stations(alloc, &mut line, slaves)?;
    line.add(b"\n")?;
    Ok(line)
}

// No slave has a name.
#[tactic(auto, unfolding(crate::specs::Slaves::no_name_line))]
fn no_name(alloc: Global, slaves: &[SlaveSpec], word: &str) -> Result<Octets, NoMemory>
    ensures { IfOk result (λ line. line ≡ no_name_line slaves.now word.now) }
{
    let items = name_items(alloc, slaves)?;
    let names = names(alloc, slaves)?;
    let meant = near(alloc, names.as_slice(), word)?;
    let mut line = Octets::copy_of(alloc, b"no slave is named ")?;
    add_quoted(alloc, &mut line, word.as_bytes())?;
    line.add(there(slaves))?;
    line.add(behind_comma(items.bytes()))?;
    add_hint(&mut line, meant)?;
    line.add(b"\n")?;
    Ok(line)
}

/// The line where no slave of a plan is the one that a word means: which there are, and for a name the one that may be meant.
#[tactic(auto, unfolding(crate::specs::Slaves::no_slave_line))]
pub fn no_slave(alloc: Global, slaves: &[SlaveSpec], word: &str) -> Result<Octets, NoMemory>
    ensures { IfOk result (λ line. line ≡ no_slave_line slaves.now word.now) }
{
    match station_of(word) {
        Some(station) => no_station(alloc, slaves, station),
        None => no_name(alloc, slaves, word),
    }
}
