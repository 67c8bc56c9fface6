ghost use Rattle.std.specs.Prelude.{◌≡◌, map, IfOk};
ghost use Rattle.toml.specs.View.{table_view};
ghost use Rattle.scenario_values.specs.of_segment_plan.Sound.{IsSlave};
ghost use Rattle.scenario_values.specs.of_scenario_keys.Reading.{Gives};
ghost use Rattle.scenario_slaves.specs.Plain.{HasMac};
ghost use Rattle.scenario_slaves.specs.Distinct.{IsDistinct};
ghost use Rattle.scenario_slaves.specs.Slave.{slave_keys, slave_of};

use crate::files::files;
use crate::idns::idns;
use crate::plain::plain_slave;
use scenario_keys::{Place, Stop, only_known};
use scenario_values::{objects, tables_or_none};
use segment_plan::SlaveSpec;
use std::alloc::Global;
use toml::Table;

/// The keys of a slave in version 1.
const KEYS: &[&str] = &[
    "name", "station", "mail", "serves", "boot", "start", "blocks", "mac", "fixed_ip", "object",
    "file", "idn",
];

/// The keys of a slave in version 2.
const KEYS_WITH_PACE: &[&str] = &[
    "name", "station", "pace", "mail", "serves", "boot", "start", "blocks", "mac", "fixed_ip",
    "object", "file", "idn",
];

fn known_keys(version: u32) -> &'static [&'static str]
    ensures { map (λ k. k.now) result.now ≡ slave_keys version }
{
    if version == 2 { KEYS_WITH_PACE } else { KEYS }
}

/// A slave: its plain keys, the lengths of its lists, then its objects, files and IDNs.
#[tactic(auto, unfolding(crate::specs::Slave::slave_of))]
pub(crate) fn slave(
    alloc: Global,
    table: &Table,
    version: u32,
    number: u32,
) -> Result<SlaveSpec, Stop>
    ensures gives { Gives (λ s. s) result (slave_of version number (table_view table.now)) }
    ensures sound { IfOk result IsSlave }
    ensures distinct { IfOk result IsDistinct }
    ensures mac { IfOk result HasMac }
{
    let place = Place::Slave(number);
    only_known(table, known_keys(version), place)?;
    let mut spec = plain_slave(alloc, table, version, place)?;
    let object_tables = tables_or_none(alloc, table, "object", 256, place)?;
    let file_tables = tables_or_none(alloc, table, "file", 32, place)?;
    let idn_tables = tables_or_none(alloc, table, "idn", 256, place)?;
    spec.objects = objects(alloc, object_tables.as_slice(), number)?;
    spec.files = files(alloc, file_tables.as_slice(), number, spec.blocks)?;
    spec.idns = idns(alloc, idn_tables.as_slice(), number)?;
    Ok(spec)
}
