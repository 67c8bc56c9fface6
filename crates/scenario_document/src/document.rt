ghost use Rattle.std.specs.Prelude.{IfOk};
ghost use Rattle.toml.specs.View.{table_view};
ghost use Rattle.scenario_services.specs.of_segment_plan.Sound.{IsLaid};
ghost use Rattle.scenario_services.specs.of_scenario_keys.Reading.{Gives};
ghost use Rattle.scenario_document.specs.Told.{IsTold};
ghost use Rattle.scenario_document.specs.Tables.{tables_of};

use crate::host::packets;
use crate::losses::lose;
use crate::top::{budget, slave_tables, version};
use scenario_keys::{Place, Stop, integer_or, needed_integer, only_known};
use scenario_services::services;
use scenario_slaves::{paces, slaves};
use scenario_values::tables_or_none;
use segment_plan::Scenario;
use std::alloc::Global;
use toml::Table;

/// The keys of the top.
const KEYS: &[&str] = &[
    "version", "retry", "recover", "budget", "lose", "slave", "service", "host",
];

/// The keys of the top, the slaves with all that stands in them, the services and the packets of the host.
#[tactic(auto, unfolding(crate::specs::Tables::tables_of))]
pub fn tables(alloc: Global, table: &Table) -> Result<Scenario, Stop>
    ensures gives { Gives (λ s. s) result (tables_of (table_view table.now)) }
    ensures sound { IfOk result IsLaid }
    ensures told { IfOk result IsTold }
{
    let version = version(table)?;
    only_known(table, KEYS, Place::Top)?;
    let retry = needed_integer(table, "retry", 0, 15, Place::Top)?;
    let recover = integer_or(table, "recover", 0, 0, 15, Place::Top)?;
    let budget = budget(table)?;
    let lose = lose(alloc, table)?;
    let slave_tables = slave_tables(alloc, table)?;
    let service_tables = tables_or_none(alloc, table, "service", 4096, Place::Top)?;
    let host_tables = tables_or_none(alloc, table, "host", 4096, Place::Top)?;
    let slaves = slaves(alloc, slave_tables.as_slice(), version)?;
    let paces = paces(alloc, slave_tables.as_slice(), version)?;
    let services = services(alloc, service_tables.as_slice(), slaves.as_slice())?;
    let host = packets(alloc, host_tables.as_slice())?;
    Ok(Scenario {
        retry: retry as u32,
        recover: recover as u32,
        budget,
        lose,
        slaves,
        services,
        host,
        paces,
    })
}
