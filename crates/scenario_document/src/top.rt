ghost use Rattle.std.specs.Prelude.{◌≡◌, ◌≤◌, map, length, IfOk, IfSome};
ghost use Rattle.toml.specs.View.{table_view};
ghost use Rattle.scenario_services.specs.of_scenario_keys.Reading.{Gives};
ghost use Rattle.scenario_document.specs.Top.{version_of, version_at, budget_at, slave_tables_at};

use scenario_keys::{Place, Rule, Stop, find, integer, needed, number, refused, unless};
use scenario_values::needed_tables;
use std::alloc::Global;
use toml::Table;

fn version_of(number: i64) -> Option<u32>
    ensures { result ≡ version_of number }
{
    match number {
        1 => Some(1),
        2 => Some(2),
        _ => None,
    }
}

/// The version of the format, which comes before all else.
pub(crate) fn version(table: &Table) -> Result<u32, Stop>
    ensures { Gives (λ n. n) result (version_at (table_view table.now)) }
{
    let value = needed(table, "version", Place::Top)?;
    match version_of(number(value, Place::Top)?) {
        Some(version) => Ok(version),
        None => Err(refused(Rule::WrongVersion, Place::Top)),
    }
}

/// The most frames that a run sends, where the key is there.
pub(crate) fn budget(table: &Table) -> Result<Option<u32>, Stop>
    ensures gives { Gives (λ n. n) result (budget_at (table_view table.now)) }
    ensures within { IfOk result (λ o. IfSome o (λ n. (1 ≤ n) × (n ≤ 100000000))) }
{
    match find(table, "budget") {
        Some(value) => {
            let budget = integer(value, 1, 100_000_000, Place::Top)?;
            Ok(Some(budget as u32))
        }
        None => Ok(None),
    }
}

/// The tables of the slaves, of which there is one at least.
pub(crate) fn slave_tables(alloc: Global, table: &Table) -> Result<Vec<&Table>, Stop>
    ensures gives { Gives (λ ts. map (λ t. table_view t.now) ts.items) result (slave_tables_at (table_view table.now)) }
    ensures within { IfOk result (λ ts. (1 ≤ length ts.items) × (length ts.items ≤ 16)) }
{
    let tables = needed_tables(alloc, table, "slave", 16, Place::Top)?;
    unless(1 <= tables.len(), Rule::OutOfRange, Place::Top)?;
    Ok(tables)
}
