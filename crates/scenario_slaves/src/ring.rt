ghost use Rattle.std.specs.Prelude.{◌≡◌, ◌≤◌, map, length, IfOk, All};
ghost use Rattle.toml.specs.View.{table_view};
ghost use Rattle.scenario_values.specs.of_segment_plan.Sound.{IsSlave, IsPace};
ghost use Rattle.scenario_values.specs.of_scenario_keys.Reading.{Gives};
ghost use Rattle.scenario_slaves.specs.Plain.{HasMac};
ghost use Rattle.scenario_slaves.specs.Distinct.{IsDistinct};
ghost use Rattle.scenario_slaves.specs.Slaves.{slaves_of, paces_of};

use crate::settings::pace;
use crate::slave::slave;
use ec_fields::Rows;
use scenario_keys::{Place, Stop, put};
use segment_plan::SlaveSpec;
use std::alloc::Global;
use toml::Table;

/// The slaves in ring order.
pub fn slaves(alloc: Global, tables: &[&Table], version: u32) -> Result<Rows<SlaveSpec>, Stop>
    requires { length tables.now ≤ 16 }
    ensures gives { Gives (λ ss. ss) result (slaves_of version (map (λ t. table_view t.now) tables.now)) }
    ensures many { IfOk result (λ ss. length ss ≡ length tables.now) }
    ensures sound { IfOk result (All IsSlave) }
    ensures distinct { IfOk result (All IsDistinct) }
    ensures macs { IfOk result (All HasMac) }
{
    let mut rows = Rows::new(alloc);
    for (i, table) in tables.iter().enumerate() {
        let row = slave(alloc, table, version, i as u32)?;
        put(&mut rows, row)?;
    }
    Ok(rows)
}

/// The paces of the slaves. Those of slaves that were read are never refused.
pub fn paces(alloc: Global, tables: &[&Table], version: u32) -> Result<Rows<u32>, Stop>
    requires { length tables.now ≤ 16 }
    ensures gives { Gives (λ ps. ps) result (paces_of version (map (λ t. table_view t.now) tables.now)) }
    ensures many { IfOk result (λ ps. length ps ≡ length tables.now) }
    ensures sound { IfOk result (All IsPace) }
{
    let mut rows = Rows::new(alloc);
    for (i, table) in tables.iter().enumerate() {
        let row = pace(table, version, Place::Slave(i as u32))?;
        put(&mut rows, row)?;
    }
    Ok(rows)
}
