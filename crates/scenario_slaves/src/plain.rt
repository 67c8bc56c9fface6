ghost use Rattle.std.specs.Prelude.{IfOk};
ghost use Rattle.toml.specs.View.{table_view};
ghost use Rattle.scenario_values.specs.of_segment_plan.Sound.{IsSlave};
ghost use Rattle.scenario_values.specs.of_scenario_keys.Reading.{Gives};
ghost use Rattle.scenario_slaves.specs.Plain.{HasMac, plain_slave_of};

use crate::protocols::serves;
use crate::settings::{mac, pace, start};
use ec_fields::{Octets, Rows};
use scenario_keys::{
    Place, Stop, bool_or_false, integer_or, needed_integer, needed_name, needed_pair,
};
use segment_plan::SlaveSpec;
use std::alloc::Global;
use toml::Table;

/// What a slave's plain keys say, without its lists.
#[tactic(auto, unfolding(crate::specs::Plain::plain_slave_of))]
pub(crate) fn plain_slave(
    alloc: Global,
    table: &Table,
    version: u32,
    place: Place,
) -> Result<SlaveSpec, Stop>
    ensures gives { Gives (λ s. s) result (plain_slave_of version place (table_view table.now)) }
    ensures sound { IfOk result IsSlave }
    ensures mac { IfOk result HasMac }
{
    let name = needed_name(table, "name", place)?;
    let station = needed_integer(table, "station", 1, 0xFFFF, place)?;
    pace(table, version, place)?;
    let (out_len, in_len) = needed_pair(table, "mail", 64, 1486, place)?;
    let served = serves(alloc, table, place)?;
    let boot = bool_or_false(table, "boot", place)?;
    let start = start(table, boot, place)?;
    let blocks = integer_or(table, "blocks", 64, 1, 1024, place)?;
    let mac = mac(table, served.eoe, place)?;
    let fixed_ip = bool_or_false(table, "fixed_ip", place)?;
    Ok(SlaveSpec {
        name: Octets::copy_of(alloc, name.as_bytes())?,
        station: station as u16,
        out_len: out_len as u16,
        in_len: in_len as u16,
        coe: served.coe,
        foe: served.foe,
        eoe: served.eoe,
        soe: served.soe,
        boot,
        start,
        blocks: blocks as u32,
        mac,
        fixed_ip,
        objects: Rows::new(alloc),
        files: Rows::new(alloc),
        idns: Rows::new(alloc),
    })
}
