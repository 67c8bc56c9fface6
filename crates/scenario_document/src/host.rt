ghost use Rattle.std.specs.Prelude.{◌≡◌, ◌≤◌, [], map, length, IfOk, OnOk, All};
ghost use Rattle.toml.specs.View.{table_view};
ghost use Rattle.scenario_services.specs.of_segment_plan.Sound.{IsPacket};
ghost use Rattle.scenario_services.specs.of_scenario_keys.Reading.{Gives};
ghost use Rattle.scenario_document.specs.Top.{packet_of, packets_of};

use arrayvec::ArrayVec;
use ec_fields::Rows;
use eoe::Packet;
use scenario_keys::{Place, Stop, only_known, put};
use scenario_values::needed_buffer;
use std::alloc::Global;
use toml::Table;

fn packet(table: &Table, number: u32, packet: &mut Packet) -> Result<(), Stop>
    requires { packet.old.items ≡ [] }
    ensures gives { Gives (λ _. packet.new) result (packet_of number (table_view table.now)) }
    ensures sound { OnOk result (IsPacket packet.new) }
{
    let place = Place::Host(number);
    only_known(table, &["packet"], place)?;
    needed_buffer(table, "packet", 14, place, packet)
}

/// The packets of the host in order.
pub(crate) fn packets(alloc: Global, tables: &[&Table]) -> Result<Rows<Packet>, Stop>
    requires { length tables.now ≤ 4096 }
    ensures gives { Gives (λ ps. ps) result (packets_of (map (λ t. table_view t.now) tables.now)) }
    ensures many { IfOk result (λ ps. length ps ≡ length tables.now) }
    ensures sound { IfOk result (All IsPacket) }
{
    let mut rows = Rows::new(alloc);
    for (i, table) in tables.iter().enumerate() {
        let mut row = ArrayVec::new();
        packet(table, i as u32, &mut row)?;
        put(&mut rows, row)?;
    }
    Ok(rows)
}
