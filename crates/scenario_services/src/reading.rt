ghost use Rattle.std.specs.Prelude.{◌≡◌, ◌≤◌, ◌<◌, map, length, IfOk, IfSome, OnOk, All};
ghost use Rattle.toml.specs.View.{table_view};
ghost use Rattle.scenario_values.specs.of_segment_plan.Sound.{IsSlave, IsService, IsAddressed};
ghost use Rattle.scenario_values.specs.of_scenario_keys.Reading.{Gives};
ghost use Rattle.scenario_services.specs.Suited.{Appends, sent_to};
ghost use Rattle.scenario_services.specs.Reading.{FitsSlave, IsRead};
ghost use Rattle.scenario_services.specs.Services.{slave_named, target_at, addressed_body, service_of, services_of};

use crate::actions::Action;
use crate::bodies::add_body;
use crate::key::{needed_action, only_known_of, said_action};
use ec_fields::Rows;
use scenario_keys::{Place, Rule, Stop, needed_text, refused};
use segment_plan::{Service, SlaveSpec};
use std::alloc::Global;
use toml::Table;

fn named_slave(name: &str, slaves: &[SlaveSpec]) -> Option<usize>
    ensures gives { result ≡ slave_named name.now slaves.now }
    ensures within { IfSome result (λ k. k < length slaves.now) }
{
    slaves
        .iter()
        .position(|slave| slave.name.bytes() == name.as_bytes())
}

fn target(table: &Table, slaves: &[SlaveSpec], place: Place) -> Result<u32, Stop>
    requires { length slaves.now ≤ 16 }
    ensures gives { Gives (λ k. k) result (target_at slaves.now place (table_view table.now)) }
    ensures within { IfOk result (λ k. k < length slaves.now) }
{
    match named_slave(needed_text(table, "slave", place)?, slaves) {
        Some(slave) => Ok(slave as u32),
        None => Err(refused(Rule::UnknownSlave, place)),
    }
}

fn add_addressed(
    alloc: Global,
    action: Action,
    table: &Table,
    slaves: &[SlaveSpec],
    slave: u32,
    place: Place,
    rows: &mut Rows<(u32, Service)>,
) -> Result<(), Stop>
    requires { All IsSlave slaves.now }
    ensures gives { Appends rows.old rows.new result (sent_to slave (addressed_body action slaves.now slave place (table_view table.now))) }
    ensures sound { OnOk result (IfOk (addressed_body action slaves.now slave place (table_view table.now)) IsService) }
    ensures fits { OnOk result (IfOk (addressed_body action slaves.now slave place (table_view table.now)) (λ s. FitsSlave slaves.now (slave, s))) }
{
    match slaves.get(slave as usize) {
        Some(spec) => add_body(alloc, action, table, slave, spec, place, rows),
        None => Err(refused(Rule::UnknownSlave, place)),
    }
}

/// Appends a service with the number of its slave.
#[tactic(auto, unfolding(crate::specs::Services::service_of))]
fn add_service(
    alloc: Global,
    table: &Table,
    slaves: &[SlaveSpec],
    number: u32,
    rows: &mut Rows<(u32, Service)>,
) -> Result<(), Stop>
    requires ring { length slaves.now ≤ 16 }
    requires slaves { All IsSlave slaves.now }
    ensures gives { Appends rows.old rows.new result (service_of slaves.now number (table_view table.now)) }
    ensures sound { OnOk result (IfOk (service_of slaves.now number (table_view table.now)) (IsRead slaves.now)) }
{
    let place = Place::Service(number);
    let said = said_action(table);
    only_known_of(table, said, place)?;
    let slave = target(table, slaves, place)?;
    let action = needed_action(table, said, place)?;
    add_addressed(alloc, action, table, slaves, slave, place, rows)
}

/// The services in order, each with the number of its slave.
pub fn services(
    alloc: Global,
    tables: &[&Table],
    slaves: &[SlaveSpec],
) -> Result<Rows<(u32, Service)>, Stop>
    requires few { length tables.now ≤ 4096 }
    requires ring { length slaves.now ≤ 16 }
    requires slaves { All IsSlave slaves.now }
    ensures gives { Gives (λ ss. ss) result (services_of slaves.now (map (λ t. table_view t.now) tables.now)) }
    ensures many { IfOk result (λ ss. length ss ≡ length tables.now) }
    ensures sound { IfOk result (All (IsAddressed (length slaves.now))) }
    ensures fits { IfOk result (All (FitsSlave slaves.now)) }
{
    let mut rows = Rows::new(alloc);
    for (i, table) in tables.iter().enumerate() {
        add_service(alloc, table, slaves, i as u32, &mut rows)?;
    }
    Ok(rows)
}
