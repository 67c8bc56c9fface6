ghost use Rattle.std.specs.Prelude.{◌≡◌, ◌≤◌, ◌+◌, codes, length, Ok, IfOk, OnOk, true};
ghost use Rattle.toml.specs.View.{table_view};
ghost use Rattle.scenario_values.specs.of_eoe.Address.{is_block};
ghost use Rattle.scenario_values.specs.of_segment_plan.Bound.{smaller};
ghost use Rattle.scenario_values.specs.of_segment_plan.declared.service.Service.TheVariants.{GetIp};
ghost use Rattle.scenario_values.specs.of_segment_plan.Sound.{IsSlave, IsName, IsService, is_target};
ghost use Rattle.scenario_values.specs.of_scenario_keys.Reading.{Gives};
ghost use Rattle.scenario_values.specs.of_scenario_keys.Keys.{name_at};
ghost use Rattle.scenario_services.specs.Suited.{Appends, Suits, sent_to};
ghost use Rattle.scenario_services.specs.Bodies.{password_at, element_at, block_at, state_at, sdo_at, read_file_at, write_file_at, read_idn_at, write_idn_at, set_ip_at, target_state_at, body_of};

use crate::actions::{Action, SdoAction};
use crate::sdo::{sdo_body, subindex, word};
use ec_fields::{Octets, Rows, buffer_of};
use eoe::is_block;
use file_store::Name;
use scenario_keys::{Place, Rule, Stop, integer_or, needed_integer, needed_name, put, unless};
use scenario_values::needed_octets;
use segment_plan::{Service, SlaveSpec, smaller};
use std::alloc::Global;
use toml::Table;

/// The password of a file.
fn password(table: &Table, place: Place) -> Result<u32, Stop>
    ensures { Gives (λ n. n) result (password_at place (table_view table.now)) }
{
    Ok(integer_or(table, "password", 0, 0, 0xFFFF_FFFF, place)? as u32)
}

/// The name of a file.
fn file_name(table: &Table, place: Place) -> Result<Name, Stop>
    ensures gives { Gives (λ n. n.items) result (name_at (codes "name") place (table_view table.now)) }
    ensures within { IfOk result IsName }
{
    let name = needed_name(table, "name", place)?;
    Ok(buffer_of(name.as_bytes()))
}

/// A drive, an IDN and element flags.
fn element(table: &Table, place: Place) -> Result<(u8, u16, u8), Stop>
    ensures gives { Gives (λ e. e) result (element_at place (table_view table.now)) }
    ensures within { IfOk result (λ e. e.0 ≤ 7) }
{
    let drive = integer_or(table, "drive", 0, 0, 7, place)? as u8;
    let idn = word(table, "number", place)?;
    let elements = subindex(table, "elements", place)?;
    Ok((drive, idn, elements))
}

/// An address block that fits both mailboxes.
fn block(alloc: Global, table: &Table, slave: &SlaveSpec, place: Place) -> Result<Octets, Stop>
    requires { IsSlave slave.now }
    ensures gives { Gives (λ b. b) result (block_at slave.now place (table_view table.now)) }
    ensures within { IfOk result (λ b. (is_block b ≡ true) × (length b ≤ 1476)) }
    ensures fits { IfOk result (λ b. length b + 10 ≤ smaller slave.now) }
{
    let most = usize::from(smaller(slave)) - 10;
    let block = needed_octets(alloc, table, "block", 4, most, place)?;
    unless(is_block(block.bytes()), Rule::OutOfRange, place)?;
    Ok(block)
}

fn is_target(target: u64) -> bool
    ensures { result ≡ is_target target }
{
    target == 1 || target == 2 || target == 3 || target == 4 || target == 8
}

/// A target of a state service.
fn state_target(table: &Table, slave: &SlaveSpec, place: Place) -> Result<u8, Stop>
    ensures gives { Gives (λ n. n) result (state_at slave.now place (table_view table.now)) }
    ensures within { IfOk result (λ n. is_target n ≡ true) }
    ensures suits { IfOk result (λ n. n ≡ 3 → slave.now.boot ≡ true) }
{
    let target = needed_integer(table, "target", 1, 8, place)?;
    let taken = is_target(target) && (slave.boot || target != 3);
    unless(taken, Rule::OutOfRange, place)?;
    Ok(target as u8)
}

/// Appends a service of CoE, with the number of its slave.
fn add_sdo(
    alloc: Global,
    action: SdoAction,
    table: &Table,
    number: u32,
    place: Place,
    rows: &mut Rows<(u32, Service)>,
) -> Result<(), Stop>
    ensures gives { Appends rows.old rows.new result (sent_to number (sdo_at action place (table_view table.now))) }
    ensures sound { OnOk result (IfOk (sdo_at action place (table_view table.now)) IsService) }
{
    let service = sdo_body(alloc, action, table, place)?;
    put(rows, (number, Service::Sdo(service)))
}

/// Appends the reading of a file.
fn add_read_file(
    table: &Table,
    number: u32,
    place: Place,
    rows: &mut Rows<(u32, Service)>,
) -> Result<(), Stop>
    ensures gives { Appends rows.old rows.new result (sent_to number (read_file_at place (table_view table.now))) }
    ensures sound { OnOk result (IfOk (read_file_at place (table_view table.now)) IsService) }
{
    let name = file_name(table, place)?;
    let pass = password(table, place)?;
    put(rows, (number, Service::ReadFile { name, pass }))
}

/// Appends the writing of a file.
fn add_write_file(
    alloc: Global,
    table: &Table,
    number: u32,
    place: Place,
    rows: &mut Rows<(u32, Service)>,
) -> Result<(), Stop>
    ensures gives { Appends rows.old rows.new result (sent_to number (write_file_at place (table_view table.now))) }
    ensures sound { OnOk result (IfOk (write_file_at place (table_view table.now)) IsService) }
{
    let name = file_name(table, place)?;
    let pass = password(table, place)?;
    let bytes = needed_octets(alloc, table, "value", 0, 131_072, place)?;
    put(rows, (number, Service::WriteFile { name, pass, bytes }))
}

/// Appends the reading of an element of an IDN.
fn add_read_idn(
    table: &Table,
    number: u32,
    place: Place,
    rows: &mut Rows<(u32, Service)>,
) -> Result<(), Stop>
    ensures gives { Appends rows.old rows.new result (sent_to number (read_idn_at place (table_view table.now))) }
    ensures sound { OnOk result (IfOk (read_idn_at place (table_view table.now)) IsService) }
{
    let (drive, idn, elements) = element(table, place)?;
    let service = Service::ReadIdn {
        drive,
        idn,
        elements,
    };
    put(rows, (number, service))
}

/// Appends the writing of an element of an IDN.
fn add_write_idn(
    alloc: Global,
    table: &Table,
    number: u32,
    place: Place,
    rows: &mut Rows<(u32, Service)>,
) -> Result<(), Stop>
    ensures gives { Appends rows.old rows.new result (sent_to number (write_idn_at place (table_view table.now))) }
    ensures sound { OnOk result (IfOk (write_idn_at place (table_view table.now)) IsService) }
{
    let (drive, idn, elements) = element(table, place)?;
    let bytes = needed_octets(alloc, table, "value", 1, 4096, place)?;
    let service = Service::WriteIdn {
        drive,
        idn,
        elements,
        bytes,
    };
    put(rows, (number, service))
}

/// Appends the setting of the address block.
fn add_set_ip(
    alloc: Global,
    table: &Table,
    number: u32,
    slave: &SlaveSpec,
    place: Place,
    rows: &mut Rows<(u32, Service)>,
) -> Result<(), Stop>
    requires { IsSlave slave.now }
    ensures gives { Appends rows.old rows.new result (sent_to number (set_ip_at slave.now place (table_view table.now))) }
    ensures sound { OnOk result (IfOk (set_ip_at slave.now place (table_view table.now)) IsService) }
    ensures fits { OnOk result (IfOk (set_ip_at slave.now place (table_view table.now)) (Suits slave.now)) }
{
    let block = block(alloc, table, slave, place)?;
    put(rows, (number, Service::SetIp { block }))
}

/// Appends a change of the AL state.
fn add_state(
    table: &Table,
    number: u32,
    slave: &SlaveSpec,
    place: Place,
    rows: &mut Rows<(u32, Service)>,
) -> Result<(), Stop>
    ensures gives { Appends rows.old rows.new result (sent_to number (target_state_at slave.now place (table_view table.now))) }
    ensures sound { OnOk result (IfOk (target_state_at slave.now place (table_view table.now)) IsService) }
    ensures fits { OnOk result (IfOk (target_state_at slave.now place (table_view table.now)) (Suits slave.now)) }
{
    let target = state_target(table, slave, place)?;
    put(rows, (number, Service::State { target }))
}

/// Appends the reading of the address block.
fn add_get_ip(number: u32, rows: &mut Rows<(u32, Service)>) -> Result<(), Stop>
    ensures { Appends rows.old rows.new result (sent_to number (Ok GetIp)) }
{
    put(rows, (number, Service::GetIp))
}

/// Appends what the keys of a service say, with the number of its slave. Each service is read by a function of its own, so that only its own
/// room is filled.
#[tactic(auto, using(crate::proofs::Suited::sdo, crate::proofs::Suited::read_file, crate::proofs::Suited::write_file, crate::proofs::Suited::read_idn, crate::proofs::Suited::write_idn), unfolding(crate::specs::Bodies::body_of))]
pub(crate) fn add_body(
    alloc: Global,
    action: Action,
    table: &Table,
    number: u32,
    slave: &SlaveSpec,
    place: Place,
    rows: &mut Rows<(u32, Service)>,
) -> Result<(), Stop>
    requires { IsSlave slave.now }
    ensures gives { Appends rows.old rows.new result (sent_to number (body_of action slave.now place (table_view table.now))) }
    ensures sound { OnOk result (IfOk (body_of action slave.now place (table_view table.now)) IsService) }
    ensures fits { OnOk result (IfOk (body_of action slave.now place (table_view table.now)) (Suits slave.now)) }
{
    match action {
        Action::Sdo(action) => add_sdo(alloc, action, table, number, place, rows),
        Action::ReadFile => add_read_file(table, number, place, rows),
        Action::WriteFile => add_write_file(alloc, table, number, place, rows),
        Action::ReadIdn => add_read_idn(table, number, place, rows),
        Action::WriteIdn => add_write_idn(alloc, table, number, place, rows),
        Action::SetIp => add_set_ip(alloc, table, number, slave, place, rows),
        Action::GetIp => add_get_ip(number, rows),
        Action::State => add_state(table, number, slave, place, rows),
    }
}
