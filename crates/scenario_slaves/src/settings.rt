ghost use Rattle.std.specs.Prelude.{◌≡◌, ◌%◌, IfOk, IfSome, length, slice_index, true};
ghost use Rattle.toml.specs.View.{view, table_view};
ghost use Rattle.scenario_values.specs.of_segment_plan.Sound.{is_start, is_mac, IsPace};
ghost use Rattle.scenario_values.specs.of_scenario_keys.Reading.{Gives};
ghost use Rattle.scenario_slaves.specs.Settings.{start_of, start_in, start_at, own_mac_at, mac_at, pace_at};

use scenario_keys::{Place, Rule, Stop, find, integer_or, refused, text, unless};
use scenario_values::{needed_in_place, no_octets};
use toml::{Table, Value};

fn start_of(boot: bool, word: &str) -> Option<u8>
    ensures gives { result ≡ start_of boot word.now }
    ensures within { IfSome result (λ n. is_start boot n ≡ true) }
{
    if word == "preop" {
        Some(2)
    } else if boot && word == "boot" {
        Some(3)
    } else {
        None
    }
}

fn start_in(boot: bool, value: &Value, place: Place) -> Result<u8, Stop>
    ensures gives { Gives (λ n. n) result (start_in boot place (view value.now)) }
    ensures within { IfOk result (λ n. is_start boot n ≡ true) }
{
    match start_of(boot, text(value, place)?) {
        Some(start) => Ok(start),
        None => Err(refused(Rule::OutOfRange, place)),
    }
}

/// The AL state in which a slave is brought up.
pub(crate) fn start(table: &Table, boot: bool, place: Place) -> Result<u8, Stop>
    ensures gives { Gives (λ n. n) result (start_at boot place (table_view table.now)) }
    ensures within { IfOk result (λ n. is_start boot n ≡ true) }
{
    match find(table, "start") {
        Some(value) => start_in(boot, value, place),
        None => Ok(2),
    }
}

fn own_mac(table: &Table, place: Place) -> Result<[u8; 6], Stop>
    ensures gives { Gives (λ m. m) result (own_mac_at place (table_view table.now)) }
    ensures within { IfOk result (λ m. slice_index m 0 % 2 ≡ 0) }
    ensures whole { IfOk result (λ m. length m ≡ 6) }
{
    let mut mac = [0; 6];
    needed_in_place(table, "mac", place, &mut mac)?;
    unless(mac[0] % 2 == 0, Rule::OutOfRange, place)?;
    Ok(mac)
}

/// The MAC address, which stands just where EoE is served.
pub(crate) fn mac(table: &Table, eoe: bool, place: Place) -> Result<[u8; 6], Stop>
    ensures gives { Gives (λ m. m) result (mac_at eoe place (table_view table.now)) }
    ensures within { IfOk result (λ m. is_mac eoe m ≡ true) }
    ensures whole { IfOk result (λ m. length m ≡ 6) }
{
    if eoe {
        own_mac(table, place)
    } else {
        no_octets(table, "mac", place)?;
        Ok([0; 6])
    }
}

/// The pace of a slave: 1 in version 1.
pub(crate) fn pace(table: &Table, version: u32, place: Place) -> Result<u32, Stop>
    ensures gives { Gives (λ n. n) result (pace_at version place (table_view table.now)) }
    ensures within { IfOk result IsPace }
{
    if version == 2 {
        Ok(integer_or(table, "pace", 1, 1, 16, place)? as u32)
    } else {
        Ok(1)
    }
}
