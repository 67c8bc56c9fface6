ghost use Rattle.std.specs.Prelude.{◌≡◌, ◌≤◌, ◌+◌, length, take, None, IfOk, OnOk};
ghost use Rattle.std.specs.List.{list_any};
ghost use Rattle.scenario_services.specs.of_segment_plan.Sound.{is_same_name, is_same_station, repeated_name, repeated_station, are_lost, is_bounded, IsLaid, IsPlan};
ghost use Rattle.scenario_services.specs.of_scenario_keys.Reading.{Gives};
ghost use Rattle.scenario_document.specs.Whole.{unless_repeated, whole};

use scenario_keys::{Place, Rule, Stop, refused, unless};
use segment_plan::{Scenario, SlaveSpec, bound};

/// The most frames of a run for which no budget is given.
const MOST_FRAMES: u64 = 100_000_000;

fn has_name(before: &[SlaveSpec], slave: &SlaveSpec) -> bool
    ensures { result ≡ list_any (is_same_name slave.now) before.now }
{
    before
        .iter()
        .any(|other| other.name.bytes() == slave.name.bytes())
}

fn repeated_name(slaves: &[SlaveSpec]) -> Option<u32>
    requires { length slaves.now ≤ 16 }
    ensures { result ≡ repeated_name slaves.now }
{
    for (i, slave) in slaves.iter().enumerate() {
        if has_name(&slaves[..i], slave) {
            return Some(i as u32);
        }
    }
    None
}

fn has_station(before: &[SlaveSpec], slave: &SlaveSpec) -> bool
    ensures { result ≡ list_any (is_same_station slave.now) before.now }
{
    before.iter().any(|other| other.station == slave.station)
}

fn repeated_station(slaves: &[SlaveSpec]) -> Option<u32>
    requires { length slaves.now ≤ 16 }
    ensures { result ≡ repeated_station slaves.now }
{
    for (i, slave) in slaves.iter().enumerate() {
        if has_station(&slaves[..i], slave) {
            return Some(i as u32);
        }
    }
    None
}

fn unless_repeated(rule: Rule, slave: Option<u32>) -> Result<(), Stop>
    ensures gives { Gives (λ done. done) result (unless_repeated rule slave) }
    ensures none { OnOk result (slave ≡ None) }
{
    match slave {
        Some(slave) => Err(refused(rule, Place::Slave(slave))),
        None => Ok(()),
    }
}

fn are_lost(slaves: usize, lose: &[(u32, u32)]) -> bool
    ensures { result ≡ are_lost slaves lose.now }
{
    let mut least = 0;
    for (frame, after) in lose {
        if u64::from(*frame) < least || (*after as usize) > slaves {
            return false;
        }
        least = u64::from(*frame) + 1;
    }
    true
}

fn is_bounded(scenario: &Scenario) -> bool
    requires { IsLaid scenario.now }
    ensures { result ≡ is_bounded scenario.now }
{
    match scenario.budget {
        Some(_) => true,
        None => bound(scenario, 0) <= MOST_FRAMES,
    }
}

/// What is judged behind all tables: names, stations, the lost frames and the frame bound.
pub fn whole(scenario: Scenario) -> Result<Scenario, Stop>
    requires { IsLaid scenario }
    ensures gives { Gives (λ s. s) result (whole scenario) }
    ensures sound { IfOk result IsPlan }
    ensures same { IfOk result (λ s. s ≡ scenario) }
{
    let slaves = scenario.slaves.as_slice();
    unless_repeated(Rule::SameName, repeated_name(slaves))?;
    unless_repeated(Rule::SameStation, repeated_station(slaves))?;
    let lost = are_lost(slaves.len(), scenario.lose.as_slice());
    unless(lost, Rule::Schedule, Place::Top)?;
    unless(is_bounded(&scenario), Rule::TooMany, Place::Top)?;
    Ok(scenario)
}
