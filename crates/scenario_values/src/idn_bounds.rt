ghost use Rattle.std.specs.Prelude.{◌≡◌, ◌≤◌, ◌<◌, ◌^◌, ◌-◌, ◌&&◌, length, IfOk, IfSome, true};
ghost use Rattle.toml.specs.View.{view, table_view};
ghost use Rattle.byteorder.specs.Endian.{little_number};
ghost use Rattle.segment_plan.specs.Sound.{is_integer, is_bound};
ghost use Rattle.scenario_keys.specs.Reading.{Gives};
ghost use Rattle.scenario_values.specs.Bounds.{idn_bound_at, idn_bound_if, are_idn_bounds, idn_bounds_at, is_least, is_most, is_bounded, idn_value_at};

use crate::octets::needed_octets;
use byteorder::{ByteOrder, LittleEndian};
use ec_fields::Octets;
use scenario_keys::{Place, Rule, Stop, find, integer, no_number, unless};
use std::alloc::Global;
use toml::Table;

fn is_integer(least: u64, most: u64) -> bool
    ensures { result ≡ is_integer least most }
{
    least == most && most <= 8
}

/// The greatest integer of so many octets.
fn greatest(size: u64) -> u64
    requires least { 1 ≤ size }
    requires most { size ≤ 8 }
    ensures value { result ≡ 256 ^ size - 1 }
    ensures below { result < 256 ^ size }
{
    match size {
        1 => 0xFF,
        2 => 0xFFFF,
        3 => 0xFF_FFFF,
        4 => 0xFFFF_FFFF,
        5 => 0xFF_FFFF_FFFF,
        6 => 0xFFFF_FFFF_FFFF,
        7 => 0xFF_FFFF_FFFF_FFFF,
        _ => 0xFFFF_FFFF_FFFF_FFFF,
    }
}

fn bound(table: &Table, key: &str, size: u64, place: Place) -> Result<Option<u64>, Stop>
    requires least { 1 ≤ size }
    requires most { size ≤ 8 }
    ensures gives { Gives (λ n. n) result (idn_bound_at key.now size place (table_view table.now)) }
    ensures within { IfOk result (λ n. is_bound size size n ≡ true) }
{
    match find(table, key) {
        Some(value) => Ok(Some(integer(value, 0, greatest(size), place)?)),
        None => Ok(None),
    }
}

fn bound_if(
    table: &Table,
    key: &str,
    least: u64,
    most: u64,
    place: Place,
) -> Result<Option<u64>, Stop>
    requires some { 1 ≤ least }
    ensures gives { Gives (λ n. n) result (idn_bound_if (is_integer least most) key.now most place (table_view table.now)) }
    ensures within { IfOk result (λ n. is_bound least most n ≡ true) }
{
    if is_integer(least, most) {
        bound(table, key, most, place)
    } else {
        no_number(table, key, place)?;
        Ok(None)
    }
}

fn are_bounds(min: Option<u64>, max: Option<u64>) -> bool
    ensures { result ≡ are_idn_bounds min max }
{
    match (min, max) {
        (Some(least), Some(most)) => least <= most,
        (Some(_), None) => true,
        (None, _) => true,
    }
}

/// The least and the greatest value, where they are bounded.
pub type Bounds = (Option<u64>, Option<u64>);

/// The bounds of an IDN of these sizes, which only an integer has.
pub fn bounds(table: &Table, least: u64, most: u64, place: Place) -> Result<Bounds, Stop>
    requires some { 1 ≤ least }
    ensures gives { Gives (λ p. p) result (idn_bounds_at (least, most) place (table_view table.now)) }
    ensures min { IfOk result (λ p. is_bound least most p.0 ≡ true) }
    ensures max { IfOk result (λ p. is_bound least most p.1 ≡ true) }
{
    let min = bound_if(table, "min", least, most, place)?;
    let max = bound_if(table, "max", least, most, place)?;
    unless(are_bounds(min, max), Rule::OutOfRange, place)?;
    Ok((min, max))
}

fn is_least(min: Option<u64>, number: u64) -> bool
    ensures { result ≡ is_least min number }
{
    match min {
        Some(least) => least <= number,
        None => true,
    }
}

fn is_most(max: Option<u64>, number: u64) -> bool
    ensures { result ≡ is_most max number }
{
    match max {
        Some(most) => number <= most,
        None => true,
    }
}

fn is_within(min: Option<u64>, max: Option<u64>, value: &[u8]) -> bool
    requires some { 1 ≤ length value.now }
    requires few { length value.now ≤ 8 }
    ensures { result ≡ (is_least min (little_number (length value.now) value.now) && is_most max (little_number (length value.now) value.now)) }
{
    let number = LittleEndian::read_uint(value, value.len());
    is_least(min, number) && is_most(max, number)
}

fn is_bounded(min: Option<u64>, max: Option<u64>, value: &[u8]) -> bool
    requires some { 1 ≤ length value.now }
    requires min { IfSome min (λ _. length value.now ≤ 8) }
    requires max { IfSome max (λ _. length value.now ≤ 8) }
    ensures { result ≡ is_bounded min max value.now }
{
    match (min, max) {
        (None, None) => true,
        (Some(_), _) => is_within(min, max, value),
        (None, Some(_)) => is_within(min, max, value),
    }
}

/// The octets of an IDN, within its sizes and bounds.
pub fn bounded_value(
    alloc: Global,
    table: &Table,
    sizes: (u64, u64),
    bounds: Bounds,
    place: Place,
) -> Result<Octets, Stop>
    requires some { 1 ≤ sizes.0 }
    requires few { sizes.1 ≤ 4096 }
    requires min { is_bound sizes.0 sizes.1 bounds.0 ≡ true }
    requires max { is_bound sizes.0 sizes.1 bounds.1 ≡ true }
    ensures gives { Gives (λ t. t) result (idn_value_at sizes bounds place (table_view table.now)) }
    ensures within { IfOk result (λ t. (sizes.0 ≤ length t) × (length t ≤ sizes.1)) }
{
    let value = needed_octets(
        alloc,
        table,
        "value",
        sizes.0 as usize,
        sizes.1 as usize,
        place,
    )?;
    let fits = is_bounded(bounds.0, bounds.1, value.bytes());
    unless(fits, Rule::OutOfRange, place)?;
    Ok(value)
}
