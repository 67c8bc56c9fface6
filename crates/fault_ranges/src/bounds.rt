use crate::numbers::{is_within, out_of_range};
use ec_fields::NoMemory;
use fault_kinds::{Wrong, pair_of};
use fault_sites::{Site, number_at};
use fault_texts::type_of;
use scenario_keys::Place;
use std::alloc::{AllocError, Global};
use toml::Table;

/// The least and the greatest size of a value.
pub(crate) fn sizes_at(table: &Table) -> Option<(i64, i64)> {
    pair_of(table.get("size")?)
}

// The greatest number of so many octets, 1 to 8.
fn greatest(size: i64) -> u64 {
    match size {
        1 => 0xFF,
        2 => 0xFFFF,
        3 => 0xFF_FFFF,
        4 => 0xFFFF_FFFF,
        5 => 0xFF_FFFF_FFFF,
        6 => 0xFFFF_FFFF_FFFF,
        7 => 0xFF_FFFF_FFFF_FFFF,
        _ => 0xFFFF_FFFF_FFFF_FFFF,
    }
}

// The greatest bound that an IDN may have: none where its value isn't a number.
fn greatest_of(idn: &Table) -> Option<u64> {
    let (least, most) = sizes_at(idn)?;
    if least == most && 1 <= most && most <= 8 {
        Some(greatest(most))
    } else {
        None
    }
}

// The greatest bound that a table's key may have, where it may have one.
fn limit_at(site: &Site) -> Option<u64> {
    match site.place {
        Place::Idn(_, _) => greatest_of(site.table),
        _ => None,
    }
}

// Whether a table may have bounds: its values are numbers.
fn is_bounded(site: &Site) -> bool {
    match site.place {
        Place::Idn(_, _) => greatest_of(site.table).is_some(),
        _ => match number_at(site.table, "type") {
            Some(number) => type_of(number).is_some_and(|data| data.size != 0),
            None => true,
        },
    }
}

fn stands_wrong(alloc: Global, key: &str) -> Result<Option<Wrong>, NoMemory> {
    Ok(Some(Wrong::told(format!(in alloc; "`{key}` stands where it can't")?)))
}

fn below_min(alloc: Global, site: &Site, max: i64) -> Result<Option<Wrong>, AllocError> {
    match number_at(site.table, "min") {
        Some(min) if max < min => Ok(Some(Wrong::told(format!(in alloc;
            "`max` is below `min`, which is {min}"
        )?))),
        _ => Ok(None),
    }
}

/// What is wrong with the least or the greatest value.
pub(crate) fn wrong_bound(
    alloc: Global,
    site: &Site,
    key: &str,
    number: i64,
) -> Result<Option<Wrong>, NoMemory> {
    if !is_bounded(site) {
        return stands_wrong(alloc, key);
    }
    if let Some(limit) = limit_at(site)
        && !is_within(number, 0, limit)
    {
        return out_of_range(alloc, key);
    }
    if key == "max" {
        return Ok(below_min(alloc, site, number)?);
    }
    Ok(None)
}
