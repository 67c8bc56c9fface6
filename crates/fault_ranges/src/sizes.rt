use crate::numbers::{is_within, out_of_range};
use ec_fields::NoMemory;
use fault_kinds::Wrong;
use fault_sites::{Site, number_at};
use fault_texts::type_of;
use scenario_keys::Place;
use std::alloc::Global;

/// What is wrong with two numbers.
pub(crate) fn wrong_pair(
    alloc: Global,
    key: &str,
    pair: (i64, i64),
    low: u64,
    high: u64,
) -> Result<Option<Wrong>, NoMemory> {
    if is_within(pair.0, low, high) && is_within(pair.1, low, high) {
        Ok(None)
    } else {
        out_of_range(alloc, key)
    }
}

// The type of an entry of numbers, which have sizes of their own.
fn own_size(site: &Site) -> Option<i64> {
    match site.place {
        Place::Entry(_, _, _) => {
            let number = number_at(site.table, "type")?;
            if type_of(number)?.size == 0 {
                None
            } else {
                Some(number)
            }
        }
        _ => None,
    }
}

/// What is wrong with the least and the greatest size of a value.
pub(crate) fn wrong_sizes(
    alloc: Global,
    site: &Site,
    key: &str,
    sizes: (i64, i64),
    most: u64,
) -> Result<Option<Wrong>, NoMemory> {
    if let Some(number) = own_size(site) {
        return Ok(Some(Wrong::told(format!(in alloc;
            "`{key}` stands in an entry of type {number}, which has a size of its own"
        )?)));
    }
    if !is_within(sizes.0, 1, most) || !is_within(sizes.1, 1, most) {
        return out_of_range(alloc, key);
    }
    if sizes.0 > sizes.1 {
        return Ok(Some(Wrong::told(format!(in alloc;
            "`{key}` has a least size above the greatest"
        )?)));
    }
    Ok(None)
}
