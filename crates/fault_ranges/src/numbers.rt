use ec_fields::NoMemory;
use fault_kinds::Wrong;
use fault_sites::{Site, item, items_at, number_at, text_at};
use fault_texts::type_of;
use scenario_keys::Place;
use std::alloc::{AllocError, Global};
use toml::{Table, Value};

/// The slave's own objects, for emergencies and for packets.
const OWN: [i64; 2] = [0x2F00, 0x2F01];

/// Whether a number is from `low` to `high`.
pub(crate) fn is_within(number: i64, low: u64, high: u64) -> bool {
    match u64::try_from(number) {
        Ok(number) => low <= number && number <= high,
        Err(_) => false,
    }
}

/// A key whose value is out of range.
pub(crate) fn out_of_range(alloc: Global, key: &str) -> Result<Option<Wrong>, NoMemory> {
    Ok(Some(Wrong::told(format!(in alloc; "`{key}` is out of range")?)))
}

// The number of a key in the table of a list ahead of another.
fn number_before(list: &[Value], number: u32, key: &str) -> Option<i64> {
    let before = (number as usize).checked_sub(1)?;
    number_at(list.get(before)?.as_table()?, key)
}

// An index that objects of a scenario don't have, or that doesn't rise.
fn wrong_index(alloc: Global, site: &Site, index: i64) -> Result<Option<Wrong>, NoMemory> {
    let index_digits = u64::try_from(index).unwrap_or(0);
    if OWN.contains(&index) {
        return Ok(Some(Wrong::told(format!(in alloc;
            "0x{index_digits:04x} is the slave's own object"
        )?)));
    }
    let Some(slave) = site.slave() else {
        return Ok(None);
    };
    let Some(before) = number_before(items_at(slave, "object"), site.number(), "index") else {
        return Ok(None);
    };
    if before < index {
        return Ok(None);
    }
    let before = u64::try_from(before).unwrap_or(0);
    let mut wrong = Wrong::told(format!(in alloc;
        "object 0x{index_digits:04x} stands behind object 0x{before:04x}"
    )?);
    wrong.remedy = Some(String::from_str(alloc, "put it ahead of that one")?);
    Ok(Some(wrong))
}

// The object in which an entry stands.
fn object_of<'a>(site: &Site<'a>) -> Option<&'a Table> {
    match site.place {
        Place::Entry(_, object, _) => item(site.slave()?, "object", object),
        _ => None,
    }
}

// The type that an entry of an array has to have: that of the first.
fn type_wanted(site: &Site) -> Option<i64> {
    let object = object_of(site)?;
    if text_at(object, "kind") == Some("array") {
        number_at(item(object, "entry", 0)?, "type")
    } else {
        None
    }
}

// A type that no entry has, or that the array's first entry doesn't have.
fn wrong_type(alloc: Global, site: &Site, number: i64) -> Result<Option<Wrong>, NoMemory> {
    if type_of(number).is_none() {
        return Ok(Some(Wrong::told(format!(in alloc;
            "`type` {number} isn't one that this program has"
        )?)));
    }
    match type_wanted(site) {
        Some(first) if first != number => Ok(Some(Wrong::told(format!(in alloc;
            "the entries of an array have one type, and the first has {first}"
        )?))),
        _ => Ok(None),
    }
}

fn is_idn(table: &Value, drive: i64, number: i64) -> bool {
    match table.as_table() {
        Some(idn) => {
            number_at(idn, "drive") == Some(drive) && number_at(idn, "number") == Some(number)
        }
        None => false,
    }
}

// A drive at which an IDN ahead of this one has the same number.
fn wrong_drive(alloc: Global, site: &Site, drive: i64) -> Result<Option<Wrong>, NoMemory> {
    let (Some(slave), Some(number)) = (site.slave(), number_at(site.table, "number")) else {
        return Ok(None);
    };
    let mut before = items_at(slave, "idn").iter().take(site.number() as usize);
    if before.any(|idn| is_idn(idn, drive, number)) {
        Ok(Some(Wrong::told(format!(in alloc; "IDN {number} of drive {drive} stands twice")?)))
    } else {
        Ok(None)
    }
}

/// The slave that a service names.
pub(crate) fn slave_asked<'a>(site: &Site<'a>) -> Option<&'a Table> {
    let name = text_at(site.table, "slave")?;
    for value in items_at(site.document, "slave") {
        let slave = value.as_table()?;
        if text_at(slave, "name") == Some(name) {
            return Some(slave);
        }
    }
    None
}

/// Whether a slave has the state Bootstrap.
pub(crate) fn has_bootstrap(slave: &Table) -> bool {
    match slave.get("boot") {
        Some(value) => value.as_bool() == Some(true),
        None => false,
    }
}

fn no_bootstrap(alloc: Global) -> Result<Wrong, AllocError> {
    let mut wrong = Wrong::told(String::from_str(
        alloc,
        "`target` is Bootstrap, which the slave doesn't have",
    )?);
    wrong.remedy = Some(String::from_str(alloc, "boot = true in the slave")?);
    Ok(wrong)
}

// A number that is no AL state, or the state Bootstrap that the slave doesn't have.
fn wrong_target(alloc: Global, site: &Site, target: i64) -> Result<Option<Wrong>, NoMemory> {
    if ![1, 2, 3, 4, 8].contains(&target) {
        return Ok(Some(Wrong::told(format!(in alloc; "`target` {target} isn't an AL state")?)));
    }
    if target == 3 && !slave_asked(site).is_some_and(|slave| has_bootstrap(slave)) {
        return Ok(Some(no_bootstrap(alloc)?));
    }
    Ok(None)
}

/// What is wrong with a number: it is out of range, or excluded by another one.
pub(crate) fn wrong_number(
    alloc: Global,
    site: &Site,
    key: &str,
    number: i64,
    low: u64,
    high: u64,
) -> Result<Option<Wrong>, NoMemory> {
    if !is_within(number, low, high) {
        return out_of_range(alloc, key);
    }
    match site.place {
        Place::Object(_, _) if key == "index" => wrong_index(alloc, site, number),
        Place::Entry(_, _, _) if key == "type" => wrong_type(alloc, site, number),
        Place::Idn(_, _) if key == "drive" => wrong_drive(alloc, site, number),
        Place::Service(_) if key == "target" => wrong_target(alloc, site, number),
        _ => Ok(None),
    }
}
