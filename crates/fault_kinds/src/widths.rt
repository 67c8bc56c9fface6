use fault_sites::{Site, items_at, number_at, text_at};
use fault_texts::{DataType, type_of};
use scenario_keys::Place;
use std::alloc::{AllocError, Global};
use toml::{Table, Value};

// The first table of a list whose key has this number.
fn numbered<'a>(items: &'a [Value], key: &str, number: i64) -> Option<&'a Table> {
    for value in items {
        let table = value.as_table()?;
        if number_at(table, key) == Some(number) {
            return Some(table);
        }
    }
    None
}

// The slave of a name.
fn slave_named<'a>(document: &'a Table, name: &str) -> Option<&'a Table> {
    for value in items_at(document, "slave") {
        let table = value.as_table()?;
        if text_at(table, "name") == Some(name) {
            return Some(table);
        }
    }
    None
}

// The entry of a subindex: a variable has one, at 0, and others count from 1.
fn entry_of(object: &Table, sub: i64) -> Option<&Table> {
    let number = if text_at(object, "kind") == Some("variable") {
        sub
    } else {
        sub.checked_sub(1)?
    };
    let number = usize::try_from(number).ok()?;
    items_at(object, "entry").get(number)?.as_table()
}

// The entry that a download writes.
fn entry_written<'a>(document: &'a Table, service: &Table) -> Option<&'a Table> {
    if text_at(service, "do") != Some("download") {
        return None;
    }
    let slave = slave_named(document, text_at(service, "slave")?)?;
    let index = number_at(service, "index")?;
    let object = numbered(items_at(slave, "object"), "index", index)?;
    entry_of(object, number_at(service, "sub")?)
}

fn type_at(entry: &Table) -> Option<&'static DataType> {
    type_of(number_at(entry, "type")?)
}

/// The data type of a table's key `value`, where it is a number's: of an entry, or of the entry that a download writes.
pub fn width_at(site: &Site, key: &str) -> Option<&'static DataType> {
    if key != "value" {
        return None;
    }
    let data = match site.place {
        Place::Entry(_, _, _) => type_at(site.table)?,
        Place::Service(_) => type_at(entry_written(site.document, site.table)?)?,
        _ => return None,
    };
    if data.size == 0 { None } else { Some(data) }
}

// Whether the octets above those of a number say nothing more than its sign.
fn is_sign(low: &[u8], high: &[u8], is_signed: bool, is_negative: bool) -> bool {
    let is_top = low.last().is_some_and(|octet| *octet >= 0x80);
    if is_negative {
        is_signed && is_top && high.iter().all(|octet| *octet == 0xFF)
    } else {
        !(is_signed && is_top) && high.iter().all(|octet| *octet == 0)
    }
}

/// The octets of a number in a data type, the lowest ahead, as hexadecimal digits. None where the type doesn't hold it.
pub fn number_octets(
    alloc: Global,
    data: &DataType,
    number: i64,
) -> Result<Option<String>, AllocError> {
    let octets = number.to_le_bytes();
    let size = usize::try_from(data.size).unwrap_or(8).min(8);
    let (low, high) = octets.split_at(size);
    if is_sign(low, high, data.is_signed, number < 0) {
        Ok(Some(hex::encode(alloc, low)?))
    } else {
        Ok(None)
    }
}
