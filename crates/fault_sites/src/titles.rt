use crate::site::{item, number_at, text_at};
use fault_texts::{add_quoted, keys_of};
use scenario_keys::Place;
use std::alloc::{AllocError, Global};
use toml::Table;

/// The word of `do`, where it is one that services have.
pub fn action_at<'a>(service: &'a Table) -> Option<&'a str> {
    let action = text_at(service, "do")?;
    if keys_of(action).is_some() {
        Some(action)
    } else {
        None
    }
}

// Adds the number of a table in its list, counted from 1.
fn add_place(text: &mut String, number: u32) -> Result<(), AllocError> {
    let place = u64::from(number) + 1;
    write!(text, "#{place}")
}

// Adds the name of a table, or where it has none its number.
fn add_name(
    alloc: Global,
    text: &mut String,
    table: Option<&Table>,
    number: u32,
) -> Result<(), AllocError> {
    match table {
        Some(table) => match text_at(table, "name") {
            Some(name) => add_quoted(alloc, text, name),
            None => add_place(text, number),
        },
        None => add_place(text, number),
    }
}

fn add_slave(
    alloc: Global,
    text: &mut String,
    document: &Table,
    slave: u32,
) -> Result<(), AllocError> {
    text.push_str("slave ")?;
    add_name(alloc, text, item(document, "slave", slave), slave)
}

fn object_at<'a>(document: &'a Table, slave: u32, object: u32) -> Option<&'a Table> {
    item(item(document, "slave", slave)?, "object", object)
}

// The index of an object, where it is a number that isn't negative.
fn index_of(object: Option<&Table>) -> Option<u64> {
    u64::try_from(number_at(object?, "index")?).ok()
}

fn add_object(
    alloc: Global,
    text: &mut String,
    document: &Table,
    slave: u32,
    object: u32,
) -> Result<(), AllocError> {
    add_slave(alloc, text, document, slave)?;
    text.push_str(" > object ")?;
    match index_of(object_at(document, slave, object)) {
        Some(index) => write!(text, "0x{index:04x}"),
        None => add_place(text, object),
    }
}

// The subindex of an entry: a variable has one, at 0, and others count from 1.
fn subindex(object: Option<&Table>, entry: u32) -> u64 {
    match object {
        Some(object) if text_at(object, "kind") == Some("variable") => u64::from(entry),
        _ => u64::from(entry) + 1,
    }
}

fn add_entry(
    alloc: Global,
    text: &mut String,
    document: &Table,
    slave: u32,
    object: u32,
    entry: u32,
) -> Result<(), AllocError> {
    add_object(alloc, text, document, slave, object)?;
    text.push_str(" > entry ")?;
    let object = object_at(document, slave, object);
    match index_of(object) {
        Some(index) => {
            let sub = subindex(object, entry);
            write!(text, "{index:04x}:{sub:02x}")
        }
        None => add_place(text, entry),
    }
}

fn add_file(
    alloc: Global,
    text: &mut String,
    document: &Table,
    slave: u32,
    file: u32,
) -> Result<(), AllocError> {
    add_slave(alloc, text, document, slave)?;
    text.push_str(" > file ")?;
    let table = match item(document, "slave", slave) {
        Some(slave) => item(slave, "file", file),
        None => None,
    };
    add_name(alloc, text, table, file)
}

fn add_idn(
    alloc: Global,
    text: &mut String,
    document: &Table,
    slave: u32,
    idn: u32,
) -> Result<(), AllocError> {
    add_slave(alloc, text, document, slave)?;
    text.push_str(" > idn ")?;
    let number = match item(document, "slave", slave) {
        Some(slave) => match item(slave, "idn", idn) {
            Some(table) => number_at(table, "number"),
            None => None,
        },
        None => None,
    };
    match number {
        Some(number) => write!(text, "{number}"),
        None => add_place(text, idn),
    }
}

fn add_service(text: &mut String, document: &Table, service: u32) -> Result<(), AllocError> {
    text.push_str("service ")?;
    add_place(text, service)?;
    let Some(table) = item(document, "service", service) else {
        return Ok(());
    };
    match action_at(table) {
        Some(action) => write!(text, " ({action})"),
        None => Ok(()),
    }
}

/// What a table is called: `slave "drive" > object 0x2100 > entry 2100:01`, `service #4 (download)`. Empty of the top.
pub fn title(alloc: Global, document: &Table, place: Place) -> Result<String, AllocError> {
    let mut text = String::new(alloc);
    match place {
        Place::Top => {}
        Place::Slave(slave) => add_slave(alloc, &mut text, document, slave)?,
        Place::Object(slave, object) => add_object(alloc, &mut text, document, slave, object)?,
        Place::Entry(slave, object, entry) => {
            add_entry(alloc, &mut text, document, slave, object, entry)?;
        }
        Place::File(slave, file) => add_file(alloc, &mut text, document, slave, file)?,
        Place::Idn(slave, idn) => add_idn(alloc, &mut text, document, slave, idn)?,
        Place::Service(service) => add_service(&mut text, document, service)?,
        Place::Host(packet) => {
            text.push_str("host packet ")?;
            add_place(&mut text, packet)?;
        }
    }
    Ok(text)
}
