use crate::site::items_at;
use scenario_keys::Place;
use toml::{Table, Value};

// The number of the first table of a list that has a key.
fn first_with(items: &[Value], key: &str) -> Option<u32> {
    let has_key = |value: &Value| value
        .as_table()
        .is_some_and(|table| table.contains_key(key));
    u32::try_from(items.iter().position(has_key)?).ok()
}

fn in_object(object: &Table, key: &str, slave: u32, number: u32) -> Option<Place> {
    if object.contains_key(key) {
        return Some(Place::Object(slave, number));
    }
    let entry = first_with(items_at(object, "entry"), key)?;
    Some(Place::Entry(slave, number, entry))
}

fn in_objects(objects: &[Value], key: &str, slave: u32) -> Option<Place> {
    for (number, object) in objects.iter().enumerate() {
        let number = u32::try_from(number).ok()?;
        if let Some(place) = in_object(object.as_table()?, key, slave, number) {
            return Some(place);
        }
    }
    None
}

fn in_slave(slave: &Table, key: &str, number: u32) -> Option<Place> {
    if slave.contains_key(key) {
        return Some(Place::Slave(number));
    }
    if let Some(place) = in_objects(items_at(slave, "object"), key, number) {
        return Some(place);
    }
    if let Some(file) = first_with(items_at(slave, "file"), key) {
        return Some(Place::File(number, file));
    }
    let idn = first_with(items_at(slave, "idn"), key)?;
    Some(Place::Idn(number, idn))
}

fn in_slaves(slaves: &[Value], key: &str) -> Option<Place> {
    for (number, slave) in slaves.iter().enumerate() {
        let number = u32::try_from(number).ok()?;
        if let Some(place) = in_slave(slave.as_table()?, key, number) {
            return Some(place);
        }
    }
    None
}

/// The first table below the top that has a key: of the slaves with their objects, files and IDNs, then of the services and of the
/// packets of the host.
pub fn place_below(document: &Table, key: &str) -> Option<Place> {
    if let Some(place) = in_slaves(items_at(document, "slave"), key) {
        return Some(place);
    }
    if let Some(service) = first_with(items_at(document, "service"), key) {
        return Some(Place::Service(service));
    }
    let packet = first_with(items_at(document, "host"), key)?;
    Some(Place::Host(packet))
}
