ghost use Rattle.std.specs.Prelude.{◌≡◌, ◌++◌, [], ◌∷◌, IfOk, OnOk};
ghost use Rattle.toml_places.specs.declared.path.Step.TheVariants as steps;
ghost use Rattle.fault_sites.specs.Places.{path_of, key_path};

use ec_fields::{NoMemory, Rows};
use scenario_keys::Place;
use std::alloc::Global;
use toml_places::{Path, add_item, add_key};

// Goes on to a table of a list.
fn add_table(alloc: Global, path: &mut Path, key: &str, number: u32) -> Result<(), NoMemory>
    ensures { OnOk result (path.new ≡ path.old ++ steps.Key key.now ∷ steps.Item number ∷ []) }
{
    add_key(alloc, path, key.as_bytes())?;
    add_item(path, number)?;
    Ok(())
}

/// The path to the table at a place; empty to the top.
pub fn path_of(alloc: Global, place: Place) -> Result<Path, NoMemory>
    ensures { IfOk result (λ path. path ≡ path_of place) }
{
    let mut path = Rows::new(alloc);
    match place {
        Place::Top => {}
        Place::Slave(slave) => add_table(alloc, &mut path, "slave", slave)?,
        Place::Object(slave, object) => {
            add_table(alloc, &mut path, "slave", slave)?;
            add_table(alloc, &mut path, "object", object)?;
        }
        Place::Entry(slave, object, entry) => {
            add_table(alloc, &mut path, "slave", slave)?;
            add_table(alloc, &mut path, "object", object)?;
            add_table(alloc, &mut path, "entry", entry)?;
        }
        Place::File(slave, file) => {
            add_table(alloc, &mut path, "slave", slave)?;
            add_table(alloc, &mut path, "file", file)?;
        }
        Place::Idn(slave, idn) => {
            add_table(alloc, &mut path, "slave", slave)?;
            add_table(alloc, &mut path, "idn", idn)?;
        }
        Place::Service(service) => add_table(alloc, &mut path, "service", service)?,
        Place::Host(packet) => add_table(alloc, &mut path, "host", packet)?,
    }
    Ok(path)
}

/// The path to a key of the table at a place.
pub fn key_path(alloc: Global, place: Place, key: &str) -> Result<Path, NoMemory>
    ensures { IfOk result (λ path. path ≡ key_path place key.now) }
{
    let mut path = path_of(alloc, place)?;
    add_key(alloc, &mut path, key.as_bytes())?;
    Ok(path)
}
