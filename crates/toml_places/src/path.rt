ghost use Rattle.std.specs.Prelude.{◌≡◌, [], ◌∷◌, ◌++◌, OnOk, option_map};
ghost use Rattle.toml.specs.Data.{get_member};
ghost use Rattle.toml.specs.View.{view, table_view};
ghost use Rattle.toml_places.specs.declared.path.Step.TheVariants as steps;
ghost use Rattle.toml_places.specs.Path.{stepped, stepped_in, led, data_at};

use crate::document::text_of;
use ec_fields::{NoMemory, Octets, Rows};
use std::alloc::Global;
use toml::{Table, Value};

/// A step from a value of a document to one inside it.
#[derive(Drop)]
pub enum Step {
    /// To the value at a key of a table.
    Key(Octets),
    /// To the item of a list at a place, counted from 0.
    Item(u32),
}

/// The steps from the top of a document to a value. The empty path leads to no value: the top is no value of any key.
pub type Path = Rows<Step>;

/// Goes one step on, to a key.
pub fn add_key(alloc: Global, path: &mut Path, key: &[u8]) -> Result<(), NoMemory>
    ensures { OnOk result (path.new ≡ path.old ++ steps.Key key.now ∷ []) }
{
    path.add(Step::Key(Octets::copy_of(alloc, key)?))?;
    Ok(())
}

/// Goes one step on, to an item of a list.
pub fn add_item(path: &mut Path, at: u32) -> Result<(), NoMemory>
    ensures { OnOk result (path.new ≡ path.old ++ steps.Item at ∷ []) }
{
    path.add(Step::Item(at))?;
    Ok(())
}

// Where a step leads from a value.
fn stepped<'a>(value: &'a Value, step: &Step) -> Option<&'a Value>
    ensures { option_map (λ v. view v.now) result ≡ stepped (view value.now) step.now }
{
    match step {
        Step::Key(key) => match text_of(key.bytes()) {
            Some(key) => value.get(key),
            None => None,
        },
        Step::Item(at) => value.get(*at as usize),
    }
}

// The value at a key of a table.
fn member<'a>(table: &'a Table, key: &str) -> Option<&'a Value>
    ensures { option_map (λ v. view v.now) result ≡ get_member key.now (table_view table.now) }
{
    table.get(key)
}

// Where a step leads from the top.
fn stepped_in<'a>(table: &'a Table, step: &Step) -> Option<&'a Value>
    ensures { option_map (λ v. view v.now) result ≡ stepped_in (table_view table.now) step.now }
{
    match step {
        Step::Key(key) => match text_of(key.bytes()) {
            Some(key) => member(table, key),
            None => None,
        },
        Step::Item(_) => None,
    }
}

// Where steps lead from a value.
fn led<'a>(value: &'a Value, steps: &[Step]) -> Option<&'a Value>
    ensures { option_map (λ v. view v.now) result ≡ led (view value.now) steps.now }
{
    let mut value = value;
    for step in steps {
        value = stepped(value, step)?;
    }
    Some(value)
}

/// The value to which a path leads, none where the document doesn't have it.
pub fn value_at<'a>(table: &'a Table, path: &[Step]) -> Option<&'a Value>
    ensures { option_map (λ v. view v.now) result ≡ data_at (table_view table.now) path.now }
{
    match path {
        [step, steps @ ..] => led(stepped_in(table, step)?, steps),
        [] => None,
    }
}
