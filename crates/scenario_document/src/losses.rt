ghost use Rattle.std.specs.Prelude.{◌≡◌, ◌≤◌, length, IfOk};
ghost use Rattle.toml.specs.View.{view, items_view, table_view};
ghost use Rattle.scenario_services.specs.of_scenario_keys.declared.place.Place.TheVariants.{Top};
ghost use Rattle.scenario_services.specs.of_scenario_keys.Reading.{Gives, each};
ghost use Rattle.scenario_services.specs.of_scenario_keys.Keys.{two_numbers_in, list_of};
ghost use Rattle.scenario_document.specs.Losses.{lost_in, lose_of, lose_in, lose_at};

use ec_fields::Rows;
use scenario_keys::{Place, Rule, Stop, find, number_in, pair_of, put, refused, unless};
use std::alloc::Global;
use toml::{Table, Value};

fn pairs(alloc: Global, values: &[Value]) -> Result<Vec<(i64, i64)>, Stop>
    ensures gives { Gives (λ ps. ps.items) result (each (λ _ x. two_numbers_in Top x) 0 (list_of (items_view values.now))) }
    ensures many { IfOk result (λ ps. length ps.items ≡ length values.now) }
{
    let mut pairs = Vec::new(alloc);
    for value in values {
        pairs.push(pair_of(value, Place::Top)?)?;
    }
    Ok(pairs)
}

fn lost(value: &Value) -> Result<(u32, u32), Stop>
    ensures { Gives (λ p. p) result (lost_in (view value.now)) }
{
    let (frame, after) = pair_of(value, Place::Top)?;
    let frame = number_in(frame, 0, 0xFFFF_FFFF, Place::Top)?;
    let after = number_in(after, 0, 0xFFFF_FFFF, Place::Top)?;
    Ok((frame as u32, after as u32))
}

fn all_lost(alloc: Global, values: &[Value]) -> Result<Rows<(u32, u32)>, Stop>
    ensures gives { Gives (λ ps. ps) result (each (λ _ x. lost_in x) 0 (list_of (items_view values.now))) }
    ensures many { IfOk result (λ ps. length ps ≡ length values.now) }
{
    let mut rows = Rows::new(alloc);
    for value in values {
        put(&mut rows, lost(value)?)?;
    }
    Ok(rows)
}

fn lose_of(alloc: Global, values: &[Value]) -> Result<Rows<(u32, u32)>, Stop>
    ensures gives { Gives (λ ps. ps) result (lose_of (items_view values.now)) }
    ensures many { IfOk result (λ ps. length ps ≤ 4096) }
{
    let pairs = pairs(alloc, values)?;
    unless(pairs.len() <= 4096, Rule::TooMany, Place::Top)?;
    all_lost(alloc, values)
}

fn lose_in(alloc: Global, value: &Value) -> Result<Rows<(u32, u32)>, Stop>
    ensures gives { Gives (λ ps. ps) result (lose_in (view value.now)) }
    ensures many { IfOk result (λ ps. length ps ≤ 4096) }
{
    match value.as_array() {
        Some(values) => lose_of(alloc, values.as_slice()),
        None => Err(refused(Rule::WrongKind, Place::Top)),
    }
}

/// The lost frames: all pairs first, then how many they are, then their numbers.
pub(crate) fn lose(alloc: Global, table: &Table) -> Result<Rows<(u32, u32)>, Stop>
    ensures gives { Gives (λ ps. ps) result (lose_at (table_view table.now)) }
    ensures many { IfOk result (λ ps. length ps ≤ 4096) }
{
    match find(table, "lose") {
        Some(value) => lose_in(alloc, value),
        None => Ok(Rows::new(alloc)),
    }
}
