ghost use Rattle.std.specs.Prelude.{◌≡◌, ◌≤◌, ℕ, map, length, IfOk};
ghost use Rattle.toml.specs.View.{view, items_view, table_view};
ghost use Rattle.toml.specs.Data.{as_table};
ghost use Rattle.scenario_keys.specs.declared.refusal.Rule.TheVariants.{WrongKind};
ghost use Rattle.scenario_keys.specs.Reading.{Gives, wanted, each};
ghost use Rattle.scenario_keys.specs.Keys.{list_of};
ghost use Rattle.scenario_values.specs.Tables.{tables_of, tables_in, tables_at, optional_tables_at};

use scenario_keys::{Place, Rule, Stop, find, needed, refused, unless};
use std::alloc::Global;
use toml::{Table, Value};

fn table_of(value: &Value, place: Place) -> Result<&Table, Stop>
    ensures { Gives (λ t. table_view t.now) result (wanted WrongKind place (as_table (view value.now))) }
{
    match value.as_table() {
        Some(table) => Ok(table),
        None => Err(refused(Rule::WrongKind, place)),
    }
}

fn all_tables(alloc: Global, values: &[Value], place: Place) -> Result<Vec<&Table>, Stop>
    ensures { Gives (λ ts. map (λ t. table_view t.now) ts.items) result (each (λ _ d. wanted WrongKind place (as_table d)) 0 (list_of (items_view values.now))) }
{
    let mut tables = Vec::new(alloc);
    for value in values {
        tables.push(table_of(value, place)?)?;
    }
    Ok(tables)
}

fn few_tables(
    alloc: Global,
    values: &[Value],
    most: usize,
    place: Place,
) -> Result<Vec<&Table>, Stop>
    ensures gives { Gives (λ ts. map (λ t. table_view t.now) ts.items) result (tables_of most place (items_view values.now)) }
    ensures within { IfOk result (λ ts. length ts.items ≤ most) }
{
    let tables = all_tables(alloc, values, place)?;
    unless(tables.len() <= most, Rule::TooMany, place)?;
    Ok(tables)
}

fn tables(alloc: Global, value: &Value, most: usize, place: Place) -> Result<Vec<&Table>, Stop>
    ensures gives { Gives (λ ts. map (λ t. table_view t.now) ts.items) result (tables_in most place (view value.now)) }
    ensures within { IfOk result (λ ts. length ts.items ≤ most) }
{
    match value.as_array() {
        Some(values) => few_tables(alloc, values.as_slice(), most, place),
        None => Err(refused(Rule::WrongKind, place)),
    }
}

/// A list of at most `most` tables.
pub fn needed_tables<'a>(
    alloc: Global,
    table: &'a Table,
    key: &str,
    most: usize,
    place: Place,
) -> Result<Vec<&'a Table>, Stop>
    ensures gives { Gives (λ ts. map (λ t. table_view t.now) ts.items) result (tables_at key.now most place (table_view table.now)) }
    ensures within { IfOk result (λ ts. length ts.items ≤ most) }
{
    tables(alloc, needed(table, key, place)?, most, place)
}

/// A list of at most `most` tables, none where the key is left out.
pub fn tables_or_none<'a>(
    alloc: Global,
    table: &'a Table,
    key: &str,
    most: usize,
    place: Place,
) -> Result<Vec<&'a Table>, Stop>
    ensures gives { Gives (λ ts. map (λ t. table_view t.now) ts.items) result (optional_tables_at key.now most place (table_view table.now)) }
    ensures within { IfOk result (λ ts. length ts.items ≤ most) }
{
    match find(table, key) {
        Some(value) => tables(alloc, value, most, place),
        None => Ok(Vec::new(alloc)),
    }
}
