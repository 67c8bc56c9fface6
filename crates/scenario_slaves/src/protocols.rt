ghost use Rattle.std.specs.Prelude.{◌≡◌, map};
ghost use Rattle.toml.specs.View.{view, items_view, table_view};
ghost use Rattle.scenario_values.specs.of_scenario_keys.Reading.{Gives, each};
ghost use Rattle.scenario_values.specs.of_scenario_keys.Keys.{text_in, list_of};
ghost use Rattle.scenario_slaves.specs.Protocols.{more_served, none_served, served_of, serves_of, serves_in, serves_at};

use scenario_keys::{Place, Rule, Stop, needed, refused, text};
use std::alloc::Global;
use toml::{Table, Value};

/// The protocols that a slave serves.
#[derive(Clone, Copy)]
pub(crate) struct Served {
    pub coe: bool,
    pub foe: bool,
    pub eoe: bool,
    pub soe: bool,
}

/// The protocols so far with that of a word; none where it stands already, or where the word is no protocol's.
fn more_served(served: Served, word: &str) -> Option<Served>
    ensures { result ≡ more_served served word.now }
{
    if word == "coe" {
        (!served.coe).then_some(Served {
            coe: true,
            ..served
        })
    } else if word == "foe" {
        (!served.foe).then_some(Served {
            foe: true,
            ..served
        })
    } else if word == "eoe" {
        (!served.eoe).then_some(Served {
            eoe: true,
            ..served
        })
    } else if word == "soe" {
        (!served.soe).then_some(Served {
            soe: true,
            ..served
        })
    } else {
        None
    }
}

fn words(alloc: Global, values: &[Value], place: Place) -> Result<Vec<&str>, Stop>
    ensures { Gives (λ ws. map (λ w. w.now) ws.items) result (each (λ _ d. text_in place d) 0 (list_of (items_view values.now))) }
{
    let mut words = Vec::new(alloc);
    for value in values {
        words.push(text(value, place)?)?;
    }
    Ok(words)
}

fn served_by(words: &[&str], place: Place) -> Result<Served, Stop>
    ensures { Gives (λ s. s) result (served_of place none_served (map (λ w. w.now) words.now)) }
{
    let mut served = Served {
        coe: false,
        foe: false,
        eoe: false,
        soe: false,
    };
    for word in words {
        match more_served(served, word) {
            Some(more) => served = more,
            None => return Err(refused(Rule::OutOfRange, place)),
        }
    }
    Ok(served)
}

fn serves_of(alloc: Global, values: &[Value], place: Place) -> Result<Served, Stop>
    ensures { Gives (λ s. s) result (serves_of place (items_view values.now)) }
{
    let words = words(alloc, values, place)?;
    served_by(words.as_slice(), place)
}

fn serves_in(alloc: Global, value: &Value, place: Place) -> Result<Served, Stop>
    ensures { Gives (λ s. s) result (serves_in place (view value.now)) }
{
    match value.as_array() {
        Some(values) => serves_of(alloc, values.as_slice(), place),
        None => Err(refused(Rule::WrongKind, place)),
    }
}

/// The protocols that a slave serves: a list of their words, each at most once.
pub(crate) fn serves(alloc: Global, table: &Table, place: Place) -> Result<Served, Stop>
    ensures { Gives (λ s. s) result (serves_at place (table_view table.now)) }
{
    serves_in(alloc, needed(table, "serves", place)?, place)
}
