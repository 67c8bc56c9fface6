ghost use Rattle.std.specs.Prelude.{◌≡◌};
ghost use Rattle.toml.specs.View.{table_view};
ghost use Rattle.scenario_values.specs.of_scenario_keys.Reading.{Gives};
ghost use Rattle.scenario_services.specs.Actions.{given_action, only_keys_of, action_at};

use crate::actions::{Action, known_for, word_action};
use scenario_keys::{Place, Rule, Stop, find, needed_text, only_known, refused};
use toml::Table;

/// What a service's key `do` says, where it is a word that is known.
pub(crate) fn said_action(table: &Table) -> Option<Action>
    ensures { result ≡ given_action (table_view table.now) }
{
    match find(table, "do") {
        Some(value) => match value.as_str() {
            Some(word) => word_action(word),
            None => None,
        },
        None => None,
    }
}

/// Which keys are unknown is judged by what the service does; where that isn't known, none is.
pub(crate) fn only_known_of(table: &Table, action: Option<Action>, place: Place) -> Result<(), Stop>
    ensures { Gives (λ done. done) result (only_keys_of action place (table_view table.now)) }
{
    match action {
        Some(action) => only_known(table, known_for(action), place),
        None => Ok(()),
    }
}

/// What a service does, where `said` is what its key `do` says.
#[tactic(auto, using(crate::proofs::Said::said_word, crate::proofs::Said::said_nothing))]
pub(crate) fn needed_action(
    table: &Table,
    said: Option<Action>,
    place: Place,
) -> Result<Action, Stop>
    requires { said ≡ given_action (table_view table.now) }
    ensures { Gives (λ a. a) result (action_at place (table_view table.now)) }
{
    match said {
        Some(action) => Ok(action),
        None => {
            needed_text(table, "do", place)?;
            Err(refused(Rule::OutOfRange, place))
        }
    }
}
