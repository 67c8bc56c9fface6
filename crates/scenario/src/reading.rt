ghost use Rattle.std.specs.Prelude.{◌≡◌, IfOk};
ghost use Rattle.toml.specs.View.{table_view};
ghost use Rattle.toml.specs.Parse.{parse_document};
ghost use Rattle.scenario_document.specs.of_segment_plan.Sound.{IsPlan};
ghost use Rattle.scenario_document.specs.of_scenario_keys.declared.place.Place.TheVariants.{Top};
ghost use Rattle.scenario_document.specs.of_scenario_keys.declared.refusal.Rule.TheVariants.{NotToml};
ghost use Rattle.scenario_document.specs.of_scenario_keys.Reading.{Gives, wanted};
ghost use Rattle.scenario_document.specs.of_scenario_keys.Rules.{Answers};
ghost use Rattle.scenario_document.specs.Told.{IsTold};
ghost use Rattle.scenario.specs.Document.{document_of, plan_of};

use scenario_document::{tables, whole};
use scenario_keys::{Place, ReadErr, Rule, Stop, refused};
use segment_plan::Scenario;
use std::alloc::Global;
use std::str;
use toml::Table;

fn parse(alloc: Global, text: &str) -> Result<Table, Stop>
    ensures { Gives table_view result (wanted NotToml Top (parse_document text.now)) }
{
    match toml::table_from_str(alloc, text) {
        Ok(table) => Ok(table),
        Err(error) => {
            if error.is_memory() {
                Err(Stop::NoMemory)
            } else {
                Err(refused(Rule::NotToml, Place::Top))
            }
        }
    }
}

#[tactic(auto, unfolding(crate::specs::Document::document_of))]
fn document(alloc: Global, bytes: &[u8]) -> Result<Table, Stop>
    ensures { Gives table_view result (document_of bytes.now) }
{
    match str::from_utf8(bytes) {
        Ok(text) => parse(alloc, text),
        Err(_) => Err(refused(Rule::NotToml, Place::Top)),
    }
}

#[tactic(auto, unfolding(crate::specs::Document::plan_of))]
fn plan(alloc: Global, bytes: &[u8]) -> Result<Scenario, Stop>
    ensures gives { Gives (λ s. s) result (plan_of bytes.now) }
    ensures sound { IfOk result IsPlan }
    ensures told { IfOk result IsTold }
{
    let table = document(alloc, bytes)?;
    let scenario = tables(alloc, &table)?;
    whole(scenario)
}

/// Reads a scenario. `Refused` comes exactly where the octets are no scenario, with the rule and the place of the first refusal:
/// first 1, no TOML document; then the version; then the tables, the top's keys, each slave with its objects, files and IDNs, the
/// services and the packets of the host; last 7 and 8, 11, and 12 for a frame bound above 100,000,000 where no budget is given.
pub fn read(alloc: Global, bytes: &[u8]) -> Result<Scenario, ReadErr>
    // What is read is the plan that the octets write, and what is refused is refused as they are.
    ensures exact { Answers result (plan_of bytes.now) }
    ensures sound { IfOk result IsPlan }
    // No file's name, and no drive and number of an IDN, comes twice, and a MAC address has 6 octets. An address block fits the mailboxes that it
    // goes through, and only a slave that has Bootstrap is asked for it.
    ensures told { IfOk result IsTold }
{
    match plan(alloc, bytes) {
        Ok(scenario) => Ok(scenario),
        Err(Stop::NoMemory) => Err(ReadErr::NoMemory),
        Err(Stop::Refused(refusal)) => Err(ReadErr::Refused {
            rule: refusal.rule.number(),
            place: refusal.place,
        }),
    }
}
