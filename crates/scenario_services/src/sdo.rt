ghost use Rattle.std.specs.Prelude.{◌≡◌, IfOk};
ghost use Rattle.toml.specs.View.{table_view};
ghost use Rattle.scenario_values.specs.of_segment_plan.Sound.{IsSdo};
ghost use Rattle.scenario_values.specs.of_scenario_keys.Reading.{Gives};
ghost use Rattle.scenario_services.specs.Sdo.{word_at, sub_at, sdo_of};

use crate::actions::SdoAction;
use object_dictionary::SdoService;
use scenario_keys::{Place, Stop, needed_integer};
use scenario_values::needed_octets;
use std::alloc::Global;
use toml::Table;

/// An index or a kind of list: 0 to 65,535.
pub(crate) fn word(table: &Table, key: &str, place: Place) -> Result<u16, Stop>
    ensures { Gives (λ n. n) result (word_at key.now place (table_view table.now)) }
{
    Ok(needed_integer(table, key, 0, 0xFFFF, place)? as u16)
}

/// A subindex: 0 to 255.
pub(crate) fn subindex(table: &Table, key: &str, place: Place) -> Result<u8, Stop>
    ensures { Gives (λ n. n) result (sub_at key.now place (table_view table.now)) }
{
    Ok(needed_integer(table, key, 0, 0xFF, place)? as u8)
}

/// What the keys of a service of CoE say.
#[tactic(auto, unfolding(crate::specs::Sdo::sdo_of))]
pub(crate) fn sdo_body(
    alloc: Global,
    action: SdoAction,
    table: &Table,
    place: Place,
) -> Result<SdoService, Stop>
    ensures gives { Gives (λ s. s) result (sdo_of action place (table_view table.now)) }
    ensures sound { IfOk result IsSdo }
{
    match action {
        SdoAction::Download => {
            let index = word(table, "index", place)?;
            let sub = subindex(table, "sub", place)?;
            let bytes = needed_octets(alloc, table, "value", 1, 8000, place)?;
            Ok(SdoService::Download { index, sub, bytes })
        }
        SdoAction::Upload => {
            let index = word(table, "index", place)?;
            let sub = subindex(table, "sub", place)?;
            Ok(SdoService::Upload { index, sub })
        }
        SdoAction::DownloadAll => {
            let index = word(table, "index", place)?;
            let from = subindex(table, "from", place)?;
            let bytes = needed_octets(alloc, table, "value", 1, 16_000, place)?;
            Ok(SdoService::DownloadAll { index, from, bytes })
        }
        SdoAction::UploadAll => {
            let index = word(table, "index", place)?;
            let from = subindex(table, "from", place)?;
            Ok(SdoService::UploadAll { index, from })
        }
        SdoAction::List => Ok(SdoService::List {
            kind: word(table, "kind", place)?,
        }),
        SdoAction::ObjectInfo => Ok(SdoService::ObjectInfo {
            index: word(table, "index", place)?,
        }),
        SdoAction::EntryInfo => {
            let index = word(table, "index", place)?;
            let sub = subindex(table, "sub", place)?;
            Ok(SdoService::EntryInfo {
                index,
                sub,
                info: 0,
            })
        }
    }
}
