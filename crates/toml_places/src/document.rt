ghost use Rattle.std.specs.Prelude.{◌≡◌, IfOk, option_copied, option_map};
ghost use Rattle.toml.specs.View.{table_view};
ghost use Rattle.toml_places.specs.Document.{text_in, document_in};

use ec_fields::NoMemory;
use std::alloc::Global;
use std::str;
use toml::Table;

/// Octets as a text, where they are one of UTF-8.
pub(crate) fn text_of(octets: &[u8]) -> Option<&str>
    ensures { option_copied result ≡ text_in octets.now }
{
    match str::from_utf8(octets) {
        Ok(text) => Some(text),
        Err(_) => None,
    }
}

/// The document that octets are, where they are one.
#[tactic(auto, unfolding(crate::specs::Document::document_in))]
pub fn document_in(alloc: Global, octets: &[u8]) -> Result<Option<Table>, NoMemory>
    ensures { IfOk result (λ table. option_map table_view table ≡ document_in octets.now) }
{
    let Some(text) = text_of(octets) else {
        return Ok(None);
    };
    match toml::table_from_str(alloc, text) {
        Ok(table) => Ok(Some(table)),
        Err(error) => {
            if error.is_memory() {
                Err(NoMemory)
            } else {
                Ok(None)
            }
        }
    }
}
