ghost use Rattle.std.specs.Prelude.{◌≡◌, IfOk, find, map, option_copied};
ghost use Rattle.std.specs.Str.Lines.{lines};
ghost use Rattle.code_texts.specs.declared.services.TheConstants.{CLASSES};
ghost use Rattle.code_texts.specs.Meaning.{has_code, said_in, meaning, class};

use crate::family::{Family, parts, rows};
use crate::services::CLASSES;
use ec_fields::NoMemory;
use std::alloc::{AllocError, Global};

// Whether a row has a code, as it stands.
fn has_code(row: &str, code: &str) -> bool
    ensures { result ≡ has_code code.now row.now }
{
    let (own, _) = parts(row);
    own == code
}

// The first row that has it.
fn row_of<'a>(rows: &'a [&'static str], code: &str) -> Option<&'a &'static str>
    ensures { option_copied result ≡ find (λ row. has_code code.now row.now) rows.now }
{
    rows.iter().find(|row| has_code(row, code))
}

// What it says, empty where no row has it.
#[tactic(auto, using(crate::proofs::Kept::said_none))]
fn said_in(rows: &[&'static str], code: &str) -> &'static str
    ensures { result.now ≡ said_in code.now (map (λ row. row.now) rows.now) }
{
    match row_of(rows, code) {
        Some(row) => {
            let (_, says) = parts(row);
            says
        }
        None => "",
    }
}

/// What a code of a family says, as it stands in the family's rows; empty where the family doesn't have the code.
#[tactic(auto, unfolding(crate::specs::Meaning::meaning))]
pub fn meaning(alloc: Global, family: Family, code: &str) -> Result<&'static str, NoMemory>
    ensures { IfOk result (λ says. says.now ≡ meaning family code.now) }
{
    let rows = rows(alloc, family)?;
    Ok(said_in(rows.as_slice(), code))
}

// The rows of the classes of emergencies.
fn class_rows(alloc: Global) -> Result<Vec<&'static str>, AllocError>
    ensures { IfOk result (λ rows. map (λ row. row.now) rows.items ≡ lines CLASSES.now) }
{
    CLASSES.lines().collect(alloc)
}

/// The class of the emergencies whose codes have a high octet, by its two digits; empty where it has none.
#[tactic(auto, unfolding(crate::specs::Meaning::class))]
pub fn emergency_class(alloc: Global, digits: &str) -> Result<&'static str, NoMemory>
    ensures { IfOk result (λ says. says.now ≡ class digits.now) }
{
    let rows = class_rows(alloc)?;
    Ok(said_in(rows.as_slice(), digits))
}
