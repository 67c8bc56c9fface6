ghost use Rattle.std.specs.Prelude.{◌≡◌, ◌++◌, filter, map, IfOk, OnOk, option_copied};
ghost use Rattle.std.specs.List.{flat_map, list_any};
ghost use Rattle.code_texts.specs.Rows.{rows_of};
ghost use Rattle.code_texts.specs.Fitting.{is_named, is_asked, fits};
ghost use Rattle.code_texts.specs.Telling.{row_line, row_entry, found_in, found, family_head, family_entry, listed, told};

use crate::family::{Family, parts, rows};
use crate::fitting::{self, Reading, fits, is_asked};
use ec_fields::{NoMemory, Octets};
use std::alloc::Global;

/// As many blanks as stand at most between a code and its text.
const BLANKS: &[u8; 10] = b"          ";

// The line that tells a code: `SDO abort code 06090031: the value is above the maximum`.
#[tactic(auto, unfolding(crate::specs::Telling::row_line))]
fn add_row(text: &mut Octets, family: Family, row: &str) -> Result<(), NoMemory>
    ensures { OnOk result (text.new ≡ text.old ++ row_line family row.now) }
{
    let (code, says) = parts(row);
    text.add(family.title().as_bytes())?;
    text.add(b" ")?;
    text.add(code.as_bytes())?;
    text.add(b": ")?;
    text.add(says.as_bytes())?;
    text.add(b"\n")
}

// The lines of those of the rows that fit a word.
fn add_matching(
    text: &mut Octets,
    reading: Reading,
    family: Family,
    word: &[u8],
    rows: &[&str],
) -> Result<(), NoMemory>
    ensures { OnOk result (text.new ≡ text.old ++ flat_map (row_line family) (filter (fits reading family word.now) (map (λ row. row.now) rows.now))) }
{
    for row in rows {
        if fits(reading, family, word, row) {
            add_row(text, family, row)?;
        }
    }
    Ok(())
}

// The lines of the rows of a family that fit a word.
#[tactic(auto, unfolding(crate::specs::Telling::found_in))]
fn add_fitting(
    alloc: Global,
    text: &mut Octets,
    reading: Reading,
    family: Family,
    word: &[u8],
) -> Result<(), NoMemory>
    ensures { OnOk result (text.new ≡ text.old ++ found_in reading word.now family) }
{
    let rows = rows(alloc, family)?;
    add_matching(text, reading, family, word, rows.as_slice())
}

// The lines of all rows of the families asked for that fit a word.
fn add_found(
    alloc: Global,
    text: &mut Octets,
    reading: Reading,
    families: &[Family],
    head: Option<&str>,
    word: &[u8],
) -> Result<(), NoMemory>
    ensures { OnOk result (text.new ≡ text.old ++ found reading families.now (option_copied head.entry) word.now) }
{
    for family in families {
        if is_asked(head, *family) {
            add_fitting(alloc, text, reading, *family, word)?;
        }
    }
    Ok(())
}

/// The lines of all codes that a word asks for, in the order of the families and their rows: those that are the word as it stands, in
/// capital or small letters, or where there are none those that are it behind zeros. Codes of services may have `0x` ahead. Where a head
/// is given, a family's word or the first word of a report's line, only the families that it names are looked through.
#[tactic(auto, using(crate::proofs::Kept::first_told, crate::proofs::Kept::second_told), unfolding(crate::specs::Telling::told))]
pub fn find(
    alloc: Global,
    families: &[Family],
    head: Option<&str>,
    word: &str,
) -> Result<Octets, NoMemory>
    ensures { IfOk result (λ text. text ≡ told families.now (option_copied head.entry) word.now) }
{
    let mut text = Octets::new(alloc);
    add_found(
        alloc,
        &mut text,
        Reading::AsItStands,
        families,
        head,
        word.as_bytes(),
    )?;
    if !text.is_empty() {
        return Ok(text);
    }
    add_found(
        alloc,
        &mut text,
        Reading::BehindZeros,
        families,
        head,
        word.as_bytes(),
    )?;
    Ok(text)
}

// The line of a row in a list: `  06090031  the value is above the maximum`, the text from the thirteenth column on.
#[tactic(auto, unfolding(crate::specs::Telling::row_entry))]
fn add_entry(text: &mut Octets, row: &str) -> Result<(), NoMemory>
    ensures { OnOk result (text.new ≡ text.old ++ row_entry row.now) }
{
    let (code, says) = parts(row);
    text.add(b"  ")?;
    text.add(code.as_bytes())?;
    text.add(&BLANKS[..10_usize.saturating_sub(code.len())])?;
    text.add(says.as_bytes())?;
    text.add(b"\n")
}

// The line ahead of a family's rows: `SDO abort code (abort)`.
#[tactic(auto, unfolding(crate::specs::Telling::family_head))]
fn add_head(text: &mut Octets, family: Family) -> Result<(), NoMemory>
    ensures { OnOk result (text.new ≡ text.old ++ family_head family) }
{
    text.add(family.title().as_bytes())?;
    text.add(b" (")?;
    text.add(family.word().as_bytes())?;
    text.add(b")\n")
}

// The rows of a family.
fn add_entries(text: &mut Octets, rows: &[&str]) -> Result<(), NoMemory>
    ensures { OnOk result (text.new ≡ text.old ++ flat_map row_entry (map (λ row. row.now) rows.now)) }
{
    for row in rows {
        add_entry(text, row)?;
    }
    Ok(())
}

// A family with its rows.
#[tactic(auto, unfolding(crate::specs::Telling::family_entry))]
fn add_family(alloc: Global, text: &mut Octets, family: Family) -> Result<(), NoMemory>
    ensures { OnOk result (text.new ≡ text.old ++ family_entry family) }
{
    let rows = rows(alloc, family)?;
    add_head(text, family)?;
    add_entries(text, rows.as_slice())
}

/// The families asked for with all their codes: a line `TITLE (WORD)`, and for each code a line `  CODE  TEXT`.
pub fn list(alloc: Global, families: &[Family], head: Option<&str>) -> Result<Octets, NoMemory>
    ensures { IfOk result (λ text. text ≡ listed families.now (option_copied head.entry)) }
{
    let mut text = Octets::new(alloc);
    for family in families {
        if is_asked(head, *family) {
            add_family(alloc, &mut text, *family)?;
        }
    }
    Ok(text)
}

/// Whether a word names some family.
pub fn is_named(families: &[Family], head: &str) -> bool
    ensures { result ≡ list_any (is_named head.now) families.now }
{
    families
        .iter()
        .any(|family| fitting::is_named(head, *family))
}
