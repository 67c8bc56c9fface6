ghost use Rattle.std.specs.Prelude.{◌≡◌, ◌++◌, OnOk};
ghost use Rattle.value_texts.specs.Lists.{word_text, words_text, first_text, more, indexes_text, counts_text, list_in, list_text};

use crate::texts::{add_octets, behind_comma, cut_at};
use ec_fields::{NoMemory, Octets};
use std::alloc::Global;

/// So many octets of the indexes of a list, at two each, are told of more.
const FIRST: usize = 32;

/// The octets of the list's kind, which stand ahead.
const KIND: usize = 2;

/// The kind of the list that has the lengths of the others.
const COUNTS: u16 = 0;

// An index, or a count, with a comma ahead.
#[tactic(auto, unfolding(crate::specs::Lists::word_text))]
fn add_word(alloc: Global, line: &mut Octets, kind: u16, word: u16) -> Result<(), NoMemory>
    ensures { OnOk result (line.new ≡ line.old ++ word_text kind word) }
{
    let text = if kind == COUNTS {
        format!(in alloc; ", {word}")?
    } else {
        format!(in alloc; ", {word:04x}")?
    };
    line.add(text.as_bytes())?;
    Ok(())
}

// The numbers in octets, two each.
fn add_words(alloc: Global, line: &mut Octets, kind: u16, octets: &[u8]) -> Result<(), NoMemory>
    ensures { OnOk result (line.new ≡ line.old ++ words_text kind octets.now) }
{
    let mut left = octets;
    while let [low, high, behind @ ..] = left {
        add_word(alloc, line, kind, u16::from_le_bytes([*low, *high]))?;
        left = behind;
    }
    Ok(())
}

// The same without the comma ahead.
#[tactic(auto, unfolding(crate::specs::Lists::first_text))]
fn add_first(alloc: Global, line: &mut Octets, kind: u16, octets: &[u8]) -> Result<(), NoMemory>
    ensures { OnOk result (line.new ≡ line.old ++ first_text kind octets.now) }
{
    let mut words = Octets::new(alloc);
    add_words(alloc, &mut words, kind, octets)?;
    line.add(behind_comma(words.bytes()))?;
    Ok(())
}

// How many indexes there are, behind the first of them.
#[tactic(auto, unfolding(crate::specs::Lists::more))]
fn add_more(alloc: Global, line: &mut Octets, many: usize) -> Result<(), NoMemory>
    ensures { OnOk result (line.new ≡ line.old ++ more many) }
{
    let text = format!(in alloc; ", .. ({many})")?;
    line.add(text.as_bytes())?;
    Ok(())
}

// The indexes of a list, of more than 16 the first 16.
#[tactic(auto, unfolding(crate::specs::Lists::indexes_text))]
fn add_indexes(alloc: Global, line: &mut Octets, kind: u16, octets: &[u8]) -> Result<(), NoMemory>
    ensures { OnOk result (line.new ≡ line.old ++ indexes_text kind octets.now) }
{
    if octets.len() <= FIRST {
        return add_first(alloc, line, kind, octets);
    }
    let (front, _) = cut_at(octets, FIRST);
    add_first(alloc, line, kind, front)?;
    add_more(alloc, line, octets.len() / 2)?;
    Ok(())
}

// The lengths of the lists.
#[tactic(auto, unfolding(crate::specs::Lists::counts_text))]
fn add_counts(alloc: Global, line: &mut Octets, octets: &[u8]) -> Result<(), NoMemory>
    ensures { OnOk result (line.new ≡ line.old ++ counts_text octets.now) }
{
    line.add(b"counts ")?;
    add_first(alloc, line, COUNTS, octets)?;
    Ok(())
}

// What stands behind the kind of a list.
#[tactic(auto, unfolding(crate::specs::Lists::list_in))]
fn add_listed(alloc: Global, line: &mut Octets, kind: u16, octets: &[u8]) -> Result<(), NoMemory>
    ensures { OnOk result (line.new ≡ line.old ++ list_in kind octets.now) }
{
    if octets.is_empty() {
        line.add(b"no objects")
    } else if kind == COUNTS {
        add_counts(alloc, line, octets)
    } else {
        add_indexes(alloc, line, kind, octets)
    }
}

/// A list of objects by their indexes: of more than 16 the first 16, and how many there are; or the lengths of the lists (ETG.1000.6, section
/// 5.6.3).
#[tactic(auto, unfolding(crate::specs::Lists::list_text))]
pub fn add_list(alloc: Global, line: &mut Octets, kind: u16, octets: &[u8]) -> Result<(), NoMemory>
    ensures { OnOk result (line.new ≡ line.old ++ list_text kind octets.now) }
{
    if octets.len() < KIND || octets.len() % 2 == 1 {
        add_octets(alloc, line, octets)
    } else {
        add_listed(alloc, line, kind, &octets[KIND..])
    }
}
