ghost use Rattle.std.specs.Prelude.{◌≡◌, ◌++◌, find, map, IfOk, OnOk, option_copied, string_bytes};
ghost use Rattle.std.specs.List.{flat_map};
ghost use Rattle.form_help.specs.Rows.{rows_of, words_of, text_of, name_of, is_named, row_named};
ghost use Rattle.form_help.specs.Help.{entry, form_lines, usage_line, usage_of, all_lines, no_form, of_form, help_of};

use crate::forms::{BLANKS, FOOT, HEAD};
use ec_fields::{NoMemory, Octets};
use near_words::{add_hint, near};
use std::alloc::{AllocError, Global};

/// What is told, and whether what was asked for is known.
#[derive(Drop)]
pub struct Told {
    /// Whether it is known.
    pub is_known: bool,
    /// The lines.
    pub text: Octets,
}

// The rows of a table of forms.
fn rows<'a>(alloc: Global, forms: &'a str) -> Result<Vec<&'a str>, AllocError>
    ensures { IfOk result (λ rows. map (λ row. row.now) rows.items ≡ rows_of forms.now) }
{
    forms.lines().collect(alloc)
}

// A row's words, and what the form does.
#[tactic(auto, unfolding(crate::specs::Rows::words_of, crate::specs::Rows::text_of))]
fn parts(row: &str) -> (&str, &str)
    ensures words { result.0.now ≡ words_of row.now }
    ensures text { result.1.now ≡ text_of row.now }
{
    match row.split_once('|') {
        Some(parts) => parts,
        None => (row, ""),
    }
}

// The name of a row's form: its first word.
#[tactic(auto, unfolding(crate::specs::Rows::name_of))]
fn name(row: &str) -> &str
    ensures { result.now ≡ name_of row.now }
{
    let (words, _) = parts(row);
    match words.split_once(' ') {
        Some((name, _)) => name,
        None => words,
    }
}

// Whether a row is that of the form of a name.
#[tactic(auto, unfolding(crate::specs::Rows::is_named))]
fn is_named(row: &str, word: &str) -> bool
    ensures { result ≡ is_named word.now row.now }
{
    name(row) == word
}

// The names of the rows' forms.
fn names<'a>(alloc: Global, rows: &[&'a str]) -> Result<Vec<&'a str>, AllocError>
    ensures { IfOk result (λ names. map (λ name. name.now) names.items ≡ map name_of (map (λ row. row.now) rows.now)) }
{
    let mut names = Vec::new(alloc);
    for row in rows {
        names.push(name(row))?;
    }
    Ok(names)
}

// The place of the row of the form of a name.
fn find_row<'s, 'a>(rows: &'s [&'a str], word: &str) -> Option<&'s &'a str>
    ensures { option_copied result ≡ find (λ row. is_named word.now row.now) rows.now }
{
    rows.iter().find(|row| is_named(row, word))
}

// The row of the form of a name.
#[tactic(auto, unfolding(crate::specs::Rows::row_named))]
fn row_named<'a>(rows: &[&'a str], word: &str) -> Option<&'a str>
    ensures { option_copied result ≡ row_named word.now (map (λ row. row.now) rows.now) }
{
    find_row(rows, word).copied()
}

// The line of a form in the list, its text from the forty-first column on.
#[tactic(auto, unfolding(crate::specs::Help::entry))]
fn add_entry(text: &mut Octets, row: &str) -> Result<(), NoMemory>
    ensures { OnOk result (text.new ≡ text.old ++ entry row.now) }
{
    let (words, says) = parts(row);
    text.add(b"  ecmbx ")?;
    text.add(words.as_bytes())?;
    text.add(&BLANKS[..32_usize.saturating_sub(words.len())])?;
    text.add(says.as_bytes())?;
    text.add(b"\n")
}

// The lines of all forms in the list.
fn add_entries(text: &mut Octets, rows: &[&str]) -> Result<(), NoMemory>
    ensures { OnOk result (text.new ≡ text.old ++ flat_map entry (map (λ row. row.now) rows.now)) }
{
    for row in rows {
        add_entry(text, row)?;
    }
    Ok(())
}

// The list of all forms.
#[tactic(auto, unfolding(crate::specs::Help::all_lines))]
fn all_lines(alloc: Global, rows: &[&str]) -> Result<Octets, NoMemory>
    ensures { IfOk result (λ text. text ≡ all_lines (map (λ row. row.now) rows.now)) }
{
    let mut text = Octets::copy_of(alloc, HEAD.as_bytes())?;
    add_entries(&mut text, rows)?;
    text.add(FOOT.as_bytes())?;
    Ok(text)
}

// The two lines of one form.
#[tactic(auto, unfolding(crate::specs::Help::form_lines))]
fn form_lines(alloc: Global, row: &str) -> Result<Octets, NoMemory>
    ensures { IfOk result (λ text. text ≡ form_lines row.now) }
{
    let (words, says) = parts(row);
    let mut text = Octets::copy_of(alloc, b"ecmbx ")?;
    text.add(words.as_bytes())?;
    text.add(b"\n  ")?;
    text.add(says.as_bytes())?;
    text.add(b"\n")?;
    Ok(text)
}

// The line of a name that no form has.
#[tactic(auto, unfolding(crate::specs::Help::no_form))]
fn no_form(alloc: Global, rows: &[&str], word: &str) -> Result<Octets, NoMemory>
    ensures { IfOk result (λ text. text ≡ no_form (map (λ row. row.now) rows.now) word.now) }
{
    let names = names(alloc, rows)?;
    let mut text = Octets::copy_of(alloc, b"no form is named \"")?;
    text.add(word.as_bytes())?;
    text.add(b"\": help alone lists all")?;
    add_hint(&mut text, near(alloc, names.as_slice(), word)?)?;
    text.add(b"\n")?;
    Ok(text)
}

// The line of a form whose words don't fit.
#[tactic(auto, unfolding(crate::specs::Help::usage_line))]
fn usage_line(alloc: Global, row: &str) -> Result<Octets, NoMemory>
    ensures { IfOk result (λ line. line ≡ usage_line row.now) }
{
    let (words, _) = parts(row);
    let mut line = Octets::copy_of(alloc, b"usage: ecmbx ")?;
    line.add(words.as_bytes())?;
    line.add(b"\n")?;
    Ok(line)
}

/// The line of a form whose words don't fit: `usage: ecmbx check SCENARIO`. `NoMemory` is want of memory.
#[tactic(auto, unfolding(crate::specs::Help::usage_of))]
pub fn usage(alloc: Global, forms: &str, word: &str) -> Result<Octets, NoMemory>
    ensures { IfOk result (λ line. line ≡ usage_of forms.now word.now) }
{
    let rows = rows(alloc, forms)?;
    match row_named(rows.as_slice(), word) {
        Some(row) => usage_line(alloc, row),
        None => Ok(Octets::new(alloc)),
    }
}

// What is told of the form of a name.
fn of_form(alloc: Global, forms: &str, word: &str) -> Result<Told, NoMemory>
    ensures { IfOk result (λ t. t ≡ of_form (rows_of forms.now) word.now (row_named word.now (rows_of forms.now))) }
{
    let rows = rows(alloc, forms)?;
    match row_named(rows.as_slice(), word) {
        Some(row) => Ok(Told {
            is_known: true,
            text: form_lines(alloc, row)?,
        }),
        None => Ok(Told {
            is_known: false,
            text: no_form(alloc, rows.as_slice(), word)?,
        }),
    }
}

/// What the words behind `help` ask for, of a table of forms: all forms, or the one of a name. `NoMemory` is want of memory.
#[tactic(auto, unfolding(crate::specs::Help::help_of))]
pub fn help(alloc: Global, forms: &str, words: &[String]) -> Result<Told, NoMemory>
    ensures { IfOk result (λ t. t ≡ help_of forms.now (map string_bytes words.now)) }
{
    match words {
        [] => {
            let rows = rows(alloc, forms)?;
            Ok(Told {
                is_known: true,
                text: all_lines(alloc, rows.as_slice())?,
            })
        }
        [word] => of_form(alloc, forms, word.as_str()),
        _ => Ok(Told {
            is_known: false,
            text: usage(alloc, forms, "help")?,
        }),
    }
}
