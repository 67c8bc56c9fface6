ghost use Rattle.std.specs.Prelude.{◌≡◌, ◌++◌, map, IfOk, OnOk, option_copied, string_bytes};
ghost use Rattle.code_texts.specs.Family.{word_of};
ghost use Rattle.people_call.specs.Explain.{is_filler, without_filler, unknown_line, finding, coded, explained};

use code_texts::{Family, find, is_named, is_same, list};
use ec_fields::{NoMemory, Octets};
use form_help::Told;
use near_words::{add_hint, near};
use std::alloc::{AllocError, Global};

// Whether a word stands in a report's line between the word of its family and the code: `AL status 0011`, `audit no A3 at 13`.
#[tactic(auto, unfolding(crate::specs::Explain::is_filler))]
fn is_filler(head: &str, word: &str) -> bool
    ensures { result ≡ is_filler head.now word.now }
{
    let (head, word) = (head.as_bytes(), word.as_bytes());
    is_same(head, b"AL") && is_same(word, b"status")
        || is_same(head, b"audit") && is_same(word, b"no")
}

// The words behind a family's word and its filler.
#[tactic(auto, unfolding(crate::specs::Explain::without_filler))]
fn without_filler<'a>(head: &str, words: &'a [String]) -> &'a [String]
    ensures { map string_bytes result.now ≡ without_filler head.now (map string_bytes words.now) }
{
    match words {
        [word, rest @ ..] if is_filler(head, word.as_str()) => rest,
        _ => words,
    }
}

// The words of the families.
fn family_words(alloc: Global, families: &[Family]) -> Result<Vec<&'static str>, AllocError>
    ensures { IfOk result (λ words. map (λ word. word.now) words.items ≡ map word_of families.now) }
{
    let mut words = Vec::new(alloc);
    for family in families {
        words.push(family.word())?;
    }
    Ok(words)
}

// The line of a word that is no code.
fn add_unknown(
    alloc: Global,
    line: &mut Octets,
    families: &[Family],
    word: &str,
) -> Result<(), NoMemory>
    ensures { OnOk result (line.new ≡ line.old ++ unknown_line families.now word.now) }
{
    let words = family_words(alloc, families)?;
    line.add(b"unknown code \"")?;
    line.add(word.as_bytes())?;
    line.add(b"\": explain alone lists all")?;
    add_hint(line, near(alloc, words.as_slice(), word)?)?;
    line.add(b"\n")?;
    Ok(())
}

// What a word asks for.
#[tactic(auto, using(crate::proofs::Known::is_known, crate::proofs::Known::is_unknown), unfolding(crate::specs::Explain::finding))]
fn finding(
    alloc: Global,
    families: &[Family],
    head: Option<&str>,
    word: &str,
) -> Result<Told, NoMemory>
    ensures { IfOk result (λ t. t ≡ finding families.now (option_copied head.entry) word.now) }
{
    let mut text = find(alloc, families, head, word)?;
    if !text.is_empty() {
        return Ok(Told {
            is_known: true,
            text,
        });
    }
    add_unknown(alloc, &mut text, families, word)?;
    Ok(Told {
        is_known: false,
        text,
    })
}

// What the words behind the one of a family ask for: the first is a code, and without one all codes are asked for.
#[tactic(auto, unfolding(crate::specs::Explain::coded))]
fn coded(
    alloc: Global,
    families: &[Family],
    head: Option<&str>,
    words: &[String],
) -> Result<Told, NoMemory>
    ensures { IfOk result (λ t. t ≡ coded families.now (option_copied head.entry) (map string_bytes words.now)) }
{
    match words {
        [code, ..] => finding(alloc, families, head, code.as_str()),
        [] => {
            let text = list(alloc, families, head)?;
            Ok(Told {
                is_known: true,
                text,
            })
        }
    }
}

/// What the words behind `explain` ask for, which may be those of a report's line.
#[tactic(auto, unfolding(crate::specs::Explain::explained))]
pub(crate) fn explained(
    alloc: Global,
    families: &[Family],
    words: &[String],
) -> Result<Told, NoMemory>
    ensures { IfOk result (λ t. t ≡ explained families.now (map string_bytes words.now)) }
{
    match words {
        [head, rest @ ..] if is_named(families, head.as_str()) => {
            let head = head.as_str();
            coded(alloc, families, Some(head), without_filler(head, rest))
        }
        _ => coded(alloc, families, None, words),
    }
}
