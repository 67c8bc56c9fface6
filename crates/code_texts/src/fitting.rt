ghost use Rattle.std.specs.Prelude.{◌≡◌, ◌==◌, option_copied};
ghost use Rattle.std.specs.List.{list_all};
ghost use Rattle.code_texts.specs.Fitting.{is_same, is_padded, is_named, is_asked, digits_in, fits};

use crate::family::{Family, parts};

/// How a word is compared with a code.
#[derive(Clone, Copy)]
pub(crate) enum Reading {
    /// The code is the word.
    AsItStands,
    /// The code is the word behind zeros.
    BehindZeros,
}

/// Whether two words are the same, but for capital and small letters.
pub fn is_same(one: &[u8], other: &[u8]) -> bool
    ensures { result ≡ is_same one.now other.now }
{
    one.eq_ignore_ascii_case(other)
}

// Whether all digits are 0.
fn are_zeros(digits: &[u8]) -> bool
    ensures { result ≡ list_all (λ digit. digit == 48) digits.now }
{
    digits.iter().all(|digit| *digit == b'0')
}

// Whether a code is these digits, which are some, behind none or some zeros.
#[tactic(auto, using(crate::proofs::Kept::padded), unfolding(crate::specs::Fitting::is_padded))]
fn is_padded(code: &[u8], digits: &[u8]) -> bool
    ensures { result ≡ is_padded code.now digits.now }
{
    if digits.is_empty() || digits.len() > code.len() {
        return false;
    }
    let (zeros, behind) = code.split_at(code.len() - digits.len());
    are_zeros(zeros) && is_same(behind, digits)
}

// The digits of a word: codes of services may be asked for with `0x` ahead.
#[tactic(auto, unfolding(crate::specs::Fitting::digits_in))]
fn digits_in<'a>(family: Family, word: &'a [u8]) -> &'a [u8]
    ensures { result.now ≡ digits_in family word.now }
{
    if family.is_of_services() && word.starts_with(b"0x") {
        &word[2..]
    } else {
        word
    }
}

/// Whether a row of a family has the code that a word asks for.
#[tactic(auto, unfolding(crate::specs::Fitting::fits))]
pub(crate) fn fits(reading: Reading, family: Family, word: &[u8], row: &str) -> bool
    ensures { result ≡ fits reading family word.now row.now }
{
    let (code, _) = parts(row);
    let digits = digits_in(family, word);
    match reading {
        Reading::AsItStands => is_same(code.as_bytes(), digits),
        Reading::BehindZeros => is_padded(code.as_bytes(), digits),
    }
}

/// Whether a word is the one by which a family is asked for, or the one with which a report's line begins that tells its codes.
#[tactic(auto, unfolding(crate::specs::Fitting::is_named))]
pub(crate) fn is_named(head: &str, family: Family) -> bool
    ensures { result ≡ is_named head.now family }
{
    let head = head.as_bytes();
    is_same(head, family.word().as_bytes()) || is_same(head, family.report().as_bytes())
}

/// Whether a family is asked for: each is, where no word names one.
#[tactic(auto, unfolding(crate::specs::Fitting::is_asked))]
pub(crate) fn is_asked(head: Option<&str>, family: Family) -> bool
    ensures { result ≡ is_asked (option_copied head.entry) family }
{
    match head {
        None => true,
        Some(head) => is_named(head, family),
    }
}
