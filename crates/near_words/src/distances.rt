ghost use Rattle.std.specs.Prelude.{◌≡◌, IfOk, length, chars, map, option_copied};
ghost use Rattle.near_words.specs.Near.{distance, is_near, nearer, nearest, near};

use ec_fields::NoMemory;
use std::alloc::Global;
use strsim::levenshtein;

// The Levenshtein distance of two words, both in small letters.
#[tactic(auto, unfolding(crate::specs::Near::distance))]
fn distance(alloc: Global, word: &str, other: &str) -> Result<usize, NoMemory>
    ensures { IfOk result (λ d. d ≡ distance word.now other.now) }
{
    let word = word.to_ascii_lowercase(alloc)?;
    let other = other.to_ascii_lowercase(alloc)?;
    let steps = levenshtein(alloc, word.as_str(), other.as_str())?;
    Ok(steps)
}

// The nearer of two words, the first where both are as near.
#[tactic(auto, unfolding(crate::specs::Near::nearer))]
fn nearer<'a>(
    alloc: Global,
    word: &str,
    best: Option<&'a str>,
    other: &'a str,
) -> Result<Option<&'a str>, NoMemory>
    ensures { IfOk result (λ o. option_copied o ≡ nearer word.now (option_copied best.entry) other.now) }
{
    let Some(best) = best else {
        return Ok(Some(other));
    };
    if distance(alloc, word, other)? < distance(alloc, word, best)? {
        Ok(Some(other))
    } else {
        Ok(Some(best))
    }
}

// The nearest of the words, the first of several.
#[tactic(auto, unfolding(crate::specs::Near::nearest))]
fn nearest<'a>(alloc: Global, words: &[&'a str], word: &str) -> Result<Option<&'a str>, NoMemory>
    ensures { IfOk result (λ o. option_copied o ≡ nearest word.now (map (λ w. w.now) words.now)) }
{
    let mut best = None;
    for other in words {
        best = nearer(alloc, word, best, *other)?;
    }
    Ok(best)
}

// How many characters a word has.
fn characters(word: &str) -> usize
    ensures { result ≡ length (chars word.now) }
{
    word.chars().count()
}

// Whether a word is near enough to another to be meant.
#[tactic(auto, unfolding(crate::specs::Near::is_near))]
fn is_near(alloc: Global, word: &str, other: &str) -> Result<bool, NoMemory>
    ensures { IfOk result (λ b. b ≡ is_near word.now other.now) }
{
    let steps = distance(alloc, word, other)?;
    Ok(steps <= characters(word) / 2)
}

/// The word of a list that may have been meant: the nearest by its Levenshtein distance, both in small letters, the first of several,
/// where twice the distance is at most the number of the word's characters. `NoMemory` is want of memory.
#[tactic(auto, unfolding(crate::specs::Near::near))]
pub fn near<'a>(alloc: Global, words: &[&'a str], word: &str) -> Result<Option<&'a str>, NoMemory>
    ensures { IfOk result (λ o. option_copied o ≡ near word.now (map (λ w. w.now) words.now)) }
{
    let Some(best) = nearest(alloc, words, word)? else {
        return Ok(None);
    };
    if is_near(alloc, word, best)? {
        Ok(Some(best))
    } else {
        Ok(None)
    }
}
