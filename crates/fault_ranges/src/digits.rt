use fault_kinds::Wrong;
use fault_texts::character;
use std::alloc::{AllocError, Global};

/// The most digits that are written out.
const MOST: usize = 64;

// The first character that is no hexadecimal digit, with its place from 1.
fn no_digit(text: &str) -> Option<(char, usize)> {
    for (number, character) in text.chars().enumerate() {
        if !character.is_ascii_hexdigit() {
            return Some((character, number.saturating_add(1)));
        }
    }
    None
}

// What is no octets in a text; none where it is octets.
fn told(alloc: Global, text: &str) -> Result<Option<String>, AllocError> {
    if let Some((other, place)) = no_digit(text) {
        return Ok(Some(character(alloc, other, place)?));
    }
    let many = text.len();
    if many % 2 == 0 {
        return Ok(None);
    }
    let digits = if many == 1 { "digit" } else { "digits" };
    Ok(Some(format!(in alloc; "{many} {digits}, an odd number")?))
}

fn is_between(character: char) -> bool {
    matches!(character, ' ' | '\t' | ':' | '_' | '.' | '-')
}

// The digits of a text without `0x` ahead and without what stands between them.
fn bare(alloc: Global, text: &str) -> Result<String, AllocError> {
    let text = match text.strip_prefix("0x") {
        Some(behind) => behind,
        None => text,
    };
    let mut digits = String::new(alloc);
    for character in text.chars().take(3 * MOST) {
        if !is_between(character) {
            digits.push(character)?;
        }
    }
    Ok(digits)
}

// The octets for a text that has more than its digits.
fn octets_try(alloc: Global, key: &str, text: &str) -> Result<Option<String>, AllocError> {
    if text.len() > 3 * MOST {
        return Ok(None);
    }
    let digits = bare(alloc, text)?;
    let digits = digits.as_str();
    let fits = !digits.is_empty() && digits.len() <= MOST && digits.len() % 2 == 0;
    if fits && no_digit(digits).is_none() {
        Ok(Some(format!(in alloc; "{key} = \"{digits}\"")?))
    } else {
        Ok(None)
    }
}

/// What is wrong with a text that isn't octets; none where it is.
pub fn wrong_digits(alloc: Global, key: &str, text: &str) -> Result<Option<Wrong>, AllocError> {
    let Some(told) = told(alloc, text)? else {
        return Ok(None);
    };
    let mut wrong = Wrong::told(format!(in alloc; "`{key}` isn't octets: {told}")?);
    wrong.remedy = octets_try(alloc, key, text)?;
    Ok(Some(wrong))
}
