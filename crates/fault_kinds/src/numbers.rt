use fault_texts::type_named;
use std::alloc::{AllocError, Global};

// Whether a text is a number in decimal digits as TOML has them.
fn is_decimal(text: &str) -> bool {
    let digits = match text.strip_prefix('-') {
        Some(digits) => digits,
        None => text,
    };
    match digits.as_bytes() {
        [] => false,
        [b'0'] => true,
        [b'0', ..] => false,
        all => all.len() <= 18 && all.iter().all(|digit| digit.is_ascii_digit()),
    }
}

// Whether a text is some hexadecimal digits, of at most 60 bits.
fn is_hexadecimal(text: &str) -> bool {
    let digits = text.as_bytes();
    let fits = !digits.is_empty() && digits.len() <= 15;
    fits && digits.iter().all(|digit| digit.is_ascii_hexdigit())
}

// Whether a text is a number as a scenario writes it.
fn is_number(text: &str) -> bool {
    match text.strip_prefix("0x") {
        Some(digits) => is_hexadecimal(digits),
        None => is_decimal(text),
    }
}

// The access bits of a word: to read, to write or both, in each state.
fn access_of(word: &str) -> Option<u64> {
    if word.eq_ignore_ascii_case("rw") {
        Some(63)
    } else if word.eq_ignore_ascii_case("r") || word.eq_ignore_ascii_case("ro") {
        Some(7)
    } else if word.eq_ignore_ascii_case("w") || word.eq_ignore_ascii_case("wo") {
        Some(56)
    } else {
        None
    }
}

// The number of an AL state's name.
fn state_of(word: &str) -> Option<u64> {
    if word.eq_ignore_ascii_case("init") {
        Some(1)
    } else if word.eq_ignore_ascii_case("preop") {
        Some(2)
    } else if word.eq_ignore_ascii_case("boot") || word.eq_ignore_ascii_case("bootstrap") {
        Some(3)
    } else if word.eq_ignore_ascii_case("safeop") {
        Some(4)
    } else if word.eq_ignore_ascii_case("op") {
        Some(8)
    } else {
        None
    }
}

// The number that a word of a key stands for.
fn number_of(key: &str, word: &str) -> Option<u64> {
    match key {
        "type" => u64::try_from(type_named(word)?.number).ok(),
        "access" => access_of(word),
        "target" => state_of(word),
        _ => None,
    }
}

/// A number for a text that stands in its place: that of a type's name, of access words or of an AL state, or the number in the quotes;
/// four hexadecimal digits of an index are taken for that.
pub(crate) fn number_try(
    alloc: Global,
    key: &str,
    text: &str,
) -> Result<Option<String>, AllocError> {
    if let Some(number) = number_of(key, text) {
        return Ok(Some(format!(in alloc; "{key} = {number}")?));
    }
    if key == "index" && text.len() == 4 && is_hexadecimal(text) {
        return Ok(Some(format!(in alloc; "{key} = 0x{text}")?));
    }
    if is_number(text) {
        return Ok(Some(format!(in alloc; "{key} = {text}")?));
    }
    Ok(None)
}
