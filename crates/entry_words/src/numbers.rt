ghost use Rattle.std.specs.Prelude.{◌≡◌, ◌≤◌, ◌<◌, IfSome};
ghost use Rattle.entry_words.specs.Numbers.{digit_in, grown, with_digit, number_in, is_hexadecimal, number_word};

// The value of a hexadecimal digit.
fn digit(octet: u8) -> Option<u8>
    ensures value { result ≡ digit_in octet }
    ensures within { IfSome result (λ d. d ≤ 15) }
{
    match octet {
        b'0'..=b'9' => Some(octet - b'0'),
        b'A'..=b'F' => Some(octet - b'A' + 10),
        b'a'..=b'f' => Some(octet - b'a' + 10),
        _ => None,
    }
}

// A number with one more digit behind it, where it stays below 2 to the power 64.
fn grown(radix: u64, before: u64, digit: u8) -> Option<u64>
    ensures { result ≡ grown radix before digit }
{
    before.checked_mul(radix)?.checked_add(u64::from(digit))
}

// The same where the octet is a digit of the radix.
fn with_digit(radix: u64, before: Option<u64>, octet: u8) -> Option<u64>
    ensures { result ≡ with_digit radix before octet }
{
    match (before, digit(octet)) {
        (Some(before), Some(digit)) if u64::from(digit) < radix => grown(radix, before, digit),
        _ => None,
    }
}

/// The number that digits of a radix up to 16 write, where they are some and it is below 2 to the power 64.
#[tactic(auto, unfolding(crate::specs::Numbers::number_in))]
pub(crate) fn number(radix: u64, digits: &[u8]) -> Option<u64>
    ensures { result ≡ number_in radix digits.now }
{
    if digits.is_empty() {
        return None;
    }
    let mut number = Some(0);
    for octet in digits {
        number = with_digit(radix, number, *octet);
    }
    number
}

/// Whether a word begins as a hexadecimal number.
pub(crate) fn is_hexadecimal(word: &[u8]) -> bool
    ensures { result ≡ is_hexadecimal word.now }
{
    word.starts_with(b"0x")
}

/// The number that a word writes, in decimal digits or in hexadecimal ones behind `0x`.
pub fn number_word(word: &[u8]) -> Option<u64>
    ensures { result ≡ number_word word.now }
{
    if is_hexadecimal(word) {
        number(16, &word[2..])
    } else {
        number(10, word)
    }
}
