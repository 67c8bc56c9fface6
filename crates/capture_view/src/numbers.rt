//! Numbers in digits, appended to a line.

ghost use Rattle.std.specs.Prelude.{◌≡◌, ◌<◌, ◌++◌, ◌∷◌, [], false, decimal, string_bytes, OnOk};
ghost use Rattle.std.specs.Fmt.{digit_glyph};
ghost use Rattle.capture_view.specs.Numbers.{hex_of};

use itoa::Buffer;
use std::alloc::AllocError;

/// Appends a number in decimal digits.
pub fn add_decimal(line: &mut String, number: u64) -> Result<(), AllocError>
    ensures { OnOk result (string_bytes line.new ≡ string_bytes line.old ++ decimal number) }
{
    let mut digits = Buffer::new();
    line.push_str(digits.format(number))
}

// The digit that stands for a number below 16.
fn glyph(number: u8) -> char
    requires { number < 16 }
    ensures glyph { result ≡ digit_glyph false number }
    ensures ascii { result < 128 }
{
    if number < 10 {
        char::from(b'0' + number)
    } else {
        char::from(b'a' + (number - 10))
    }
}

// Appends the digit that stands for a number below 16.
fn add_digit(line: &mut String, number: u8) -> Result<(), AllocError>
    requires { number < 16 }
    ensures { OnOk result (string_bytes line.new ≡ string_bytes line.old ++ digit_glyph false number ∷ []) }
{
    line.push(glyph(number))
}

/// Appends an octet in two hexadecimal digits.
#[tactic(auto, using(crate::proofs::Digits::octet_behind))]
pub fn add_octet(line: &mut String, octet: u8) -> Result<(), AllocError>
    ensures { OnOk result (string_bytes line.new ≡ string_bytes line.old ++ hex_of 2 octet) }
{
    add_digit(line, octet / 16)?;
    add_digit(line, octet % 16)
}

/// Appends a word in four hexadecimal digits.
#[tactic(auto, using(crate::proofs::Digits::word_behind))]
pub fn add_word(line: &mut String, word: u16) -> Result<(), AllocError>
    ensures { OnOk result (string_bytes line.new ≡ string_bytes line.old ++ hex_of 4 word) }
{
    add_octet(line, (word / 256) as u8)?;
    add_octet(line, (word % 256) as u8)
}
