ghost use Rattle.std.specs.Prelude.{◌≡◌, ◌≤◌, ◌*◌, ◌/◌, ◌%◌, [], length, unwrap_or, is_ok, Some, None, if◌then◌else◌};
ghost use Rattle.std.specs.Result.{result_ok};
ghost use Rattle.std.specs.List.{list_all};
ghost use Rattle.hex.specs.Hex.{hex_digit_value, is_hex_digit, decode_of};

use arrayvec::ArrayVec;

/// The value of each character as a hexadecimal digit, in either case; 16 where it is none.
const DIGITS: &[u8; 256] = &[
    16, 16, 16, 16, 16, 16, 16, 16, 16, 16, 16, 16, 16, 16, 16, 16, 16, 16, 16, 16, 16, 16, 16, 16,
    16, 16, 16, 16, 16, 16, 16, 16, 16, 16, 16, 16, 16, 16, 16, 16, 16, 16, 16, 16, 16, 16, 16, 16,
    0, 1, 2, 3, 4, 5, 6, 7, 8, 9, 16, 16, 16, 16, 16, 16, 16, 10, 11, 12, 13, 14, 15, 16, 16, 16,
    16, 16, 16, 16, 16, 16, 16, 16, 16, 16, 16, 16, 16, 16, 16, 16, 16, 16, 16, 16, 16, 16, 16, 10,
    11, 12, 13, 14, 15, 16, 16, 16, 16, 16, 16, 16, 16, 16, 16, 16, 16, 16, 16, 16, 16, 16, 16, 16,
    16, 16, 16, 16, 16, 16, 16, 16, 16, 16, 16, 16, 16, 16, 16, 16, 16, 16, 16, 16, 16, 16, 16, 16,
    16, 16, 16, 16, 16, 16, 16, 16, 16, 16, 16, 16, 16, 16, 16, 16, 16, 16, 16, 16, 16, 16, 16, 16,
    16, 16, 16, 16, 16, 16, 16, 16, 16, 16, 16, 16, 16, 16, 16, 16, 16, 16, 16, 16, 16, 16, 16, 16,
    16, 16, 16, 16, 16, 16, 16, 16, 16, 16, 16, 16, 16, 16, 16, 16, 16, 16, 16, 16, 16, 16, 16, 16,
    16, 16, 16, 16, 16, 16, 16, 16, 16, 16, 16, 16, 16, 16, 16, 16, 16, 16, 16, 16, 16, 16, 16, 16,
    16, 16, 16, 16, 16, 16, 16, 16, 16, 16, 16, 16, 16, 16,
];

/// The value of a character as a hexadecimal digit, 16 where it is none.
fn digit(character: u8) -> u8
    ensures { result ≡ unwrap_or (hex_digit_value character) 16 }
{
    DIGITS[usize::from(character)]
}

fn is_digit(character: u8) -> bool
    ensures { result ≡ is_hex_digit character }
{
    digit(character) <= 15
}

/// Decodes pairs of hexadecimal digits into their place; whether all characters are digits.
pub(crate) fn decode_into(text: &[u8], out: &mut [u8]) -> bool
    requires { length text.now ≡ 2 * length out.old }
    ensures { result_ok (decode_of text.now) ≡ (if result then Some out.new else None) }
{
    'octets: for i in 0..out.len() {
        let high = digit(text[2 * i]);
        let low = digit(text[2 * i + 1]);
        if high > 15 || low > 15 {
            return false;
        }
        out[i] = high * 16 + low;
    }
    true
}

/// Decodes pairs of hexadecimal digits into an empty buffer; whether all characters are digits.
pub(crate) fn decode_behind<const CAP: usize>(text: &[u8], buffer: &mut ArrayVec<u8, CAP>) -> bool
    requires even { length text.now % 2 ≡ 0 }
    requires room { length text.now / 2 ≤ CAP }
    requires empty { buffer.old.items ≡ [] }
    ensures { result_ok (decode_of text.now) ≡ (if result then Some buffer.new.items else None) }
{
    'octets: for i in 0..text.len() / 2 {
        let high = digit(text[2 * i]);
        let low = digit(text[2 * i + 1]);
        if high > 15 || low > 15 {
            return false;
        }
        buffer.push(high * 16 + low);
    }
    true
}

fn are_digits(text: &[u8]) -> bool
    ensures { result ≡ list_all is_hex_digit text.now }
{
    text.iter().all(|character| is_digit(*character))
}

/// Whether a text writes octets: an even number of characters, all of them hexadecimal digits.
#[tactic(auto, using(crate::proofs::Pairs::digits_told, crate::proofs::Pairs::odd_told))]
pub(crate) fn writes_octets(text: &[u8]) -> bool
    ensures { result ≡ is_ok (decode_of text.now) }
{
    text.len() % 2 == 0 && are_digits(text)
}
