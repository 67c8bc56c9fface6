ghost use Rattle.std.specs.Prelude.{◌≡◌, ◌+◌, ◌<◌, ◌≤◌, ◌^◌, length, slice_index};
ghost use Rattle.ec_fields.specs.Fields.{number_at, number_put, bits_of, bits_put};

use byteorder::{ByteOrder, LittleEndian};

/// The octet at a place.
pub fn u8_at(bytes: &[u8], at: usize) -> u8
    requires { at + 1 ≤ length bytes.now }
    ensures { result ≡ slice_index bytes.now at }
{
    bytes[at]
}

/// The number in the two octets from a place, the lower octet first.
pub fn u16_at(bytes: &[u8], at: usize) -> u16
    requires { at + 2 ≤ length bytes.now }
    ensures { result ≡ number_at 2 bytes.now at }
{
    LittleEndian::read_u16(&bytes[at..])
}

/// The number in the four octets from a place, the lowest octet first.
pub fn u32_at(bytes: &[u8], at: usize) -> u32
    requires { at + 4 ≤ length bytes.now }
    ensures { result ≡ number_at 4 bytes.now at }
{
    LittleEndian::read_u32(&bytes[at..])
}

/// Writes a number into the two octets from a place, the lower octet first; all others stay.
pub fn put_u16(bytes: &mut [u8], at: usize, value: u16)
    requires { at + 2 ≤ length bytes.old }
    ensures { bytes.new ≡ number_put 2 bytes.old at value }
{
    LittleEndian::write_u16(&mut bytes[at..], value);
}

/// Writes a number into the four octets from a place, the lowest octet first; all others stay.
pub fn put_u32(bytes: &mut [u8], at: usize, value: u32)
    requires { at + 4 ≤ length bytes.old }
    ensures { bytes.new ≡ number_put 4 bytes.old at value }
{
    LittleEndian::write_u32(&mut bytes[at..], value);
}

// Powers of two are kept as powers: a shift would show its remainder modulo 2 ^ 32 in each proof.
fn power(exponent: u32) -> u32
    requires { exponent ≤ 16 }
    ensures { result ≡ 2 ^ exponent }
{
    1 << exponent
}

/// The field of `count` bits whose lowest bit is bit `low`.
pub fn bits(word: u16, low: u32, count: u32) -> u16
    requires some { 1 ≤ count }
    requires inside { low + count ≤ 16 }
    ensures { result ≡ bits_of word low count }
{
    (word as u32 / power(low) % power(count)) as u16
}

/// The word with the field of `count` bits from bit `low` set to `value`; all other bits stay.
pub fn put_bits(word: u16, low: u32, count: u32, value: u16) -> u16
    requires some { 1 ≤ count }
    requires inside { low + count ≤ 16 }
    requires fits { value < 2 ^ count }
    ensures { result ≡ bits_put word low count value }
{
    let below = word as u32 % power(low);
    let above = word as u32 / power(low + count);
    (below + value as u32 * power(low) + above * power(low + count)) as u16
}
