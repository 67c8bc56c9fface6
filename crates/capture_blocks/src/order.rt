ghost use Rattle.std.specs.Prelude.{◌≡◌, ◌+◌, ◌≤◌, length};
ghost use Rattle.capture_blocks.specs.Order.{number_in};

use byteorder::{BigEndian, ByteOrder};
use ec_fields::{u16_at, u32_at};

/// The byte order of a capture file's numbers.
#[derive(Clone, Copy)]
pub enum Order {
    LowFirst,
    HighFirst,
}

/// The number in the two octets from a place.
pub fn u16_in(order: Order, bytes: &[u8], at: usize) -> u16
    requires { at + 2 ≤ length bytes.now }
    ensures { result ≡ number_in order 2 bytes.now at }
{
    match order {
        Order::LowFirst => u16_at(bytes, at),
        Order::HighFirst => BigEndian::read_u16(&bytes[at..]),
    }
}

/// The number in the four octets from a place.
pub fn u32_in(order: Order, bytes: &[u8], at: usize) -> u32
    requires { at + 4 ≤ length bytes.now }
    ensures { result ≡ number_in order 4 bytes.now at }
{
    match order {
        Order::LowFirst => u32_at(bytes, at),
        Order::HighFirst => BigEndian::read_u32(&bytes[at..]),
    }
}
