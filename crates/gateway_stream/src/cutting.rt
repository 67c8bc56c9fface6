ghost use Rattle.std.specs.Prelude.{◌≡◌, ◌≤◌, ◌+◌, length, IfSome};
ghost use Rattle.gateway_stream.specs.Cutting.{missing, is_request};

use ec_fields::{bits, u16_at};

/// The octets of the frame header in front of a mail.
const FRAME_HEADER: usize = 2;

/// The type of a frame header that is followed by a mail (ETG.1000.4, "EtherCAT frame").
const MAILBOX: u16 = 5;

/// The most octets behind a frame header that a datagram holds.
const MOST: u16 = 2046;

/// How many octets are missing of the request whose header stands at the front or, where it isn't
/// there yet, of that header; none where the header is no request's.
pub(crate) fn missing(octets: &[u8]) -> Option<usize>
    ensures value { result ≡ missing octets.now }
    ensures fits { length octets.now ≤ 2048 → IfSome result (λ most. length octets.now + most ≤ 2048) }
{
    let len = octets.len();
    if len < FRAME_HEADER {
        return Some(FRAME_HEADER - len);
    }
    let word = u16_at(octets, 0);
    let behind = bits(word, 0, 11);
    if bits(word, 12, 4) != MAILBOX || behind > MOST {
        return None;
    }
    Some((FRAME_HEADER + behind as usize).saturating_sub(len))
}

/// Whether octets are one request, with nothing behind it.
pub(crate) fn is_request(octets: &[u8]) -> bool
    ensures { result ≡ is_request octets.now }
{
    let len = octets.len();
    if len < FRAME_HEADER {
        return false;
    }
    let word = u16_at(octets, 0);
    let behind = bits(word, 0, 11);
    bits(word, 12, 4) == MAILBOX && behind <= MOST && len == FRAME_HEADER + behind as usize
}
