ghost use Rattle.std.specs.Prelude.{◌≡◌, ◌↔◌, IsTrue, [], ◌∷◌};
ghost use Rattle.eoe.specs.Address.{IsBlock, fields_size, is_block};

use crate::message::Block;
use ec_fields::buffer_of;

/// The octets of a block's flags, with the three zeros behind them.
const FLAGS: usize = 4;

// The octets of the fields that these flags name. No flag is set behind one that isn't.
fn fields_size(flags: u8) -> Option<usize>
    ensures { result ≡ fields_size flags }
{
    match flags {
        0x00 => Some(0),
        0x01 => Some(6),
        0x03 => Some(10),
        0x07 => Some(14),
        0x0F => Some(18),
        0x1F => Some(22),
        0x3F => Some(54),
        _ => None,
    }
}

// Whether octets are a block, by the octets in their places.
fn has_fields(octets: &[u8]) -> bool
    ensures { result ≡ is_block octets.now }
{
    octets.len() >= FLAGS
        && octets[1] == 0
        && octets[2] == 0
        && octets[3] == 0
        && fields_size(octets[0]) == Some(octets.len() - FLAGS)
}

/// Whether octets are an address block: flags that name the first fields, three zeros, and those fields: the MAC
/// address of 6 octets, the IP address, the subnet mask, the default gateway and the DNS server of 4 each, and the
/// DNS name of 32 (ETG.1000.6, "EoE set IP parameter").
pub fn is_block(octets: &[u8]) -> bool
    ensures exact { IsTrue result ↔ IsBlock octets.now }
    ensures value { result ≡ is_block octets.now }
{
    has_fields(octets)
}

/// The block that a slave has at first: no field.
pub fn first_block() -> Block
    ensures { result.items ≡ 0 ∷ 0 ∷ 0 ∷ 0 ∷ [] }
{
    buffer_of(&[0; FLAGS])
}
