ghost use Rattle.std.specs.Prelude.{◌≡◌, ◌==◌, ◌≤◌, ◌<◌, ◌+◌, length, IfSome, position};
ghost use Rattle.eoe_switch.specs.Addresses.{address_at, is_group, port_of, learned_with};

use arrayvec::ArrayVec;
use byteorder::{BigEndian, ByteOrder};

/// How many addresses a switch learns.
pub const ADDRESSES: usize = 64;

/// An address, as the number of its six octets, and the port at which it was seen last.
#[derive(Clone, Copy, Default)]
pub struct Learned {
    pub address: u64,
    pub port: u32,
}

/// The address at a place of a packet.
pub fn address_at(packet: &[u8], at: usize) -> u64
    requires { at + 6 ≤ length packet.now }
    ensures { result ≡ address_at packet.now at }
{
    BigEndian::read_uint(&packet[at..], 6)
}

/// The port of an address, `None` where it isn't known.
pub fn port_of(learned: &ArrayVec<Learned, 64>, address: u64) -> Option<u32>
    ensures { result ≡ port_of address learned.now.items }
{
    let at = place_of(learned, address)?;
    Some(learned.as_slice()[at].port)
}

// The place of an address among those that are known.
fn place_of(learned: &ArrayVec<Learned, 64>, address: u64) -> Option<usize>
    ensures value { result ≡ position (λ e. e.address == address) learned.now.items }
    ensures inside { IfSome result (λ at. at < length learned.now.items) }
{
    learned
        .as_slice()
        .iter()
        .position(|entry| entry.address == address)
}

/// Learns the port of an address: a known one is moved; with 64 known, a new one isn't learned.
pub fn learn(learned: &mut ArrayVec<Learned, 64>, address: u64, port: u32)
    ensures { learned.new.items ≡ learned_with learned.old.items address port }
{
    match place_of(learned, address) {
        Some(at) => learned.as_mut_slice()[at] = Learned { address, port },
        None => {
            if learned.len() < ADDRESSES {
                learned.push(Learned { address, port });
            }
        }
    }
}
