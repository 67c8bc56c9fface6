ghost use Rattle.std.specs.Prelude.{◌≡◌, ◌+◌, ◌*◌, ◌≤◌, List, ℕ, length, drop, Some, IfSome};
ghost use Rattle.byteorder.specs.Endian.{big_number};
ghost use Rattle.ethercat_places.specs.Place.{Tag, IsTagged, is_tag, behind_tag, type_place, udp_place, place_behind, place_at, place_of};

use byteorder::{BigEndian, ByteOrder};

/// Where EtherCAT stands in a packet: from place `from`, that of the EtherCAT header, to before place `to`.
#[derive(Clone, Copy)]
pub struct Place {
    pub from: usize,
    pub to: usize,
}

/// How many octets the two addresses have.
const ADDRESSES: usize = 12;

/// How many octets a VLAN tag has.
const TAG: usize = 4;

/// The EtherType and the UDP port of EtherCAT.
const ETHERCAT: u16 = 0x88a4;

const IPV4: u16 = 0x0800;

/// How many octets an IPv4 head has at the least.
const LEAST_HEAD: usize = 20;

const UDP: u8 = 17;

/// How many octets a UDP head has.
const UDP_HEAD: usize = 8;

// The number in the two octets from a place, the higher first.
fn word(bytes: &[u8], at: usize) -> u16
    requires { at + 2 ≤ length bytes.now }
    ensures { result ≡ big_number 2 (drop at bytes.now) }
{
    BigEndian::read_u16(&bytes[at..])
}

// Whether an EtherType is that of a VLAN tag (IEEE 802.1Q, 802.1ad, and the older double tag).
fn names_tag(ether_type: u16) -> bool
    ensures { result ≡ is_tag ether_type }
{
    ether_type == 0x8100 || ether_type == 0x88a8 || ether_type == 0x9100
}

// The place behind the tag that stands at a place, the place itself where none does.
fn past_tag(bytes: &[u8], at: usize) -> usize
    requires { at ≤ 16 }
    ensures value { result ≡ behind_tag bytes.now at }
    ensures near { result ≤ at + 4 }
{
    if bytes.len() < at + TAG {
        return at;
    }
    if names_tag(word(bytes, at)) {
        at + TAG
    } else {
        at
    }
}

// The place of the EtherType.
fn type_at(bytes: &[u8]) -> usize
    ensures value { result ≡ type_place bytes.now }
    ensures near { result ≤ 20 }
{
    past_tag(bytes, past_tag(bytes, ADDRESSES))
}

// The place of the UDP head behind the IPv4 head at a place, `None` where no whole datagram stands there.
fn udp_at(bytes: &[u8], at: usize) -> Option<usize>
    requires { at ≤ 22 }
    ensures value { result ≡ udp_place bytes.now at }
    ensures near { IfSome result (λ udp. udp ≤ at + 60) }
{
    if bytes.len() < at + LEAST_HEAD {
        return None;
    }
    let words = (bytes[at] % 16) as usize;
    if bytes[at] / 16 != 4 || words < 5 {
        return None;
    }
    if bytes[at + 9] != UDP || word(bytes, at + 6) % 0x4000 != 0 {
        return None;
    }
    Some(at + 4 * words)
}

// Where EtherCAT stands behind the UDP head at a place.
fn behind_udp(bytes: &[u8], udp: usize) -> Option<Place>
    requires { udp ≤ 82 }
    ensures { result ≡ place_behind bytes.now (Some udp) }
{
    let from = udp + UDP_HEAD;
    if bytes.len() < from {
        return None;
    }
    if word(bytes, udp) != ETHERCAT && word(bytes, udp + 2) != ETHERCAT {
        return None;
    }
    let end = udp + word(bytes, udp + 4) as usize;
    Some(Place {
        from,
        to: bytes.len().min(from.max(end)),
    })
}

// Where EtherCAT stands behind the addresses and tags, where the EtherType stands at a place.
fn behind_type(bytes: &[u8], at: usize) -> Option<Place>
    requires { at ≤ 20 }
    ensures { result ≡ place_at bytes.now at }
{
    if bytes.len() < at + 2 {
        return None;
    }
    let from = at + 2;
    match word(bytes, at) {
        ETHERCAT => Some(Place {
            from,
            to: bytes.len(),
        }),
        IPV4 => match udp_at(bytes, from) {
            Some(udp) => behind_udp(bytes, udp),
            None => None,
        },
        _ => None,
    }
}

// The same of the whole packet, by the reader's own rule.
fn find_plain(bytes: &[u8]) -> Option<Place>
    ensures { result ≡ place_of bytes.now }
{
    behind_type(bytes, type_at(bytes))
}

/// Where EtherCAT stands in a packet of a link of Ethernet, behind at most two VLAN tags: behind EtherType
/// 88A4 to the packet's end, or in UDP of port 34980 (ETG.1000.4, 5.2) to the UDP length's end; `None` in
/// other traffic, and in an IPv4 fragment.
pub fn find(bytes: &[u8]) -> Option<Place>
    ensures inside { IfSome result (λ place. (place.from ≤ place.to) × (place.to ≤ length bytes.now)) }
    ensures tagged { (tags : List Tag) (payload : List ℕ) → IsTagged bytes.now tags payload → result ≡ Some (record { from = 14 + 4 * length tags; to = length bytes.now }) }
    ensures exact { result ≡ place_of bytes.now }
{
    find_plain(bytes)
}
