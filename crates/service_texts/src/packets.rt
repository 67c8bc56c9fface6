ghost use Rattle.std.specs.Prelude.{◌≡◌, ◌≤◌, ◌++◌, OnOk, length};
ghost use Rattle.service_texts.specs.Packets.{is_for_all, target_text, tail_text, whole_text, packet_text, gets_text};

use byteorder::{BigEndian, ByteOrder};
use ec_fields::{NoMemory, Octets};
use std::alloc::Global;
use value_texts::{add_mac, add_octets};

/// The octets of a packet's two addresses and its type.
const HEAD: usize = 14;

/// Where the addresses and the type of a packet stand.
const TARGET: usize = 0;

const SOURCE: usize = 6;

const TYPE: usize = 12;

// Whether a packet is for all.
fn is_for_all(octets: &[u8]) -> bool
    ensures { result ≡ is_for_all octets.now }
{
    octets.starts_with(&[0xff; 6])
}

#[tactic(auto, unfolding(crate::specs::Packets::target_text))]
fn add_target(alloc: Global, line: &mut Octets, octets: &[u8]) -> Result<(), NoMemory>
    requires { 14 ≤ length octets.now }
    ensures { OnOk result (line.new ≡ line.old ++ target_text octets.now) }
{
    if is_for_all(octets) {
        line.add(b"all")
    } else {
        add_mac(alloc, line, octets, TARGET)
    }
}

// A packet's type, and how many octets it has.
#[tactic(auto, unfolding(crate::specs::Packets::tail_text))]
fn add_tail(alloc: Global, line: &mut Octets, kind: u16, size: usize) -> Result<(), NoMemory>
    ensures { OnOk result (line.new ≡ line.old ++ tail_text kind size) }
{
    let text = format!(in alloc; ", type {kind:04x}, {size} octets")?;
    line.add(text.as_bytes())?;
    Ok(())
}

#[tactic(auto, unfolding(crate::specs::Packets::whole_text))]
fn add_whole(alloc: Global, line: &mut Octets, octets: &[u8]) -> Result<(), NoMemory>
    requires { 14 ≤ length octets.now }
    ensures { OnOk result (line.new ≡ line.old ++ whole_text octets.now) }
{
    add_mac(alloc, line, octets, SOURCE)?;
    line.add(b" to ")?;
    add_target(alloc, line, octets)?;
    add_tail(
        alloc,
        line,
        BigEndian::read_u16(&octets[TYPE..]),
        octets.len(),
    )?;
    Ok(())
}

/// An Ethernet packet by its addresses, type and length: `02:00:00:00:00:01 to all, type 88b5, 40 octets`. Of fewer octets than these are, as no
/// packet has, the octets.
#[tactic(auto, unfolding(crate::specs::Packets::packet_text))]
pub fn add_packet(alloc: Global, line: &mut Octets, octets: &[u8]) -> Result<(), NoMemory>
    ensures { OnOk result (line.new ≡ line.old ++ packet_text octets.now) }
{
    if octets.len() < HEAD {
        add_octets(alloc, line, octets)
    } else {
        add_whole(alloc, line, octets)
    }
}

/// A packet that is handed over.
#[tactic(auto, unfolding(crate::specs::Packets::gets_text))]
pub fn add_gets(alloc: Global, line: &mut Octets, octets: &[u8]) -> Result<(), NoMemory>
    ensures { OnOk result (line.new ≡ line.old ++ gets_text octets.now) }
{
    line.add(b"gets ")?;
    add_packet(alloc, line, octets)?;
    Ok(())
}
