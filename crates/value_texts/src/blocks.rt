ghost use Rattle.std.specs.Prelude.{◌≡◌, ◌≤◌, ◌<◌, ◌+◌, ◌==◌, ◌++◌, OnOk, IfSome, length, position};
ghost use Rattle.value_texts.specs.Blocks.{mac_text, address_text, address_at, name_of, name_at, fields_text, block_text};

use crate::texts::{add_octets, add_quoted, cut_at};
use ec_fields::{NoMemory, Octets};
use eoe::is_block;
use std::alloc::Global;

/// Where the MAC address, the IP address, the mask, the gateway, the DNS server and the name stand in a block.
const MAC: usize = 4;

const IP: usize = 10;

const MASK: usize = 14;

const GATEWAY: usize = 18;

const SERVER: usize = 22;

const NAME: usize = 26;

/// A MAC address, `02:00:00:00:00:a1`, at a place.
#[tactic(auto, unfolding(crate::specs::Blocks::mac_text))]
pub fn add_mac(alloc: Global, line: &mut Octets, octets: &[u8], at: usize) -> Result<(), NoMemory>
    requires { at + 6 ≤ length octets.now }
    ensures { OnOk result (line.new ≡ line.old ++ mac_text octets.now at) }
{
    let (a, b, c) = (octets[at], octets[at + 1], octets[at + 2]);
    let (d, e, f) = (octets[at + 3], octets[at + 4], octets[at + 5]);
    let text = format!(in alloc; "{a:02x}:{b:02x}:{c:02x}:{d:02x}:{e:02x}:{f:02x}")?;
    line.add(text.as_bytes())?;
    Ok(())
}

// An IP address at a place, whose last octet stands first: `192.168.0.10`.
#[tactic(auto, unfolding(crate::specs::Blocks::address_text))]
fn add_address(alloc: Global, line: &mut Octets, octets: &[u8], at: usize) -> Result<(), NoMemory>
    requires { at + 4 ≤ length octets.now }
    ensures { OnOk result (line.new ≡ line.old ++ address_text octets.now at) }
{
    let (a, b) = (octets[at + 3], octets[at + 2]);
    let (c, d) = (octets[at + 1], octets[at]);
    let text = format!(in alloc; "{a}.{b}.{c}.{d}")?;
    line.add(text.as_bytes())?;
    Ok(())
}

// An IP address at a place behind its word, where the block goes so far.
#[tactic(auto, unfolding(crate::specs::Blocks::address_at))]
fn add_address_at(
    alloc: Global,
    line: &mut Octets,
    word: &str,
    octets: &[u8],
    at: usize,
) -> Result<(), NoMemory>
    requires { at ≤ 22 }
    ensures { OnOk result (line.new ≡ line.old ++ address_at word.now octets.now at) }
{
    if octets.len() < at + 4 {
        return Ok(());
    }
    line.add(word.as_bytes())?;
    add_address(alloc, line, octets, at)?;
    Ok(())
}

// Where the first octet stands that is 0.
fn end_of(octets: &[u8]) -> Option<usize>
    ensures value { result ≡ position (λ octet. octet == 0) octets.now }
    ensures inside { IfSome result (λ at. at < length octets.now) }
{
    octets.iter().position(|octet| *octet == 0)
}

// The octets of a name, up to the first that is 0.
#[tactic(auto, unfolding(crate::specs::Blocks::name_of))]
fn name_of(octets: &[u8]) -> &[u8]
    ensures { result.now ≡ name_of octets.now }
{
    match end_of(octets) {
        Some(end) => &octets[..end],
        None => octets,
    }
}

// The DNS name, where the block has one.
#[tactic(auto, unfolding(crate::specs::Blocks::name_at))]
fn add_name(alloc: Global, line: &mut Octets, octets: &[u8]) -> Result<(), NoMemory>
    ensures { OnOk result (line.new ≡ line.old ++ name_at octets.now) }
{
    if octets.len() <= NAME {
        return Ok(());
    }
    let (_, name) = cut_at(octets, NAME);
    line.add(b", name ")?;
    add_quoted(alloc, line, name_of(name))?;
    Ok(())
}

// The fields of a block that has a MAC address.
#[tactic(auto, unfolding(crate::specs::Blocks::fields_text))]
fn add_fields(alloc: Global, line: &mut Octets, octets: &[u8]) -> Result<(), NoMemory>
    requires { 10 ≤ length octets.now }
    ensures { OnOk result (line.new ≡ line.old ++ fields_text octets.now) }
{
    line.add(b"MAC ")?;
    add_mac(alloc, line, octets, MAC)?;
    add_address_at(alloc, line, ", IP ", octets, IP)?;
    add_address_at(alloc, line, ", mask ", octets, MASK)?;
    add_address_at(alloc, line, ", gateway ", octets, GATEWAY)?;
    add_address_at(alloc, line, ", DNS ", octets, SERVER)?;
    add_name(alloc, line, octets)?;
    Ok(())
}

/// An address block (ETG.1000.6, "EoE set IP parameter") by those fields whose flags are set, or octets that are none.
#[tactic(auto, unfolding(crate::specs::Blocks::block_text))]
pub fn add_block(alloc: Global, line: &mut Octets, octets: &[u8]) -> Result<(), NoMemory>
    ensures { OnOk result (line.new ≡ line.old ++ block_text octets.now) }
{
    if !is_block(octets) {
        add_octets(alloc, line, octets)
    } else if octets.len() < IP {
        line.add(b"no address")
    } else {
        add_fields(alloc, line, octets)
    }
}
