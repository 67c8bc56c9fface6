ghost use Rattle.std.specs.Prelude.{◌≡◌, ◌≤◌, ◌<◌, ◌++◌, ◌∷◌, [], OnOk};
ghost use Rattle.std.specs.Fmt.{decimal};
ghost use Rattle.hex.specs.Hex.{encode_lower};
ghost use Rattle.scenario_made.specs.Made.{made, pair_head, pair, slave, octet, times, value, action_head, valued, action, service_head, service};

use crate::draws::Draws;
use ec_fields::{NoMemory, Octets};
use itoa::Buffer;

fn add_number(into: &mut Octets, number: u32) -> Result<(), NoMemory>
    ensures { OnOk result (into.new ≡ into.old ++ decimal number) }
{
    let mut buffer = Buffer::new();
    into.add(buffer.format(number).as_bytes())
}

fn add_octet(into: &mut Octets, octet: u8) -> Result<(), NoMemory>
    ensures { OnOk result (into.new ≡ into.old ++ encode_lower (octet ∷ [])) }
{
    let mut digits = [0; 2];
    match hex::encode_to_slice([octet], &mut digits) {
        Ok(()) => into.add(&digits),
        Err(_) => unreachable!(),
    }
}

fn pair_head(number: u32) -> &'static [u8]
    ensures { result.now ≡ pair_head number }
{
    if number == 0 { b"[" } else { b", [" }
}

/// A lost frame, and how many slaves it meets before.
pub fn add_pair(draws: &mut Draws, into: &mut Octets, number: u32) -> Result<(), NoMemory>
    requires { number ≤ 4096 }
    ensures { OnOk result (made draws.new.state into.new ≡ pair number (made draws.old.state into.old)) }
{
    let frame = draws.draw(5) as u32;
    into.add(pair_head(number))?;
    add_number(into, 20 + 10 * number + frame)?;
    let after = draws.draw(4) as u32;
    into.add(b", ")?;
    add_number(into, after)?;
    into.add(b"]")
}

/// What a slave has behind its mailboxes.
const REST_OF_SLAVE: &[u8] =
    b"]\nserves = [\"coe\", \"foe\"]\nblocks = 8\n\n[[slave.object]]\nindex = 8192\nkind = \"variable\"\nname = \"Store\"\n\n[[slave.object.entry]]\ntype = 10\naccess = 63\nsize = [1, 200]\nvalue = \"00\"\n\n[[slave.file]]\nname = \"f\"\nrights = \"rw\"\nvalue = \"\"\n";

/// A slave of a name, with a station address and mailboxes of a length.
pub fn add_slave(into: &mut Octets, name: &[u8], station: u32, area: u32) -> Result<(), NoMemory>
    ensures { OnOk result (into.new ≡ slave name.now station area into.old) }
{
    into.add(b"\n[[slave]]\nname = \"")?;
    into.add(name)?;
    into.add(b"\"\nstation = ")?;
    add_number(into, station)?;
    into.add(b"\nmail = [")?;
    add_number(into, area)?;
    into.add(b", ")?;
    add_number(into, area)?;
    into.add(REST_OF_SLAVE)
}

fn add_drawn_octet(draws: &mut Draws, into: &mut Octets) -> Result<(), NoMemory>
    ensures { OnOk result (made draws.new.state into.new ≡ octet (made draws.old.state into.old)) }
{
    let octet = draws.draw(256) as u8;
    add_octet(into, octet)
}

#[tactic(auto, using(crate::proofs::Times::times_more))]
fn add_octets(draws: &mut Draws, into: &mut Octets, count: u64) -> Result<(), NoMemory>
    ensures { OnOk result (made draws.new.state into.new ≡ times (λ _ o. octet o) count (made draws.old.state into.old)) }
{
    for _ in 0..count {
        add_drawn_octet(draws, into)?;
    }
    Ok(())
}

/// A value of `least` octets and a draw below `k` more.
fn add_value(draws: &mut Draws, into: &mut Octets, least: u64, k: u64) -> Result<(), NoMemory>
    requires least { least ≤ 1 }
    requires some { 1 ≤ k }
    requires few { k ≤ 300 }
    ensures { OnOk result (made draws.new.state into.new ≡ value least k (made draws.old.state into.old)) }
{
    let count = least + draws.draw(k);
    into.add(b"value = \"")?;
    add_octets(draws, into, count)?;
    into.add(b"\"\n")
}

fn action_head(kind: u64) -> &'static [u8]
    ensures { result.now ≡ action_head kind }
{
    match kind {
        0 => b"do = \"download\"\nindex = 8192\nsub = 0\n",
        1 => b"do = \"upload\"\nindex = 8192\nsub = 0\n",
        2 => b"do = \"write_file\"\nname = \"f\"\n",
        _ => b"do = \"read_file\"\nname = \"f\"\n",
    }
}

fn add_valued(draws: &mut Draws, into: &mut Octets, kind: u64) -> Result<(), NoMemory>
    ensures { OnOk result (made draws.new.state into.new ≡ valued kind (made draws.old.state into.old)) }
{
    if kind == 0 {
        add_value(draws, into, 1, 200)
    } else if kind == 2 {
        add_value(draws, into, 0, 300)
    } else {
        Ok(())
    }
}

/// What a service does.
fn add_action(draws: &mut Draws, into: &mut Octets, kind: u64) -> Result<(), NoMemory>
    ensures { OnOk result (made draws.new.state into.new ≡ action kind (made draws.old.state into.old)) }
{
    into.add(action_head(kind))?;
    add_valued(draws, into, kind)
}

fn service_head(slave: u64) -> &'static [u8]
    ensures { result.now ≡ service_head slave }
{
    match slave {
        0 => b"\n[[service]]\nslave = \"a\"\n",
        1 => b"\n[[service]]\nslave = \"b\"\n",
        _ => b"\n[[service]]\nslave = \"c\"\n",
    }
}

/// A service of a drawn slave.
pub fn add_service(draws: &mut Draws, into: &mut Octets) -> Result<(), NoMemory>
    ensures { OnOk result (made draws.new.state into.new ≡ service (made draws.old.state into.old)) }
{
    let slave = draws.draw(3);
    into.add(service_head(slave))?;
    let action = draws.draw(4);
    add_action(draws, into, action)
}
