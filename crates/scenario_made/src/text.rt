ghost use Rattle.std.specs.Prelude.{◌≡◌, ◌≤◌, OnOk};
ghost use Rattle.scenario_made.specs.Made.{made, times, pair, losses, slaves, service, made_behind, text_of};

use crate::draws::Draws;
use crate::parts::{add_pair, add_service, add_slave};
use ec_fields::{NoMemory, Octets};

#[tactic(auto, using(crate::proofs::Times::times_more))]
fn add_pairs(draws: &mut Draws, into: &mut Octets, count: u32) -> Result<(), NoMemory>
    requires { count ≤ 4096 }
    ensures { OnOk result (made draws.new.state into.new ≡ times pair count (made draws.old.state into.old)) }
{
    for number in 0..count {
        add_pair(draws, into, number)?;
    }
    Ok(())
}

fn add_losses(draws: &mut Draws, into: &mut Octets, size: u32) -> Result<(), NoMemory>
    requires { size ≤ 4096 }
    ensures { OnOk result (made draws.new.state into.new ≡ losses size (made draws.old.state into.old)) }
{
    into.add(b"version = 1\nretry = 3\nlose = [")?;
    add_pairs(draws, into, size / 8)?;
    into.add(b"]\n")
}

fn add_slaves(into: &mut Octets) -> Result<(), NoMemory>
    ensures { OnOk result (into.new ≡ slaves into.old) }
{
    add_slave(into, b"a", 4097, 64)?;
    add_slave(into, b"b", 4098, 128)?;
    add_slave(into, b"c", 4099, 256)
}

#[tactic(auto, using(crate::proofs::Times::times_more))]
fn add_services(draws: &mut Draws, into: &mut Octets, count: u32) -> Result<(), NoMemory>
    ensures { OnOk result (made draws.new.state into.new ≡ times (λ _ m. service m) count (made draws.old.state into.old)) }
{
    for _ in 0..count {
        add_service(draws, into)?;
    }
    Ok(())
}

fn add_text(draws: &mut Draws, into: &mut Octets, size: u32) -> Result<(), NoMemory>
    requires { size ≤ 4096 }
    ensures { OnOk result (made draws.new.state into.new ≡ made_behind into.old draws.old.state size) }
{
    add_losses(draws, into, size)?;
    add_slaves(into)?;
    add_services(draws, into, size)
}

/// Puts the scenario of a seed and a size, 1 to 4,096 services, behind what stands in `into`. `NoMemory` is want of memory; a part of
/// the text may stand there then.
pub fn make(seed: u32, size: u32, into: &mut Octets) -> Result<(), NoMemory>
    requires { size ≤ 4096 }
    ensures { OnOk result (into.new ≡ text_of into.old seed size) }
{
    let mut draws = Draws {
        state: u64::from(seed),
    };
    add_text(&mut draws, into, size)
}
