//! A run of one link over any list of steps.

ghost use Rattle.std.specs.Prelude.{◌≡◌, ◌≤◌, ◌↔◌, All, IsTrue, IfOk};
ghost use Rattle.mailbox_master.specs.of_link_model.Mails.{IsPrefixOf};
ghost use Rattle.mailbox_master.specs.of_link_model.Agree.{Accords};
ghost use Rattle.mailbox_master.specs.of_link_model.Numbers.{Numbered};
ghost use Rattle.mailbox_law.specs.Waiting.{bodies_of};
ghost use Rattle.mailbox_law.specs.Steps.{FitsLink, link_behind, given};
ghost use Rattle.mailbox_law.specs.World.{IsSound, Shows, link_of};

use crate::steps::{LinkRun, LinkStep};
use crate::world::{World, add};
use ec_fields::{NoMemory, Rows};
use mailbox_mail::Mail;
use std::alloc::Global;

// The same mails in rows.
fn rows_of(alloc: Global, mails: Vec<Mail>) -> Result<Rows<Mail>, NoMemory>
    ensures { IfOk result (λ rows. rows ≡ mails.items) }
{
    let mut rows = Rows::new(alloc);
    for mail in mails {
        add(&mut rows, mail)?;
    }
    Ok(rows)
}

/// Whether each mail of these steps fits its mailbox, of these lengths.
pub fn all_fit(steps: &[LinkStep], out_len: u16, in_len: u16) -> bool
    ensures { IsTrue result ↔ All (FitsLink out_len in_len) steps.now }
{
    steps.iter().all(|step| step.fits(out_len, in_len))
}

/// The link of a slave whose mailboxes have these lengths, 64 to 1,486 octets, behind a list of steps from the end of
/// its bring-up on: halves, datagrams, registers, the slave's box, and a server that keeps each mail that it takes and
/// offers the mails given to it.
pub fn run_world(
    alloc: Global,
    steps: &[LinkStep],
    out_len: u16,
    in_len: u16,
) -> Result<World, NoMemory>
    requires outward { (64 ≤ out_len) × (out_len ≤ 1486) }
    requires inward { (64 ≤ in_len) × (in_len ≤ 1486) }
    requires fits { All (FitsLink out_len in_len) steps.now }

    // Station, sync managers and lengths are those of the bring-up.
    ensures sound { IfOk result (IsSound out_len in_len) }

    // The model's link behind these steps is what stands in registers, box, halves and lists.
    ensures shows { IfOk result (λ world. Shows world (link_behind steps.now)) }

    // So it agrees there, in what still is on its way and by the numbers of mails.
    ensures agrees { IfOk result (λ world. Accords (link_of world)) }
    ensures numbers { IfOk result (λ world. Numbered (link_of world)) }
{
    let mut world = World::new(alloc, out_len, in_len)?;
    for step in steps {
        world = world.make(step)?;
    }
    Ok(world)
}

/// Runs one link as [`run_world`] does, for its lists of mails. They are those of the steps, and mails are compared
/// without their counters.
pub fn run_link(
    alloc: Global,
    steps: &[LinkStep],
    out_len: u16,
    in_len: u16,
) -> Result<LinkRun, NoMemory>
    requires outward { (64 ≤ out_len) × (out_len ≤ 1486) }
    requires inward { (64 ≤ in_len) × (in_len ≤ 1486) }
    requires fits { All (FitsLink out_len in_len) steps.now }

    // The law: taken once and in order, accepted once and in order.
    ensures taken_in_order { IfOk result (λ run. IsPrefixOf (bodies_of run.taken) (bodies_of run.held)) }
    ensures accepted_in_order { IfOk result (λ run. IsPrefixOf (bodies_of run.accepted) (bodies_of run.offered)) }

    // The lists are those of the steps.
    ensures held { IfOk result (λ run. bodies_of run.held ≡ (link_behind steps.now).held) }
    ensures taken { IfOk result (λ run. bodies_of run.taken ≡ (link_behind steps.now).taken) }
    ensures offered { IfOk result (λ run. bodies_of run.offered ≡ given steps.now) }
    ensures accepted { IfOk result (λ run. bodies_of run.accepted ≡ (link_behind steps.now).accepted) }
{
    let world = run_world(alloc, steps, out_len, in_len)?;
    let World {
        keeper,
        held,
        given,
        accepted,
        ..
    } = world;
    Ok(LinkRun {
        held,
        taken: rows_of(alloc, keeper.into_taken())?,
        offered: given,
        accepted,
    })
}
