ghost use Rattle.std.specs.Prelude.{◌≡◌, ◌-◌, ◌++◌, length, slice_get, OnOk};
ghost use Rattle.check_summary.specs.of_segment_plan.Sound.{IsPlan};
ghost use Rattle.check_summary.specs.Summary.{pace_of, slave_lines, host_line, many_text, row_text, losses_text, losses_line, budget_text, bound_line, plan_lines, summary};

use crate::losses::longest_row;
use crate::numbers::{add_count, add_number};
use crate::promise::{add_promise, promise_of};
use crate::slaves::{add_slave, services_of};
use ec_fields::{NoMemory, Octets};
use segment_plan::{Scenario, bound};
use std::alloc::Global;

// After how many frames the slave of a number makes a step.
fn pace_of(paces: &[u32], number: usize) -> u32
    ensures { result ≡ pace_of paces.now number }
{
    paces.get(number).copied().unwrap_or(1)
}

// Adds the lines of the slaves.
fn add_slaves(alloc: Global, text: &mut Octets, plan: &Scenario) -> Result<(), NoMemory>
    ensures { OnOk result (text.new ≡ text.old ++ slave_lines plan.now) }
{
    let services = plan.services.as_slice();
    for (number, slave) in plan.slaves.as_slice().iter().enumerate() {
        let pace = pace_of(plan.paces.as_slice(), number);
        add_slave(alloc, text, slave, pace, services_of(services, number))?;
    }
    Ok(())
}

// Adds the line of the host's packets, where there are some.
#[tactic(auto, unfolding(crate::specs::Summary::host_line))]
fn add_host(text: &mut Octets, packets: usize) -> Result<(), NoMemory>
    ensures { OnOk result (text.new ≡ text.old ++ host_line packets) }
{
    if packets > 0 {
        text.add(b"host: ")?;
        add_count(text, packets, "packet", "packets")?;
        text.add(b"\n")?;
    }
    Ok(())
}

// Adds how many frames are lost, and the last.
#[tactic(auto, unfolding(crate::specs::Summary::many_text))]
fn add_many(text: &mut Octets, many: usize, last: u32) -> Result<(), NoMemory>
    ensures { OnOk result (text.new ≡ text.old ++ many_text many last) }
{
    add_number(text, many as u64)?;
    text.add(b", the last is frame ")?;
    add_number(text, u64::from(last))?;
    Ok(())
}

// Adds how many frames follow each other at most, and how many a slave outlives.
#[tactic(auto, unfolding(crate::specs::Summary::row_text))]
fn add_row(text: &mut Octets, count: u64, retry: u32) -> Result<(), NoMemory>
    ensures { OnOk result (text.new ≡ text.old ++ row_text count retry) }
{
    text.add(b"; at most ")?;
    add_number(text, count)?;
    text.add(b" in a row, and a slave outlives ")?;
    add_number(text, u64::from(retry))?;
    text.add(b"\n")?;
    Ok(())
}

// Adds what is told of the lost frames.
fn add_lost(text: &mut Octets, lose: &[(u32, u32)], retry: u32) -> Result<(), NoMemory>
    ensures { OnOk result (text.new ≡ text.old ++ losses_text lose.now retry (slice_get lose.now (length lose.now - 1))) }
{
    match lose.last() {
        Some(last) => {
            add_many(text, lose.len(), last.0)?;
            add_row(text, longest_row(lose).count(), retry)
        }
        None => text.add(b"none\n"),
    }
}

// Adds the line of the lost frames.
#[tactic(auto, unfolding(crate::specs::Summary::losses_line))]
fn add_losses(text: &mut Octets, lose: &[(u32, u32)], retry: u32) -> Result<(), NoMemory>
    ensures { OnOk result (text.new ≡ text.old ++ losses_line lose.now retry) }
{
    text.add(b"lost frames: ")?;
    add_lost(text, lose, retry)
}

// Adds the budget, where one is given.
fn add_budget(text: &mut Octets, budget: Option<u32>) -> Result<(), NoMemory>
    ensures { OnOk result (text.new ≡ text.old ++ budget_text budget) }
{
    if let Some(budget) = budget {
        text.add(b", budget ")?;
        add_number(text, u64::from(budget))?;
    }
    Ok(())
}

// Adds the line of the frame bound, and of the budget where one is given.
#[tactic(auto, unfolding(crate::specs::Summary::bound_line))]
fn add_bound(text: &mut Octets, bound: u64, budget: Option<u32>) -> Result<(), NoMemory>
    ensures { OnOk result (text.new ≡ text.old ++ bound_line bound budget) }
{
    text.add(b"frame bound: ")?;
    add_number(text, bound)?;
    add_budget(text, budget)?;
    text.add(b"\n")?;
    Ok(())
}

// Adds what a plan has: its file's name, its slaves and the host's packets.
#[tactic(auto, unfolding(crate::specs::Summary::plan_lines))]
fn add_plan(alloc: Global, text: &mut Octets, name: &str, plan: &Scenario) -> Result<(), NoMemory>
    ensures { OnOk result (text.new ≡ text.old ++ plan_lines name.now plan.now) }
{
    text.add(b"ok ")?;
    text.add(name.as_bytes())?;
    text.add(b"\n")?;
    add_slaves(alloc, text, plan)?;
    add_host(text, plan.host.len())
}

/// Adds the lines of a plan that can be run, under the name of its file.
#[tactic(auto, unfolding(crate::specs::Summary::summary))]
pub fn add_summary(
    alloc: Global,
    text: &mut Octets,
    name: &str,
    plan: &Scenario,
) -> Result<(), NoMemory>
    requires { IsPlan plan.now }
    ensures { OnOk result (text.new ≡ text.old ++ summary name.now plan.now) }
{
    add_plan(alloc, text, name, plan)?;
    add_losses(text, plan.lose.as_slice(), plan.retry)?;
    add_bound(text, bound(plan, 0), plan.budget)?;
    add_promise(text, promise_of(plan))
}
