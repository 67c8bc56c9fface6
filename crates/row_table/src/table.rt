use crate::row::Row;
use anyhow::{Result, bail};
use std::alloc::Global;
use std::fs;
use std::rt::Files;

/// What the rows of a table are asked of, one behind the other.
pub trait Bench {
    /// Carries out what a row asks, and tells it what is found.
    fn carry(&mut self, row: &mut Row<'_>);
}

// What is wrong with a row, if it doesn't hold.
fn wrong_at<B: Bench>(alloc: Global, line: &str, bench: &mut B) -> Result<Option<String>> {
    let Some((asked, wanted)) = line.split_once(" = ") else {
        bail!("no row: {line}");
    };
    let mut row = Row::of(alloc, asked);
    bench.carry(&mut row);
    if row.holds(wanted) {
        return Ok(None);
    }
    let (found, faulty) = (row.found(), row.is_faulty());
    Ok(Some(format!(in alloc; "{asked}: {found} (fault: {faulty}) and not {wanted}")?))
}

// How many rows of a table hold, or the first that doesn't.
fn told<B: Bench>(alloc: Global, name: &str, table: &str, bench: &mut B) -> Result<String> {
    let mut count = 0_usize;
    for line in table.lines() {
        if line.starts_with('#') {
            continue;
        }
        if let Some(wrong) = wrong_at(alloc, line, bench)? {
            return Ok(format!(in alloc; "{name}: {wrong}")?);
        }
        count = count.saturating_add(1);
    }
    Ok(format!(in alloc; "{name}: {count} rows hold")?)
}

/// Prints how many rows of the table of this name hold, or the first that doesn't.
pub fn tell<R: AllocGlobal + Files + Print, B: Bench + Drop>(
    rt: &R,
    name: &str,
    bench: Option<B>,
) -> Result<()> {
    let Some(mut bench) = bench else {
        bail!("{name}: no bench");
    };
    let table = fs::read_to_string(rt, name)?;
    let line = told(rt.alloc(), name, table.as_str(), &mut bench)?;
    println!(rt; "{line}")?;
    Ok(())
}
