ghost use Rattle.std.specs.Prelude.{◌≡◌, ◌++◌, length, IfOk, OnOk, OnErr};
ghost use Rattle.run_report.specs.Report.{station_text, handled_text, slave_line, epoch_line, epoch_lines, octets_line, octets_lines, emergency_lines, lines_of_slave, slave_lines, Extends};

use crate::answers::{packets_handed, push_answers};
use ec_fields::{NoMemory, Octets, Rows};
use run_book::{Emergency, Epoch, SlaveBook};
use segment_plan::SlaveSpec;
use std::alloc::Global;

fn state_text(alloc: Global, station: u16, state: u8) -> Result<Octets, NoMemory>
    ensures { IfOk result (λ text. text ≡ station_text station state) }
{
    let text = format!(in alloc; " station {station:04x} state {state:x}")?;
    Octets::copy_of(alloc, text.as_bytes())
}

fn count_text(alloc: Global, handled: u64, packets: usize) -> Result<Octets, NoMemory>
    ensures { IfOk result (λ text. text ≡ handled_text handled packets) }
{
    let text = format!(in alloc; " handled {handled} packets {packets}\n")?;
    Octets::copy_of(alloc, text.as_bytes())
}

fn line_of_slave(
    alloc: Global,
    number: usize,
    spec: &SlaveSpec,
    row: &SlaveBook,
) -> Result<Octets, NoMemory>
    ensures { IfOk result (λ line. line ≡ slave_line number spec.now row.now) }
{
    let packets = packets_handed(row.begun.as_slice(), row.answers.as_slice());
    let head = format!(in alloc; "slave {number} ")?;
    let state = state_text(alloc, spec.station, row.node.al())?;
    let counts = count_text(alloc, row.node.handled(), packets)?;
    let mut line = Octets::copy_of(alloc, head.as_bytes())?;
    line.add(spec.name.bytes())?;
    line.add(state.bytes())?;
    line.add(counts.bytes())?;
    Ok(line)
}

fn line_of_epoch(alloc: Global, number: usize, row: u32) -> Result<Octets, NoMemory>
    ensures { IfOk result (λ line. line ≡ epoch_line number row) }
{
    let text = format!(in alloc; "epoch {number} row {row}\n")?;
    Octets::copy_of(alloc, text.as_bytes())
}

/// A line for each epoch but the first.
fn push_epochs(alloc: Global, epochs: &[Epoch], into: &mut Rows<Octets>) -> Result<(), NoMemory>
    ensures ok { OnOk result (into.new ≡ into.old ++ epoch_lines 0 epochs.now) }
    ensures err { OnErr result (Extends into.old into.new) }
{
    for (number, epoch) in epochs.iter().enumerate() {
        if number > 0 {
            into.add(line_of_epoch(alloc, number, epoch.row)?)?;
        }
    }
    Ok(())
}

/// A word and octets in hexadecimal digits.
pub fn line_of_octets(alloc: Global, word: &str, octets: &[u8]) -> Result<Octets, NoMemory>
    ensures { IfOk result (λ line. line ≡ octets_line word.now octets.now) }
{
    let digits = hex::encode(alloc, octets)?;
    let mut line = Octets::copy_of(alloc, word.as_bytes())?;
    line.add(digits.as_bytes())?;
    line.add(b"\n")?;
    Ok(line)
}

/// Appends a line for each row of octets.
pub fn push_octets(
    alloc: Global,
    word: &str,
    rows: &[Octets],
    into: &mut Rows<Octets>,
) -> Result<(), NoMemory>
    ensures ok { OnOk result (into.new ≡ into.old ++ octets_lines word.now rows.now) }
    ensures err { OnErr result (Extends into.old into.new) }
{
    for octets in rows {
        into.add(line_of_octets(alloc, word, octets.bytes())?)?;
    }
    Ok(())
}

/// Appends a line for each emergency.
fn push_emergencies(
    alloc: Global,
    rows: &[Emergency],
    into: &mut Rows<Octets>,
) -> Result<(), NoMemory>
    ensures ok { OnOk result (into.new ≡ into.old ++ emergency_lines rows.now) }
    ensures err { OnErr result (Extends into.old into.new) }
{
    for row in rows {
        into.add(line_of_octets(alloc, "emergency ", row.octets.bytes())?)?;
    }
    Ok(())
}

fn push_slave(
    alloc: Global,
    number: usize,
    spec: &SlaveSpec,
    row: &SlaveBook,
    into: &mut Rows<Octets>,
) -> Result<(), NoMemory>
    ensures ok { OnOk result (into.new ≡ into.old ++ lines_of_slave number spec.now row.now) }
    ensures err { OnErr result (Extends into.old into.new) }
{
    into.add(line_of_slave(alloc, number, spec, row)?)?;
    push_epochs(alloc, row.epochs.as_slice(), into)?;
    push_answers(alloc, row.begun.as_slice(), row.answers.as_slice(), into)?;
    push_emergencies(alloc, row.emergencies.as_slice(), into)
}

/// Appends the lines of all slaves.
pub fn push_slaves(
    alloc: Global,
    specs: &[SlaveSpec],
    rows: &[SlaveBook],
    into: &mut Rows<Octets>,
) -> Result<(), NoMemory>
    requires { length rows.now ≡ length specs.now }
    ensures ok { OnOk result (into.new ≡ into.old ++ slave_lines 0 specs.now rows.now) }
    ensures err { OnErr result (Extends into.old into.new) }
{
    for (number, spec) in specs.iter().enumerate() {
        push_slave(alloc, number, spec, &rows[number], into)?;
    }
    Ok(())
}
