ghost use Rattle.std.specs.Prelude.{◌≡◌, ◌≤◌, ◌++◌, length, All, IfOk, OnOk, OnErr};
ghost use Rattle.run_book.specs.Ports.{ports_of, IsAtPort};
ghost use Rattle.run_report.specs.Report.{is_lost, frames_line, dropped_line, gateway_lines, ending_line, end_lines, report_lines, Extends};

use crate::drops::drops;
use crate::slaves::{push_octets, push_slaves};
use ec_fields::{NoMemory, Octets, Rows};
use run_book::{Book, Ending, SentFrame};
use segment_plan::Scenario;
use segment_ring::Fate;
use std::alloc::Global;

fn is_lost(fate: Fate) -> bool
    ensures { result ≡ is_lost fate }
{
    match fate {
        Fate::Pass => false,
        Fate::Lost { .. } => true,
    }
}

fn line_of_frames(alloc: Global, frames: &[SentFrame]) -> Result<Octets, NoMemory>
    ensures { IfOk result (λ line. line ≡ frames_line frames.now) }
{
    let sent = frames.len();
    let lost = frames.iter().filter(|frame| is_lost(frame.fate)).count();
    let text = format!(in alloc; "frames {sent} lost {lost}\n")?;
    Octets::copy_of(alloc, text.as_bytes())
}

fn line_of_drops(alloc: Global, drops: u128) -> Result<Octets, NoMemory>
    ensures { IfOk result (λ line. line ≡ dropped_line drops) }
{
    let text = format!(in alloc; "dropped {drops}\n")?;
    Octets::copy_of(alloc, text.as_bytes())
}

// How many datagrams were heard and sent; no line where nobody was served.
fn push_gateway(alloc: Global, book: &Book, into: &mut Rows<Octets>) -> Result<(), NoMemory>
    ensures ok { OnOk result (into.new ≡ into.old ++ gateway_lines book.now) }
    ensures err { OnErr result (into.new ≡ into.old) }
{
    if !book.serving {
        return Ok(());
    }
    let heard = book.grams.len();
    let answered = book.replies.len();
    let text = format!(in alloc; "gateway heard {heard} answered {answered}\n")?;
    into.add(Octets::copy_of(alloc, text.as_bytes())?)
}

fn line_of_ending(alloc: Global, ending: Ending) -> Result<Octets, NoMemory>
    ensures { IfOk result (λ line. line ≡ ending_line ending) }
{
    match ending {
        Ending::Done => Octets::copy_of(alloc, b"status 0 done\n"),
        Ending::GivenUp => Octets::copy_of(alloc, b"status 7 given up\n"),
        Ending::BudgetSpent => Octets::copy_of(alloc, b"status 8 budget spent\n"),
        Ending::PortFault => Octets::copy_of(alloc, b"status 9 port fault\n"),
        Ending::Unfinished | Ending::NoMemory => Ok(Octets::new(alloc)),
    }
}

// The last lines: the packets that were dropped, what was heard and sent, and how the run ended.
fn push_end(
    alloc: Global,
    drops: u128,
    book: &Book,
    into: &mut Rows<Octets>,
) -> Result<(), NoMemory>
    ensures ok { OnOk result (into.new ≡ into.old ++ end_lines drops book.now) }
    ensures err { OnErr result (Extends into.old into.new) }
{
    into.add(line_of_drops(alloc, drops)?)?;
    push_gateway(alloc, book, into)?;
    into.add(line_of_ending(alloc, book.ending)?)?;
    Ok(())
}

/// Appends the report of a run or a serving that ended, a row a line. After `NoMemory` the rows before the call stand, and some lines behind them.
pub fn report(
    alloc: Global,
    plan: &Scenario,
    book: &Book,
    into: &mut Rows<Octets>,
) -> Result<(), NoMemory>
    requires few { length plan.now.slaves ≤ 16 }
    requires rows { length book.now.slaves ≡ length plan.now.slaves }
    requires events { All (IsAtPort (ports_of plan.now.slaves)) book.now.switch }
    ensures ok { OnOk result (into.new ≡ into.old ++ report_lines plan.now book.now) }
    ensures err { OnErr result (Extends into.old into.new) }
{
    let drops = drops(alloc, plan.slaves.as_slice(), book.switch.as_slice())?;
    into.add(line_of_frames(alloc, book.frames.as_slice())?)?;
    push_slaves(alloc, plan.slaves.as_slice(), book.slaves.as_slice(), into)?;
    push_octets(alloc, "host ", book.host.as_slice(), into)?;
    push_end(alloc, drops, book, into)
}
