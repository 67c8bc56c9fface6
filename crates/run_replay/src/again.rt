ghost use Rattle.run_book.specs.of_segment_plan.Sound.{IsPlan};

use crate::checksum::Checksum;
use crate::measure::{Measured, Uncounted, count_frames};
use datagrams::FrameBuf;
use ec_fields::{NoMemory, Rows};
use eoe_switch::SwitchEvent;
use master_node::{MasterNode, Next};
use run_book::{Book, SentFrame};
use segment_plan::Scenario;
use segment_ring::Fate;
use std::alloc::Global;

/// What became of a run that was to be made again.
#[derive(Clone, Copy)]
pub enum Replayed {
    /// Each of its frames was made again. The checksum is that of all frames and what came back of them, in order.
    Same {
        frames: usize,
        checksum: u32,
        measured: Measured,
    },
    /// The first frame that is another.
    Other {
        frame: usize,
    },
    /// Each was, but they don't count by the measure.
    Uncounted(Uncounted),
}

// Whether the next frame is the recorded one. The master learns what became of it.
fn is_made_again(master: &mut MasterNode, row: &SentFrame) -> bool {
    let mut frame = FrameBuf::new();
    if !matches!(master.next(&mut frame), Next::Frame) || frame.as_slice() != row.sent.bytes() {
        return false;
    }
    match row.fate {
        Fate::Lost { .. } => master.lost(),
        Fate::Pass => {
            let mut back = FrameBuf::new();
            if back.try_extend_from_slice(row.back.bytes()).is_err() {
                return false;
            }
            master.returned(&back);
        }
    }
    true
}

// The numbers of the frames with which a packet of the host came in.
fn entries(alloc: Global, book: &Book) -> Result<Rows<u32>, NoMemory> {
    let mut numbers = Rows::new(alloc);
    for (at, event) in book.switch.as_slice().iter().enumerate() {
        if let (SwitchEvent::Arrive { port: 0, .. }, Some(number)) = (
            event,
            book.switched.get(at),
        ) {
            numbers.add(*number)?;
        }
    }
    Ok(numbers)
}

// The checksum of the recorded frames, or the first that a new master, given the recorded fates and backs, doesn't make.
fn made_again(
    alloc: Global,
    plan: &Scenario,
    rows: &[SentFrame],
) -> Result<Result<u32, usize>, NoMemory>
    requires { IsPlan plan.now }
{
    let mut master = MasterNode::new(alloc, plan)?;
    let mut checksum = Checksum::new();
    for (frame, row) in rows.iter().enumerate() {
        if !is_made_again(&mut master, row) {
            return Ok(Err(frame));
        }
        checksum.add(row.sent.bytes());
        checksum.add(row.back.bytes());
    }
    Ok(Ok(checksum.value()))
}

/// Makes the run of a plan again that a book records, and counts its frames.
pub fn replay(alloc: Global, plan: &Scenario, book: &Book) -> Result<Replayed, NoMemory>
    requires { IsPlan plan.now }
{
    let rows = book.frames.as_slice();
    let checksum = match made_again(alloc, plan, rows)? {
        Ok(checksum) => checksum,
        Err(frame) => return Ok(Replayed::Other { frame }),
    };
    let entries = entries(alloc, book)?;
    match count_frames(alloc, plan, rows, entries.as_slice()) {
        Ok(measured) => Ok(Replayed::Same {
            frames: rows.len(),
            checksum,
            measured,
        }),
        Err(uncounted) => Ok(Replayed::Uncounted(uncounted)),
    }
}
