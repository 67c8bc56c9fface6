ghost use Rattle.std.specs.Prelude.{◌≡◌, ◌≤◌, ◌<◌, ◌++◌, length, All, OnOk, OnErr};
ghost use Rattle.pcap_frames.specs.Capture.{packets_text, StartsWith};
ghost use Rattle.pcap_frames.specs.declared.order.Order.TheVariants.{LowFirst};
ghost use Rattle.run_book.specs.Book.{IsShort};
ghost use Rattle.run_report.specs.Saved.{stamp_of, packets_of, capture_of};

use ec_fields::{NoMemory, Octets};
use pcap_frames::{Stamp, write_head, write_packet};
use run_book::SentFrame;
use segment_ring::Fate;

/// So many microseconds are a second.
const SECOND: usize = 1_000_000;

// The time of a frame: its number in microseconds.
fn stamp_of(number: usize) -> Stamp
    requires { number < 100000000 }
    ensures { result ≡ stamp_of number }
{
    Stamp {
        seconds: (number / SECOND) as u32,
        part: (number % SECOND) as u32,
    }
}

// A frame as it was sent, and as it returned where it did.
fn save_frame(number: usize, frame: &SentFrame, into: &mut Octets) -> Result<(), NoMemory>
    requires number { number < 100000000 }
    requires short { IsShort frame.now }
    ensures ok { OnOk result (into.new ≡ into.old ++ packets_text LowFirst (packets_of number frame.now)) }
    ensures err { OnErr result (StartsWith into.old into.new) }
{
    let stamp = stamp_of(number);
    write_packet(into, stamp, frame.sent.bytes())?;
    match frame.fate {
        Fate::Pass => write_packet(into, stamp, frame.back.bytes()),
        Fate::Lost { .. } => Ok(()),
    }
}

/// Appends the capture of the frames of a run: each as it was sent and, where it returned, as it returned, both at the time of its number
/// in microseconds. After `NoMemory` what `into` held before is a prefix of what it holds.
pub fn saved(frames: &[SentFrame], into: &mut Octets) -> Result<(), NoMemory>
    requires few { length frames.now ≤ 100000000 }
    requires short { All IsShort frames.now }
    ensures ok { OnOk result (into.new ≡ into.old ++ capture_of frames.now) }
    ensures err { OnErr result (StartsWith into.old into.new) }
{
    write_head(into)?;
    for (number, frame) in frames.iter().enumerate() {
        save_frame(number, frame, into)?;
    }
    Ok(())
}
