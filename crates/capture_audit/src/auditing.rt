ghost use Rattle.std.specs.Prelude.{◌≡◌, ◌<◌, ◌+◌, ◌^◌, false, Ok, length, option_map, All, IfOk, IfSome, is_some};
ghost use Rattle.capture_view.specs.of_datagrams.Frame.{IsPart, frame_read};
ghost use Rattle.capture_view.specs.of_pcap_frames.Reading.{capture_read};
ghost use Rattle.capture_view.specs.View.{IsWithin};
ghost use Rattle.capture_audit.specs.Exchanges.{next_octets, return_as, datagrams_of, datagrams_in, returned, uses, exchanges};
ghost use Rattle.capture_audit.specs.Seen.{found_seen, IsFound};
ghost use Rattle.capture_audit.specs.Audit.{first_known, judged_all, verdict_of};
ghost use Rattle.capture_audit.specs.Causes.{YesCause, NoCause};
ghost use Rattle.capture_audit.specs.Judged.{JudgesAll};

use crate::exchange::{FrameView, datagram_of, returned};
use crate::known::Ledger;
use crate::rule::Rule;
use crate::verdict::Verdict;
use capture_view::octets_of;
use datagrams::{Part, read};
use ec_fields::NoMemory;
use pcap_frames::{Capture, PacketAt};
use std::alloc::Global;

/// What a packet came to: whether the one behind it is its return, and the rule that it breaks.
#[derive(Clone, Copy)]
struct Heard {
    used: bool,
    rule: Option<Rule>,
}

// The datagrams of a frame, up to the first that breaks a rule.
fn follow(
    known: &mut Ledger,
    alloc: Global,
    sent: FrameView<'_>,
    back: Option<FrameView<'_>>,
) -> Result<Option<Rule>, NoMemory>
    requires sent { IsFound sent }
    requires back { IfSome back IsFound }
    ensures { IfOk result (JudgesAll known.old known.new (datagrams_of (option_map found_seen back.entry) sent.entry.octets.now 0 sent.entry.parts.now)) }
{
    for (place, part) in sent.parts.iter().enumerate() {
        let datagram = datagram_of(sent, part, back, place);
        if let Some(rule) = known.meet(alloc, &datagram)? {
            return Ok(Some(rule));
        }
    }
    Ok(None)
}

// The same of a frame with these datagrams, by whether the octets behind it are its return.
fn follow_frame(
    known: &mut Ledger,
    alloc: Global,
    octets: &[u8],
    parts: &[Part],
    behind: &[u8],
) -> Result<Heard, NoMemory>
    requires { All (IsPart octets.now) parts.now }
    ensures used { IfOk result (λ heard. heard.used ≡ is_some (return_as parts.now behind.now (frame_read behind.now))) }
    ensures judged { IfOk result (λ heard. JudgesAll known.old known.new (datagrams_of (return_as parts.now behind.now (frame_read behind.now)) octets.now 0 parts.now) heard.rule) }
{
    let sent = FrameView { octets, parts };
    let Some(frame) = returned(parts, behind) else {
        let rule = follow(known, alloc, sent, None)?;
        return Ok(Heard { used: false, rule });
    };
    let back = FrameView {
        octets: behind,
        parts: frame.parts.as_slice(),
    };
    let rule = follow(known, alloc, sent, Some(back))?;
    Ok(Heard { used: true, rule })
}

// A packet with these octets that isn't used up, before those of the packet behind it.
fn exchange(
    known: &mut Ledger,
    alloc: Global,
    octets: &[u8],
    behind: &[u8],
) -> Result<Heard, NoMemory>
    ensures used { IfOk result (λ heard. heard.used ≡ uses octets.now behind.now) }
    ensures judged { IfOk result (λ heard. JudgesAll known.old known.new (datagrams_in (returned (frame_read octets.now) behind.now) octets.now (frame_read octets.now)) heard.rule) }
{
    match read(octets) {
        Ok(frame) => follow_frame(known, alloc, octets, frame.parts.as_slice(), behind),
        Err(_) => Ok(Heard {
            used: false,
            rule: None,
        }),
    }
}

// The octets of the first of these packets, none where there is none.
fn next_octets<'a>(file: &'a [u8], packets: &[PacketAt]) -> &'a [u8]
    requires { All (IsWithin file.now) packets.now }
    ensures { result.now ≡ next_octets file.now packets.now }
{
    match packets.first() {
        Some(packet) => octets_of(file, packet),
        None => &file[..0],
    }
}

// The exchanges of packets, up to the first with a datagram that breaks a rule.
fn audit_packets(alloc: Global, file: &[u8], packets: &[PacketAt]) -> Result<Verdict, NoMemory>
    requires within { All (IsWithin file.now) packets.now }
    requires few { length packets.now < 2 ^ 32 }
    ensures { IfOk result (λ verdict. verdict ≡ judged_all first_known (exchanges file.now false 0 packets.now)) }
{
    let mut known = Ledger::new(alloc);
    let mut used = false;
    for (number, packet) in packets.iter().enumerate() {
        if used {
            used = false;
            continue;
        }
        let behind = next_octets(file, &packets[number + 1..]);
        let heard = exchange(&mut known, alloc, octets_of(file, packet), behind)?;
        if let Some(rule) = heard.rule {
            return Ok(Verdict::No {
                rule: rule.number(),
                packet: number as u32,
            });
        }
        used = heard.used;
    }
    Ok(Verdict::Yes(known.into_stations()))
}

/// Audits a capture in one pass over its packets: whether the traffic of a master to each station obeys the rules of
/// the mailboxes (ETG.1000.4, mailbox with repeat request and acknowledge), as [`Verdict`] tells them. `capture` is
/// what [`pcap_frames::read`] answers for `bytes`. `NoMemory` is want of memory for the mails that are told.
///
/// A packet that reads as a frame is one that was sent. Where the packet behind it has as many datagrams of the same
/// lengths, and the first has the same index, that is its return; else it was lost. A link opens, or opens anew, where
/// FPWR of 8 octets to 0x0800 and to 0x0808 with enable set have both returned with working counter 1 since the last
/// opening; the lengths of the areas are those written. A write to either that clears enable closes it, whether it
/// returned or not.
pub fn audit(alloc: Global, bytes: &[u8], capture: &Capture) -> Result<Verdict, NoMemory>
    requires read { capture_read bytes.now ≡ Ok capture.now }
    requires few { length capture.now.packets < 2 ^ 32 }
    ensures verdict { IfOk result (λ verdict. verdict ≡ verdict_of bytes.now capture.now) }
    ensures yes { IfOk result (YesCause first_known (exchanges bytes.now false 0 capture.now.packets)) }
    ensures no { IfOk result (NoCause first_known (exchanges bytes.now false 0 capture.now.packets)) }
{
    audit_packets(alloc, bytes, capture.packets.as_slice())
}
