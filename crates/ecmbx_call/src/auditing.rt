ghost use Rattle.std.specs.Prelude.{◌≡◌, ◌≤◌, Ok, length, map, IfOk};
ghost use Rattle.gateway_stream.specs.of_ec_outside.Faults.{Rose};
ghost use Rattle.run_report.specs.of_pcap_frames.Reading.{capture_read};
ghost use Rattle.capture_audit.specs.Audit.{verdict_of};
ghost use Rattle.tool_call.specs.of_ecmbx_words.declared.status.Status.TheVariants as statuses;
ghost use Rattle.ecmbx_call.specs.Audits.{line_of, yes_lines, PutsVerdict};

use capture_audit::{StationAudit, Verdict, audit};
use ec_fields::{NoMemory, Octets, Rows};
use ec_outside::Sink;
use ecmbx_words::{Status, audit_no, audit_yes, say, say_lines, station_text};
use pcap_frames::Capture;
use std::alloc::Global;

// A line for each station.
fn station_lines(alloc: Global, stations: &[StationAudit]) -> Result<Rows<Octets>, NoMemory>
    ensures { IfOk result (λ lines. lines ≡ map line_of stations.now) }
{
    let mut lines = Rows::new(alloc);
    for row in stations {
        let line = station_text(alloc, row.station, row.sent.len(), row.accepted.len())?;
        lines.add(line)?;
    }
    Ok(lines)
}

// The lines of an audit that no datagram fails.
fn yes_lines(alloc: Global, stations: &[StationAudit]) -> Result<Rows<Octets>, NoMemory>
    ensures { IfOk result (λ lines. lines ≡ yes_lines stations.now) }
{
    let mut lines = station_lines(alloc, stations)?;
    let last = Octets::copy_of(alloc, audit_yes())?;
    lines.add(last)?;
    Ok(lines)
}

// Puts a verdict.
fn tell<O: Sink>(alloc: Global, verdict: &Verdict, out: &mut O) -> Status
    ensures put { PutsVerdict verdict.now (O.written out.old) (O.written out.new) result }
    ensures sink { result ≡ statuses.SinkFault → Rose (O.sink_faults out.old) (O.sink_faults out.new) }
{
    match verdict {
        Verdict::Yes(stations) => match yes_lines(alloc, stations.as_slice()) {
            Ok(lines) => say_lines(out, Status::Done, lines.as_slice()),
            Err(NoMemory) => Status::NoMemory,
        },
        Verdict::No { rule, packet } => match audit_no(alloc, *rule, *packet) {
            Ok(line) => say(out, Status::AuditNo, line.bytes()),
            Err(NoMemory) => Status::NoMemory,
        },
    }
}

/// Puts the audit of a capture: the stations and `audit yes`, or the rule that a datagram breaks and its packet.
pub fn audit_capture<O: Sink>(
    alloc: Global,
    octets: &[u8],
    capture: &Capture,
    out: &mut O,
) -> Status
    requires read { capture_read octets.now ≡ Ok capture.now }
    requires few { length octets.now ≤ 16777216 }
    ensures put { PutsVerdict (verdict_of octets.now capture.now) (O.written out.old) (O.written out.new) result }
    ensures sink { result ≡ statuses.SinkFault → Rose (O.sink_faults out.old) (O.sink_faults out.new) }
{
    match audit(alloc, octets, capture) {
        Ok(verdict) => tell(alloc, &verdict, out),
        Err(NoMemory) => Status::NoMemory,
    }
}
