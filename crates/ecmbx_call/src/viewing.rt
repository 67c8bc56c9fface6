ghost use Rattle.std.specs.Prelude.{◌≡◌, ◌≤◌, length, Ok, Err};
ghost use Rattle.gateway_stream.specs.of_ec_outside.Faults.{Rose};
ghost use Rattle.run_report.specs.of_pcap_frames.Reading.{capture_read};
ghost use Rattle.run_report.specs.of_pcap_frames.declared.capture.PcapFault.TheVariants as faults;
ghost use Rattle.capture_audit.specs.of_capture_view.View.{view_text};
ghost use Rattle.tool_call.specs.of_ecmbx_words.Ends.{PutAll};
ghost use Rattle.tool_call.specs.of_ecmbx_words.Texts.{capture_line};
ghost use Rattle.tool_call.specs.of_ecmbx_words.declared.status.Status.TheVariants as statuses;
ghost use Rattle.ecmbx_call.specs.Audits.{AuditCourse};
ghost use Rattle.ecmbx_call.specs.Course.{Followed, ViewCourse};

use crate::auditing::audit_capture;
use capture_view::view;
use ec_outside::{Sink, SinkErr};
use ecmbx_words::{Status, capture_refusal, say};
use pcap_frames::{Capture, PcapFault, read};
use std::alloc::Global;

fn refuse<O: Sink>(alloc: Global, fault: PcapFault, out: &mut O) -> Status
    ensures put { PutAll statuses.Refused (capture_line fault) (O.written out.old) (O.written out.new) result }
    ensures memory { fault ≡ faults.NoMemory → result ≡ statuses.NoMemory }
    ensures sink { result ≡ statuses.SinkFault → Rose (O.sink_faults out.old) (O.sink_faults out.new) }
{
    match capture_refusal(alloc, fault) {
        Ok(line) => say(out, Status::Refused, line.bytes()),
        Err(_) => Status::NoMemory,
    }
}

fn show<O: Sink>(alloc: Global, octets: &[u8], capture: &Capture, out: &mut O) -> Status
    requires { capture_read octets.now ≡ Ok capture.now }
    ensures put { PutAll statuses.Done (view_text octets.now capture.now) (O.written out.old) (O.written out.new) result }
    ensures sink { result ≡ statuses.SinkFault → Rose (O.sink_faults out.old) (O.sink_faults out.new) }
{
    match view(alloc, octets, capture, out) {
        Ok(()) => Status::Done,
        Err(SinkErr::Failed) => Status::SinkFault,
        Err(SinkErr::NoMemory) => Status::NoMemory,
    }
}

/// Puts the audit of a capture, or why the octets are none.
pub fn audit<O: Sink>(alloc: Global, octets: &[u8], out: &mut O) -> Status
    requires { length octets.now ≤ 16777216 }
    ensures course { Followed (AuditCourse octets.now) (O.written out.old) (O.written out.new) result }
    ensures sink { result ≡ statuses.SinkFault → Rose (O.sink_faults out.old) (O.sink_faults out.new) }
{
    match read(alloc, octets) {
        Ok(capture) => audit_capture(alloc, octets, &capture, out),
        Err(fault) => refuse(alloc, fault, out),
    }
}

/// Puts the decoding text of a capture, or why the octets are none.
pub fn decode<O: Sink>(alloc: Global, octets: &[u8], out: &mut O) -> Status
    ensures course { Followed (ViewCourse octets.now) (O.written out.old) (O.written out.new) result }
    ensures sink { result ≡ statuses.SinkFault → Rose (O.sink_faults out.old) (O.sink_faults out.new) }
{
    match read(alloc, octets) {
        Ok(capture) => show(alloc, octets, &capture, out),
        Err(fault) => refuse(alloc, fault, out),
    }
}
