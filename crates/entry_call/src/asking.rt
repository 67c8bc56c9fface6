ghost use Rattle.std.specs.Prelude.{◌≡◌, ◌≤◌, map, string_bytes};
ghost use Rattle.ec_outside.specs.Faults.{Rose};
ghost use Rattle.ecmbx_words.specs.declared.status.Status.TheVariants as statuses;
ghost use Rattle.people_words.specs.declared.ended.Ended.TheVariants as ends;
ghost use Rattle.gateway_tool.specs.Rule.{IsForm};
ghost use Rattle.segment_plan.specs.Sound.{IsSlave};
ghost use Rattle.entry_call.specs.Ends.{Follows};
ghost use Rattle.entry_call.specs.Service.{saves, SaveCourse, ReplyCourse, ServiceCourse};
ghost use Rattle.entry_call.specs.Objects.{Does};

use crate::putting::put;
use ec_fields::{NoMemory, Octets};
use ec_outside::{Files, FilesErr, Peer, Port, Sink};
use ecmbx_words::{Status, file_fault};
use entry_act::{Task, last_word};
use entry_texts::{end_of, port_fault_lines, reply_line, saved_line, unanswered_lines};
use gateway_tool::{Reply, ToolEnd, ask};
use mailbox_mail::ReplyKind;
use people_words::{Ended, tell};
use segment_plan::{Service, SlaveSpec};
use std::alloc::Global;

/// The gateway, at 127.0.0.1.
const GATEWAY: Peer = Peer {
    ip: 0x7F00_0001,
    port: 34_980,
};

// Saves a file that was read, and puts its line.
fn save<F: Files, O: Sink>(
    alloc: Global,
    words: &[String],
    slave: &SlaveSpec,
    service: &Service,
    octets: &[u8],
    files: &mut F,
    out: &mut O,
) -> Ended
    ensures course { Follows (SaveCourse (map string_bytes words.now) slave.now service.now octets.now (F.table files.old) (F.table files.new)) (O.written out.old) (O.written out.new) result }
    ensures sink { result ≡ ends.As statuses.SinkFault → Rose (O.sink_faults out.old) (O.sink_faults out.new) }
    ensures file { result ≡ ends.As statuses.FileFault → Rose (F.file_faults files.old) (F.file_faults files.new) }
    ensures later { F.file_faults files.old ≤ F.file_faults files.new }
{
    let file = last_word(words);
    match files.save(file, octets) {
        Ok(()) => put(
            out,
            Ended::As(Status::Done),
            saved_line(alloc, slave, service, octets, file),
        ),
        Err(FilesErr::Failed) => tell(out, Ended::As(Status::FileFault), file_fault()),
        Err(FilesErr::NoMemory) => Ended::As(Status::NoMemory),
    }
}

// Whether a reply's value is to be saved.
fn saves(task: Task, kind: ReplyKind) -> bool
    ensures { result ≡ saves task kind }
{
    matches!((task, kind), (Task::Save, ReplyKind::Value))
}

// Puts the line of a reply, and saves the file that is to be saved.
fn follow<F: Files, O: Sink>(
    alloc: Global,
    words: &[String],
    task: Task,
    slave: &SlaveSpec,
    service: &Service,
    reply: &Reply,
    files: &mut F,
    out: &mut O,
) -> Ended
    ensures course { Follows (ReplyCourse (map string_bytes words.now) task slave.now service.now reply.now (F.table files.old) (F.table files.new)) (O.written out.old) (O.written out.new) result }
    ensures sink { result ≡ ends.As statuses.SinkFault → Rose (O.sink_faults out.old) (O.sink_faults out.new) }
    ensures file { result ≡ ends.As statuses.FileFault → Rose (F.file_faults files.old) (F.file_faults files.new) }
    ensures later { F.file_faults files.old ≤ F.file_faults files.new }
{
    if saves(task, reply.kind) {
        save(
            alloc,
            words,
            slave,
            service,
            reply.value.bytes(),
            files,
            out,
        )
    } else {
        put(
            out,
            end_of(reply.kind),
            reply_line(alloc, slave, service, reply),
        )
    }
}

/// Carries out a service of a slave over the gateway, once, and puts what it came to.
pub(crate) fn carry_out<F: Files, O: Sink, P: Port>(
    alloc: Global,
    words: &[String],
    task: Task,
    slave: &SlaveSpec,
    service: &Service,
    files: &mut F,
    out: &mut O,
    port: &mut P,
) -> Ended
    requires slave { IsSlave slave.now }
    requires form { IsForm service.now }
    ensures course { Does F.Files O.Sink P.Port (ServiceCourse (map string_bytes words.now) task slave.now service.now) files.old files.new out.old out.new port.old port.new result }
    ensures sink { result ≡ ends.As statuses.SinkFault → Rose (O.sink_faults out.old) (O.sink_faults out.new) }
    ensures file { result ≡ ends.As statuses.FileFault → Rose (F.file_faults files.old) (F.file_faults files.new) }
    ensures later { F.file_faults files.old ≤ F.file_faults files.new }
{
    let mut reply = Reply {
        kind: ReplyKind::Handed,
        value: Octets::new(alloc),
    };
    match ask(
        alloc,
        slave.station,
        slave.out_len,
        slave.in_len,
        service,
        GATEWAY,
        port,
        &mut reply,
    ) {
        ToolEnd::Reply => follow(alloc, words, task, slave, service, &reply, files, out),
        ToolEnd::NoAnswer => put(
            out,
            Ended::As(Status::NoAnswer),
            unanswered_lines(alloc, words, task, slave, service),
        ),
        ToolEnd::PortFault => put(
            out,
            Ended::As(Status::PortFault),
            port_fault_lines(alloc, words, task, slave, service),
        ),
        ToolEnd::NoMemory => Ended::As(Status::NoMemory),
    }
}
