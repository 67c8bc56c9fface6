ghost use Rattle.std.specs.Prelude.{◌≡◌, None, map, string_bytes};
ghost use Rattle.ecmbx_words.specs.of_ec_outside.Faults.{Rose};
ghost use Rattle.gateway_tool.specs.of_segment_plan.Sound.{IsName};
ghost use Rattle.gateway_tool.specs.Rule.{IsForm};
ghost use Rattle.ecmbx_words.specs.declared.status.Status.TheVariants as statuses;
ghost use Rattle.ecmbx_words.specs.Ends.{PutAll};
ghost use Rattle.tool_call.specs.Asked.{asked_in, IsSlave, IsAsked};
ghost use Rattle.tool_call.specs.Lines.{answer_line};
ghost use Rattle.tool_call.specs.Course.{WritesTo, ActsTo, AsksTo};
ghost use Rattle.tool_call.specs.Objects.{told_by, CarriesOut, Does};
ghost use Rattle.tool_call.specs.Causes.{UsageCause, AbsentCause, LongCause, NoAnswerCause, FaultCause};

use crate::asked::{Act, Asked, Slave, asked_of, file_of};
use crate::lines::{answer, no_answer, port_fault};
use ec_fields::{NoMemory, Octets};
use ec_outside::{Files, Peer, Port, Sink};
use ecmbx_words::{Status, load, say, usage};
use file_store::Name;
use gateway_tool::{Reply, ToolEnd, ask};
use mailbox_mail::ReplyKind;
use segment_plan::Service;
use std::alloc::Global;

/// The gateway, at 127.0.0.1.
const GATEWAY: Peer = Peer {
    ip: 0x7F00_0001,
    port: 34_980,
};

/// The most octets of a file that is written.
const LIMIT: usize = 131_072;

// Puts the line of a reply.
fn tell<O: Sink>(alloc: Global, value: &Reply, out: &mut O) -> Status
    ensures put { PutAll statuses.Done (answer_line value.now) (O.written out.old) (O.written out.new) result }
    ensures sink { result ≡ statuses.SinkFault → Rose (O.sink_faults out.old) (O.sink_faults out.new) }
{
    match answer(alloc, value) {
        Ok(line) => say(out, Status::Done, line.bytes()),
        Err(NoMemory) => Status::NoMemory,
    }
}

// Carries a service out, and puts how it ended.
fn carry_out<O: Sink, P: Port>(
    alloc: Global,
    slave: Slave,
    service: &Service,
    out: &mut O,
    port: &mut P,
) -> Status
    requires slave { IsSlave slave }
    requires form { IsForm service.now }
    ensures course { CarriesOut O.Sink P.Port slave service.now out.old out.new port.old port.new result }
    ensures sink { result ≡ statuses.SinkFault → Rose (O.sink_faults out.old) (O.sink_faults out.new) }
{
    let mut value = Reply {
        kind: ReplyKind::Handed,
        value: Octets::new(alloc),
    };
    let Slave {
        station,
        out_len,
        in_len,
    } = slave;
    match ask(
        alloc, station, out_len, in_len, service, GATEWAY, port, &mut value,
    ) {
        ToolEnd::Reply => tell(alloc, &value, out),
        ToolEnd::NoAnswer => say(out, Status::NoAnswer, no_answer()),
        ToolEnd::PortFault => say(out, Status::PortFault, port_fault()),
        ToolEnd::NoMemory => Status::NoMemory,
    }
}

// Writes the file of this name with the octets of a file of one's own.
fn write_file<F: Files, O: Sink, P: Port>(
    alloc: Global,
    slave: Slave,
    name: Name,
    file: &str,
    files: &mut F,
    out: &mut O,
    port: &mut P,
) -> Status
    requires slave { IsSlave slave }
    requires name { IsName name }
    ensures course { Does F.Files O.Sink P.Port (WritesTo slave name file.now) files.old files.new out.old out.new port.old port.new result }
    ensures sink { result ≡ statuses.SinkFault → Rose (O.sink_faults out.old) (O.sink_faults out.new) }
    ensures same { F.table files.new ≡ F.table files.old }
{
    match load(alloc, file, LIMIT, files, out) {
        Ok(bytes) => {
            let service = Service::WriteFile {
                name,
                pass: 0,
                bytes,
            };
            carry_out(alloc, slave, &service, out, port)
        }
        Err(status) => status,
    }
}

// Does what is asked of a slave; `file` has the octets of a write.
fn act_on<F: Files, O: Sink, P: Port>(
    alloc: Global,
    asked: Asked,
    file: &str,
    files: &mut F,
    out: &mut O,
    port: &mut P,
) -> Status
    requires { IsAsked asked }
    ensures course { Does F.Files O.Sink P.Port (ActsTo asked.slave asked.act file.now) files.old files.new out.old out.new port.old port.new result }
    ensures sink { result ≡ statuses.SinkFault → Rose (O.sink_faults out.old) (O.sink_faults out.new) }
    ensures same { F.table files.new ≡ F.table files.old }
{
    let Asked { slave, act } = asked;
    match act {
        Act::Whole(service) => carry_out(alloc, slave, &service, out, port),
        Act::Write(name) => write_file(alloc, slave, name, file, files, out, port),
    }
}

// Does what the words say.
fn follow<F: Files, O: Sink, P: Port>(
    alloc: Global,
    words: &[String],
    files: &mut F,
    out: &mut O,
    port: &mut P,
) -> Status
    ensures course { Does F.Files O.Sink P.Port (AsksTo (map string_bytes words.now)) files.old files.new out.old out.new port.old port.new result }
    ensures sink { result ≡ statuses.SinkFault → Rose (O.sink_faults out.old) (O.sink_faults out.new) }
    ensures same { F.table files.new ≡ F.table files.old }
    ensures port { asked_in (map string_bytes words.now) ≡ None → port.new ≡ port.old }
{
    match asked_of(alloc, words) {
        Ok(Some(asked)) => act_on(alloc, asked, file_of(words), files, out, port),
        Ok(None) => say(out, Status::Usage, usage()),
        Err(NoMemory) => Status::NoMemory,
    }
}

/// Does what the words `ask STATION OUT IN DO ARGS` say: carries out one whole service of a slave over the gateway at 127.0.0.1, port 34980, and
/// puts its reply. The octets of a file that is written are those of the file FILE. Every other list of words is `Usage`.
///
/// `Usage` comes exactly where the words ask for nothing; `Absent` and `TooLong` where the load said so; `NoAnswer` where the service got no reply, and
/// `PortFault`, `FileFault` and `SinkFault` only where that object's count of faults rose. Each yields to `SinkFault`, and all to `NoMemory`.
pub fn ask_call<F: Files, O: Sink, P: Port>(
    alloc: Global,
    words: &[String],
    files: &mut F,
    out: &mut O,
    port: &mut P,
) -> Status
    // Each case of the table of answers, with the text that is put there.
    ensures course { Does F.Files O.Sink P.Port (AsksTo (map string_bytes words.now)) files.old files.new out.old out.new port.old port.new result }

    // When each status comes.
    ensures usage { UsageCause (map string_bytes words.now) result }
    ensures absent { AbsentCause (map string_bytes words.now) (F.table files.old) result }
    ensures too_long { LongCause (map string_bytes words.now) (F.table files.old) result }
    ensures no_answer { NoAnswerCause (map string_bytes words.now) (told_by P.Port port.old) (told_by P.Port port.new) result }
    ensures port_fault { FaultCause (map string_bytes words.now) (told_by P.Port port.old) (told_by P.Port port.new) result }
    ensures file_fault { result ≡ statuses.FileFault → Rose (F.file_faults files.old) (F.file_faults files.new) }
    ensures sink_fault { result ≡ statuses.SinkFault → Rose (O.sink_faults out.old) (O.sink_faults out.new) }

    // No file is changed, and the port is touched only where the words ask for a service.
    ensures same { F.table files.new ≡ F.table files.old }
    ensures port { asked_in (map string_bytes words.now) ≡ None → port.new ≡ port.old }
{
    follow(alloc, words, files, out, port)
}
