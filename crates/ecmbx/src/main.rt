//! The mailbox half of EtherCAT as a program: `ecmbx run SCENARIO` runs the segment of a scenario
//! frame by frame and prints the report, and `ecmbx serve SCENARIO COUNT` answers mailbox requests that
//! come by UDP, `ecmbx stream SCENARIO COUNT` those that come on a TCP connection, and `ecmbx ask STATION OUT IN DO ARGS` sends some by UDP.
//! The forms for people stand beside these: `ecmbx help` lists all.
#![tactic(auto)]

mod notices;
mod output;

use crate::notices::listening;
use crate::output::Output;
use ec_links::TcpLink;
use ec_outside::{DiskFiles, Peer, UdpPort};
use ecmbx_call::{Book, Status, program};
use ecmbx_words::{Form, form_of, stream_of};
use listening::{ListeningLink, ListeningPort};
use patient_port::PatientPort;
use people_call::{Ended, people_call};
use std::process::ExitCode;
use std::rt::Env;
use std::{env, io, mem};
use tool_call::is_ask;

/// The address at which datagrams are heard, 127.0.0.1.
const LOCALHOST: u32 = 0x7F00_0001;

/// The port of a gateway, which the standard has for EtherCAT.
const GATEWAY: u16 = 34980;

/// The arguments behind the program's name.
fn words<R: Env + AllocGlobal>(rt: &R) -> io::Result<Vec<String>> {
    let mut words = Vec::new(rt.alloc());
    for word in env::args(rt)?.skip(1) {
        words.push(word)?;
    }
    Ok(words)
}

/// The port of our own: who asks takes any that is free, who serves the gateway's.
fn port_for(words: &[String]) -> u16 {
    if is_ask(words) { 0 } else { GATEWAY }
}

/// As many datagrams as the words of a serving say.
fn datagrams(words: &[String]) -> Option<u32> {
    match form_of(words) {
        Form::Serve { count } => Some(count),
        _ => None,
    }
}

/// Does what the words of a form for scripts ask for.
fn for_scripts(
    rt: &HostRuntime,
    words: &[String],
    files: &mut DiskFiles<'_, HostRuntime>,
    out: &mut Output<'_, HostRuntime>,
) -> Status {
    let alloc = rt.alloc();
    let mut book = Book::new(alloc);
    let socket = UdpPort::new(rt, LOCALHOST, port_for(words));
    let mut port = ListeningPort::new(rt, listening(alloc, datagrams(words)), socket);
    let link = ListeningLink::new(rt, listening(alloc, stream_of(words)), TcpLink::new(rt));
    let (status, _) = program(alloc, words, files, out, &mut port, link, &mut book);
    // The process ends: letting go frame by frame what it gives back whole would only cost time.
    mem::forget(book);
    status
}

fn main(rt: HostRuntime) -> ExitCode {
    let alloc = rt.alloc();
    let words = match words(&rt) {
        Ok(words) => words,
        Err(error) if error.kind() == io::ErrorKind::OutOfMemory => {
            return ExitCode::from(Status::NoMemory.number());
        }
        // Words that are no text are no form of the command line.
        Err(_) => Vec::new(alloc),
    };
    let words = words.as_slice();
    let mut files = DiskFiles::new(&rt);
    let mut out = Output::new(alloc, &rt);
    let gateway = Peer {
        ip: LOCALHOST,
        port: GATEWAY,
    };
    let mut port = PatientPort::new(&rt, gateway);
    let ended = match people_call(alloc, words, &mut files, &mut out, &mut port) {
        Some(ended) => ended,
        None => Ended::As(for_scripts(&rt, words, &mut files, &mut out)),
    };
    match out.flush() {
        Err(_) if !matches!(ended, Ended::As(Status::NoMemory)) => {
            ExitCode::from(Status::SinkFault.number())
        }
        _ => ExitCode::from(ended.number()),
    }
}
