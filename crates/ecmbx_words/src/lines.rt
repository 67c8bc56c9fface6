ghost use Rattle.std.specs.Prelude.{◌≡◌, ◌≢◌, ◌<◌, ◌≤◌, length};
ghost use Rattle.ec_outside.specs.Faults.{Rose};
ghost use Rattle.ecmbx_words.specs.declared.status.Status.TheVariants as statuses;
ghost use Rattle.ecmbx_words.specs.Ends.{text_of, PutAll};

use crate::status::Status;
use ec_fields::Octets;
use ec_outside::{Sink, SinkErr};

/// Puts a text, and answers the planned status where the sink took it whole.
pub fn say<O: Sink>(out: &mut O, planned: Status, text: &[u8]) -> Status
    requires { planned ≢ statuses.SinkFault }
    ensures put { PutAll planned text.now (O.written out.old) (O.written out.new) result }
    ensures cause { result ≡ statuses.SinkFault → Rose (O.sink_faults out.old) (O.sink_faults out.new) }
{
    match out.put(text) {
        Ok(()) => planned,
        Err(SinkErr::Failed) => Status::SinkFault,
        Err(SinkErr::NoMemory) => Status::NoMemory,
    }
}

/// Puts the lines, one by one, and answers the planned status where the sink took them all.
pub fn say_lines<O: Sink>(out: &mut O, planned: Status, lines: &[Octets]) -> Status
    requires { planned ≢ statuses.SinkFault }
    ensures put { PutAll planned (text_of lines.now) (O.written out.old) (O.written out.new) result }
    ensures cause { result ≡ statuses.SinkFault → Rose (O.sink_faults out.old) (O.sink_faults out.new) }
{
    for line in lines {
        match out.put(line.bytes()) {
            Ok(()) => {}
            Err(SinkErr::Failed) => return Status::SinkFault,
            Err(SinkErr::NoMemory) => return Status::NoMemory,
        }
    }
    planned
}

// Where the line that begins at a place ends: behind its line feed, or at the end of the text.
fn line_end(text: &[u8], from: usize) -> usize
    requires { from < length text.now }
    ensures behind { from < result }
    ensures within { result ≤ length text.now }
{
    for at in from..text.len() {
        if text[at] == b'\n' {
            return at + 1;
        }
    }
    text.len()
}

/// Puts a text line by line, and answers the planned status where the sink took it whole.
pub fn say_text<O: Sink>(out: &mut O, planned: Status, text: &[u8]) -> Status
    requires { planned ≢ statuses.SinkFault }
    ensures put { PutAll planned text.now (O.written out.old) (O.written out.new) result }
    ensures cause { result ≡ statuses.SinkFault → Rose (O.sink_faults out.old) (O.sink_faults out.new) }
{
    let mut from = 0;
    while from < text.len() {
        let to = line_end(text, from);
        match out.put(&text[from..to]) {
            Ok(()) => from = to,
            Err(SinkErr::Failed) => return Status::SinkFault,
            Err(SinkErr::NoMemory) => return Status::NoMemory,
        }
    }
    planned
}
