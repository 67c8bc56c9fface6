ghost use Rattle.std.specs.Prelude.{◌≡◌, ◌++◌, IfOk, OnOk, map, string_bytes};
ghost use Rattle.entry_act.specs.Words.{scenario_in, slave_in, what_in};
ghost use Rattle.entry_texts.specs.Silence.{words_text, again_line, again_in, silence, unanswered_lines, port_fault_lines};

use crate::replies::{add_word, head};
use ec_fields::{NoMemory, Octets};
use entry_act::{Task, scenario_word, slave_word, what_word};
use segment_plan::{Service, SlaveSpec};
use std::alloc::Global;

// The word SCENARIO behind a line.
fn add_scenario(line: &mut Octets, words: &[String]) -> Result<(), NoMemory>
    ensures { OnOk result (line.new ≡ line.old ++ scenario_in (map string_bytes words.now)) }
{
    add_word(line, scenario_word(words))
}

// The word SLAVE.
fn add_slave(line: &mut Octets, words: &[String]) -> Result<(), NoMemory>
    ensures { OnOk result (line.new ≡ line.old ++ slave_in (map string_bytes words.now)) }
{
    add_word(line, slave_word(words))
}

// The word WHAT.
fn add_what(line: &mut Octets, words: &[String]) -> Result<(), NoMemory>
    ensures { OnOk result (line.new ≡ line.old ++ what_in (map string_bytes words.now)) }
{
    add_word(line, what_word(words))
}

// The words SCENARIO SLAVE WHAT.
#[tactic(auto, unfolding(crate::specs::Silence::words_text))]
fn add_words(line: &mut Octets, words: &[String]) -> Result<(), NoMemory>
    ensures { OnOk result (line.new ≡ line.old ++ words_text (map string_bytes words.now)) }
{
    add_scenario(line, words)?;
    line.add(b" ")?;
    add_slave(line, words)?;
    line.add(b" ")?;
    add_what(line, words)?;
    Ok(())
}

// Where a write is in doubt: that it is to be read before it is written again.
#[tactic(auto, unfolding(crate::specs::Silence::again_line))]
fn add_again(line: &mut Octets, words: &[String]) -> Result<(), NoMemory>
    ensures { OnOk result (line.new ≡ line.old ++ again_line (map string_bytes words.now)) }
{
    line.add(b"read it before you write it again: ecmbx get ")?;
    add_words(line, words)?;
    line.add(b"\n")?;
    Ok(())
}

// The same behind a line, where something is written.
fn add_doubt(line: &mut Octets, words: &[String], task: Task) -> Result<(), NoMemory>
    ensures { OnOk result (line.new ≡ line.old ++ again_in (map string_bytes words.now) task) }
{
    match task {
        Task::Read | Task::Save => Ok(()),
        Task::Write => add_again(line, words),
    }
}

// That no answer came.
fn silence(task: Task) -> &'static [u8]
    ensures { result.now ≡ silence task }
{
    match task {
        Task::Read | Task::Save => b"no answer in 3 s\n",
        Task::Write => b"in doubt: no answer in 3 s, and it may have been carried out\n",
    }
}

/// The lines of a service that got no answer.
#[tactic(auto, unfolding(crate::specs::Silence::unanswered_lines))]
pub fn unanswered_lines(
    alloc: Global,
    words: &[String],
    task: Task,
    slave: &SlaveSpec,
    service: &Service,
) -> Result<Octets, NoMemory>
    ensures { IfOk result (λ lines. lines ≡ unanswered_lines (map string_bytes words.now) task slave.now service.now) }
{
    let mut lines = head(alloc, slave, service)?;
    lines.add(silence(task))?;
    add_doubt(&mut lines, words, task)?;
    Ok(lines)
}

/// The lines of a service where the port failed.
#[tactic(auto, unfolding(crate::specs::Silence::port_fault_lines))]
pub fn port_fault_lines(
    alloc: Global,
    words: &[String],
    task: Task,
    slave: &SlaveSpec,
    service: &Service,
) -> Result<Octets, NoMemory>
    ensures { IfOk result (λ lines. lines ≡ port_fault_lines (map string_bytes words.now) task slave.now service.now) }
{
    let mut lines = head(alloc, slave, service)?;
    lines.add(b"port fault: does a serving listen on 127.0.0.1, port 34980? ecmbx serve ")?;
    add_scenario(&mut lines, words)?;
    lines.add(b" COUNT\n")?;
    add_doubt(&mut lines, words, task)?;
    Ok(lines)
}
