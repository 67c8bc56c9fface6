ghost use Rattle.std.specs.Prelude.{◌≡◌, IfOk, map, string_bytes, option_copied};
ghost use Rattle.segment_plan.specs.Bound.{file_of};
ghost use Rattle.segment_plan.specs.Sound.{IsName};
ghost use Rattle.entry_act.specs.Acts.{pass_of, write_act, entry_act, file_act, act_in, IsAct};

use crate::words::{Task, last_word, what_word};
use ec_fields::{NoMemory, Octets};
use entry_lines::{bad_value, bad_what, get_usage};
use entry_words::{What, value_of, what_of};
use file_store::{FileSpec, Name};
use object_dictionary::SdoService;
use segment_plan::{Service, SlaveSpec};
use std::alloc::Global;
use value_texts::kind_at;

/// What is done at a slave.
#[derive(Drop)]
pub enum Act {
    /// A service that the words and the plan say whole.
    Whole(Service),
    /// A write of the file of this name by its password, whose octets are in a file of one's own.
    Write { name: Name, pass: u32 },
    /// Nothing: the words ask for what there isn't, as this line says.
    Nothing(Octets),
}

// The file of a slave's plan that has this name.
fn file_of<'a>(slave: &'a SlaveSpec, name: &[u8]) -> Option<&'a (FileSpec, Octets)>
    ensures { option_copied result ≡ file_of slave.now name.now }
{
    slave
        .files
        .as_slice()
        .iter()
        .find(|file| file.0.name.as_slice() == name)
}

// The password of a file in a slave's plan, 0 where it has no such file.
#[tactic(auto, unfolding(crate::specs::Acts::pass_of))]
fn pass_of(slave: &SlaveSpec, name: &[u8]) -> u32
    ensures { result ≡ pass_of slave.now name.now }
{
    match file_of(slave, name) {
        Some(file) => file.0.pass,
        None => 0,
    }
}

// The write of a value to an entry.
#[tactic(auto, unfolding(crate::specs::Acts::write_act))]
fn write_act(
    alloc: Global,
    slave: &SlaveSpec,
    index: u16,
    sub: u8,
    word: &str,
) -> Result<Act, NoMemory>
    ensures value { IfOk result (λ act. act ≡ write_act slave.now index sub word.now) }
    ensures sound { IfOk result IsAct }
{
    let kind = kind_at(slave, index, sub);
    match value_of(alloc, kind, word)? {
        Some(bytes) => Ok(Act::Whole(Service::Sdo(SdoService::Download { index, sub, bytes }))),
        None => Ok(Act::Nothing(bad_value(alloc, index, sub, kind, word)?)),
    }
}

// What is done with an entry. A file takes no entry's value.
#[tactic(auto, unfolding(crate::specs::Acts::entry_act))]
fn entry_act(
    alloc: Global,
    words: &[String],
    task: Task,
    slave: &SlaveSpec,
    index: u16,
    sub: u8,
) -> Result<Act, NoMemory>
    ensures value { IfOk result (λ act. act ≡ entry_act (map string_bytes words.now) task slave.now index sub) }
    ensures sound { IfOk result IsAct }
{
    match task {
        Task::Read => Ok(Act::Whole(Service::Sdo(SdoService::Upload { index, sub }))),
        Task::Save => Ok(Act::Nothing(Octets::copy_of(alloc, get_usage())?)),
        Task::Write => write_act(alloc, slave, index, sub, last_word(words)),
    }
}

// What is done with a file.
#[tactic(auto, unfolding(crate::specs::Acts::file_act))]
fn file_act(task: Task, slave: &SlaveSpec, name: Name) -> Act
    requires { IsName name }
    ensures value { result ≡ file_act task slave.now name }
    ensures sound { IsAct result }
{
    let pass = pass_of(slave, name.as_slice());
    match task {
        Task::Read | Task::Save => Act::Whole(Service::ReadFile { name, pass }),
        Task::Write => Act::Write { name, pass },
    }
}

/// What the words ask to be done at a slave of the plan: an upload or a download of an entry, whose value is taken by the entry's type in the plan, or
/// a file that is read or written, by its password there.
#[tactic(auto, unfolding(crate::specs::Acts::act_in))]
pub fn act_of(
    alloc: Global,
    words: &[String],
    task: Task,
    slave: &SlaveSpec,
) -> Result<Act, NoMemory>
    ensures value { IfOk result (λ act. act ≡ act_in (map string_bytes words.now) task slave.now) }
    ensures sound { IfOk result IsAct }
{
    let word = what_word(words);
    match what_of(word) {
        Some(What::Entry { index, sub }) => entry_act(alloc, words, task, slave, index, sub),
        Some(What::File(name)) => Ok(file_act(task, slave, name)),
        None => Ok(Act::Nothing(bad_what(alloc, word)?)),
    }
}
