ghost use Rattle.std.specs.Prelude.{◌≡◌, map, IfOk, string_bytes};
ghost use Rattle.ec_outside.specs.Faults.{Rose};
ghost use Rattle.ecmbx_words.specs.declared.status.Status.TheVariants as statuses;
ghost use Rattle.people_words.specs.declared.ended.Ended.TheVariants as ends;
ghost use Rattle.people_call.specs.Call.{version_of, told_of, told_in};
ghost use Rattle.people_call.specs.Course.{Tells};

use crate::explain::explained;
use crate::forms::is_help;
use code_texts::FAMILIES;
use ec_fields::{NoMemory, Octets};
use ec_outside::Sink;
use ecmbx_words::Status;
use form_help::{FORMS, Told, VERSION, help, usage};
use people_words::{Ended, tell};
use std::alloc::Global;

// What the words behind `version` ask for.
#[tactic(auto, unfolding(crate::specs::Call::version_of))]
fn version(alloc: Global, words: &[String]) -> Result<Told, NoMemory>
    ensures { IfOk result (λ t. t ≡ version_of (map string_bytes words.now)) }
{
    if words.is_empty() {
        Ok(Told {
            is_known: true,
            text: Octets::copy_of(alloc, VERSION.as_bytes())?,
        })
    } else {
        Ok(Told {
            is_known: false,
            text: usage(alloc, FORMS, "version")?,
        })
    }
}

// What is told of a word and those behind it.
#[tactic(auto, unfolding(crate::specs::Call::told_of))]
fn told_of(alloc: Global, word: &str, behind: &[String]) -> Result<Told, NoMemory>
    ensures { IfOk result (λ t. t ≡ told_of word.now (map string_bytes behind.now)) }
{
    if word == "explain" {
        explained(alloc, &FAMILIES, behind)
    } else if is_help(word) {
        help(alloc, FORMS, behind)
    } else {
        version(alloc, behind)
    }
}

// What is told of the words.
#[tactic(auto, unfolding(crate::specs::Call::told_in))]
fn told_in(alloc: Global, words: &[String]) -> Result<Told, NoMemory>
    ensures { IfOk result (λ t. t ≡ told_in (map string_bytes words.now)) }
{
    match words {
        [word, behind @ ..] => told_of(alloc, word.as_str(), behind),
        [] => Ok(Told {
            is_known: false,
            text: Octets::new(alloc),
        }),
    }
}

/// Puts what is told of the words; the end is Done, or Usage where what was asked for isn't known.
pub(crate) fn tell_words<O: Sink>(alloc: Global, words: &[String], out: &mut O) -> Ended
    ensures told { Tells (told_in (map string_bytes words.now)) (O.written out.old) (O.written out.new) result }
    ensures cause { result ≡ ends.As statuses.SinkFault → Rose (O.sink_faults out.old) (O.sink_faults out.new) }
{
    let Ok(told) = told_in(alloc, words) else {
        return Ended::As(Status::NoMemory);
    };
    let planned = if told.is_known {
        Status::Done
    } else {
        Status::Usage
    };
    tell(out, Ended::As(planned), told.text.bytes())
}
