ghost use Rattle.std.specs.Prelude.{◌≡◌, map, string_bytes};
ghost use Rattle.people_call.specs.Call.{is_help, is_version, is_told, form_by, form_in};

/// The forms for people.
#[derive(Clone, Copy)]
pub(crate) enum Form {
    /// Something is told, and nothing else is done.
    Told,
    /// `get ..` and `put ..`
    Entry,
    /// Any other words.
    Other,
}

#[tactic(auto, unfolding(crate::specs::Call::is_help))]
pub(crate) fn is_help(word: &str) -> bool
    ensures { result ≡ is_help word.now }
{
    word == "help" || word == "--help" || word == "-h"
}

#[tactic(auto, unfolding(crate::specs::Call::is_version))]
fn is_version(word: &str) -> bool
    ensures { result ≡ is_version word.now }
{
    word == "version" || word == "--version" || word == "-V"
}

// Whether something is told of a word, whatever stands behind it.
#[tactic(auto, unfolding(crate::specs::Call::is_told))]
fn is_told(word: &str) -> bool
    ensures { result ≡ is_told word.now }
{
    word == "explain" || is_help(word) || is_version(word)
}

// The form of a first word.
#[tactic(auto, unfolding(crate::specs::Call::form_by))]
fn form_by(word: &str) -> Form
    ensures { result ≡ form_by word.now }
{
    if is_told(word) {
        Form::Told
    } else if word == "get" || word == "put" {
        Form::Entry
    } else {
        Form::Other
    }
}

/// The form of the words.
#[tactic(auto, unfolding(crate::specs::Call::form_in))]
pub(crate) fn form_of(words: &[String]) -> Form
    ensures { result ≡ form_in (map string_bytes words.now) }
{
    match words {
        [word, ..] => form_by(word.as_str()),
        [] => Form::Other,
    }
}
