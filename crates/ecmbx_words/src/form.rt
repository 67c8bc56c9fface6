ghost use Rattle.std.specs.Prelude.{◌≡◌, ◌≤◌, string_bytes, map};
ghost use Rattle.ecmbx_words.specs.Form.{number_in, made_in, served_in, pair_in, triple_in, form_in, serving, as_serve};

use itoa::Buffer;

/// The most services that a generated scenario has.
const MOST: u32 = 4096;

/// The most datagrams that a serving hears.
const MOST_GRAMS: u32 = 1_000_000;

/// What the words behind the program's name ask for. The files that a form names stand behind its first word.
#[derive(Clone, Copy)]
pub enum Form {
    /// `run SCENARIO`
    Run,
    /// `run SCENARIO CAPTURE`
    RunSaved,
    /// `decode CAPTURE`
    Decode,
    /// `audit CAPTURE`
    Audit,
    /// `make SEED SIZE`, the size 1 to 4,096.
    Make { seed: u32, size: u32 },
    /// `serve SCENARIO COUNT`, the count 1 to 1,000,000.
    Serve { count: u32 },
    /// Any other words.
    Other,
}

/// A number in decimal digits without sign and without a leading zero, where it is below 2 to the power 32.
pub fn number(word: &str) -> Option<u32>
    ensures { result ≡ number_in word.now }
{
    let Ok(number) = word.parse::<u32>() else {
        return None;
    };
    let mut digits = Buffer::new();
    if digits.format(number) == word {
        Some(number)
    } else {
        None
    }
}

// The form of the words `make SEED SIZE`.
fn made(seed: &str, size: &str) -> Form
    ensures { result ≡ made_in (number_in seed.now) (number_in size.now) }
{
    match (number(seed), number(size)) {
        (Some(seed), Some(size)) if size >= 1 && size <= MOST => Form::Make { seed, size },
        _ => Form::Other,
    }
}

// A count of datagrams, 1 to 1,000,000.
fn counted(word: &str) -> Option<u32>
    ensures { served_in (number_in word.now) ≡ serving result }
{
    match number(word) {
        Some(count) if count >= 1 && count <= MOST_GRAMS => Some(count),
        _ => None,
    }
}

// The form of the words `serve SCENARIO COUNT`.
fn served(count: &str) -> Form
    ensures { result ≡ served_in (number_in count.now) }
{
    match counted(count) {
        Some(count) => Form::Serve { count },
        None => Form::Other,
    }
}

// The form of two words: the name of a form, and a file.
fn pair(word: &str) -> Form
    ensures { result ≡ pair_in word.now }
{
    if word == "run" {
        Form::Run
    } else if word == "decode" {
        Form::Decode
    } else if word == "audit" {
        Form::Audit
    } else {
        Form::Other
    }
}

// The form of three words: the name of a form, and what it takes.
fn triple(word: &str, second: &str, third: &str) -> Form
    ensures { result ≡ triple_in word.now second.now third.now }
{
    if word == "run" {
        Form::RunSaved
    } else if word == "make" {
        made(second, third)
    } else if word == "serve" {
        served(third)
    } else {
        Form::Other
    }
}

/// The form of the words, `Other` where they are none that is built.
pub fn form_of(words: &[String]) -> Form
    ensures { result ≡ form_in (map string_bytes words.now) }
{
    match words {
        [word, _] => pair(word.as_str()),
        [word, second, third] => triple(word.as_str(), second.as_str(), third.as_str()),
        _ => Form::Other,
    }
}

/// The count of the words `stream SCENARIO COUNT`, 1 to 1,000,000; none where the words are others.
pub fn stream_of(words: &[String]) -> Option<u32>
    ensures { form_in (as_serve (map string_bytes words.now)) ≡ serving result }
{
    match words {
        [word, _, count] if word.as_str() == "stream" => counted(count.as_str()),
        _ => None,
    }
}
