ghost use Rattle.std.specs.Prelude.{◌≡◌, map, string_bytes};
ghost use Rattle.entry_act.specs.Words.{is_form, four_in, five_in, task_in, usage_in, scenario_in, slave_in, what_in, last_in};

use entry_lines::{get_usage, put_usage};

/// What the words ask for.
#[derive(Clone, Copy)]
pub enum Task {
    /// `get SCENARIO SLAVE WHAT`
    Read,
    /// `get SCENARIO SLAVE WHAT FILE`
    Save,
    /// `put SCENARIO SLAVE WHAT VALUE`
    Write,
}

/// Whether the first word is `get` or `put`.
pub fn is_form(words: &[String]) -> bool
    ensures { result ≡ is_form (map string_bytes words.now) }
{
    match words {
        [word, ..] => word.as_str() == "get" || word.as_str() == "put",
        [] => false,
    }
}

fn four(word: &str) -> Option<Task>
    ensures { result ≡ four_in word.now }
{
    if word == "get" {
        Some(Task::Read)
    } else {
        None
    }
}

fn five(word: &str) -> Option<Task>
    ensures { result ≡ five_in word.now }
{
    if word == "get" {
        Some(Task::Save)
    } else if word == "put" {
        Some(Task::Write)
    } else {
        None
    }
}

/// What the words ask for; none where they fit neither form.
pub fn task_of(words: &[String]) -> Option<Task>
    ensures { result ≡ task_in (map string_bytes words.now) }
{
    match words {
        [word, _, _, _] => four(word.as_str()),
        [word, _, _, _, _] => five(word.as_str()),
        _ => None,
    }
}

/// The line of words that don't fit, by the first one.
pub fn usage_of(words: &[String]) -> &'static [u8]
    ensures { result.now ≡ usage_in (map string_bytes words.now) }
{
    match words {
        [word, ..] if word.as_str() == "put" => put_usage(),
        _ => get_usage(),
    }
}

/// The word SCENARIO.
pub fn scenario_word(words: &[String]) -> &str
    ensures { result.now ≡ scenario_in (map string_bytes words.now) }
{
    match words {
        [_, scenario, ..] => scenario.as_str(),
        _ => "",
    }
}

/// The word SLAVE.
pub fn slave_word(words: &[String]) -> &str
    ensures { result.now ≡ slave_in (map string_bytes words.now) }
{
    match words {
        [_, _, slave, ..] => slave.as_str(),
        _ => "",
    }
}

/// The word WHAT.
pub fn what_word(words: &[String]) -> &str
    ensures { result.now ≡ what_in (map string_bytes words.now) }
{
    match words {
        [_, _, _, what, ..] => what.as_str(),
        _ => "",
    }
}

/// The word FILE or VALUE.
pub fn last_word(words: &[String]) -> &str
    ensures { result.now ≡ last_in (map string_bytes words.now) }
{
    match words {
        [_, _, _, _, last, ..] => last.as_str(),
        _ => "",
    }
}
