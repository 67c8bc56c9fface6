ghost use Rattle.std.specs.Prelude.{◌≡◌, ◌++◌, chars, string_bytes, IfOk, OnOk};
ghost use Rattle.std.specs.List.{flat_map};
ghost use Rattle.fault_texts.specs.Characters.{is_control, shown, told_of, quoted};

use std::alloc::{AllocError, Global};

/// The most characters that are told of a text.
const LONG: usize = 40;

// Whether a character isn't shown.
#[tactic(auto, unfolding(crate::specs::Characters::is_control))]
fn is_control(character: char) -> bool
    ensures { result ≡ is_control character }
{
    let code = u32::from(character);
    code < 0x20 || (0x7F <= code && code <= 0x9F)
}

// Adds a character as it stands in quotes.
#[tactic(auto, unfolding(crate::specs::Characters::shown))]
fn add_character(text: &mut String, character: char) -> Result<(), AllocError>
    ensures { OnOk result (string_bytes text.new ≡ string_bytes text.old ++ shown character) }
{
    if character == '"' {
        text.push_str("\\\"")
    } else if character == '\\' {
        text.push_str("\\\\")
    } else if is_control(character) {
        let code = u32::from(character);
        write!(text, "\\x{code:02x}")
    } else {
        text.push(character)
    }
}

// Adds characters as they stand in quotes.
fn add_characters(text: &mut String, characters: &[char]) -> Result<(), AllocError>
    ensures { OnOk result (string_bytes text.new ≡ string_bytes text.old ++ flat_map shown characters.now) }
{
    for character in characters {
        add_character(text, *character)?;
    }
    Ok(())
}

// The characters of a text.
fn characters_of(alloc: Global, text: &str) -> Result<Vec<char>, AllocError>
    ensures { IfOk result (λ cs. cs.items ≡ chars text.now) }
{
    text.chars().collect(alloc)
}

// Adds characters in quotes, the first alone where they are more than 40.
#[tactic(auto, unfolding(crate::specs::Characters::told_of))]
fn add_told(text: &mut String, characters: &[char]) -> Result<(), AllocError>
    ensures { OnOk result (string_bytes text.new ≡ string_bytes text.old ++ told_of characters.now) }
{
    let first = characters.len().min(LONG);
    text.push_str("\"")?;
    add_characters(text, &characters[..first])?;
    text.push_str("\"")?;
    if characters.len() > LONG {
        text.push_str("..")
    } else {
        Ok(())
    }
}

/// Adds a text in quotes, with its first characters alone where they are more than 40.
#[tactic(auto, unfolding(crate::specs::Characters::quoted))]
pub fn add_quoted(alloc: Global, text: &mut String, told: &str) -> Result<(), AllocError>
    ensures { OnOk result (string_bytes text.new ≡ string_bytes text.old ++ quoted told.now) }
{
    let characters = characters_of(alloc, told)?;
    add_told(text, characters.as_slice())
}

/// A text in quotes, with its first characters alone where they are more than 40.
pub fn quoted(alloc: Global, text: &str) -> Result<String, AllocError>
    ensures { IfOk result (λ line. string_bytes line ≡ quoted text.now) }
{
    let mut line = String::new(alloc);
    add_quoted(alloc, &mut line, text)?;
    Ok(line)
}

/// A character of a text with its place, counted from 1: `a space at 3`, `"x" at 2`.
pub fn character(alloc: Global, character: char, place: usize) -> Result<String, AllocError> {
    if character == ' ' {
        return format!(in alloc; "a space at {place}");
    }
    let mut line = String::new(alloc);
    line.push_str("\"")?;
    add_character(&mut line, character)?;
    line.push_str("\"")?;
    write!(line, " at {place}")?;
    Ok(line)
}
