ghost use Rattle.std.specs.Prelude.{◌≡◌, ◌++◌, OnOk};
ghost use Rattle.service_texts.specs.States.{state_word, state_text};

use ec_fields::{NoMemory, Octets};
use std::alloc::Global;

// An AL state by its number (ETG.1000.6, section 6.4.1), empty where it is none.
fn state_word(state: u8) -> &'static str
    ensures { result.now ≡ state_word state }
{
    match state {
        1 => "Init",
        2 => "PreOp",
        3 => "Bootstrap",
        4 => "SafeOp",
        8 => "Op",
        _ => "",
    }
}

/// An AL state by its name, or by its number where it is none.
#[tactic(auto, unfolding(crate::specs::States::state_text))]
pub fn add_state(alloc: Global, line: &mut Octets, state: u8) -> Result<(), NoMemory>
    ensures { OnOk result (line.new ≡ line.old ++ state_text state) }
{
    let word = state_word(state);
    if !word.is_empty() {
        return line.add(word.as_bytes());
    }
    let number = format!(in alloc; "state {state}")?;
    line.add(number.as_bytes())?;
    Ok(())
}
