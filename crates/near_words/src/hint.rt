ghost use Rattle.std.specs.Prelude.{◌≡◌, ◌++◌, OnOk, option_copied};
ghost use Rattle.near_words.specs.Hint.{question, hint};

use ec_fields::{NoMemory, Octets};

// The question whether a word was meant.
fn add_question(line: &mut Octets, meant: &str) -> Result<(), NoMemory>
    ensures { OnOk result (line.new ≡ line.old ++ question meant.now) }
{
    line.add(b"; did you mean `")?;
    line.add(meant.as_bytes())?;
    line.add(b"`?")?;
    Ok(())
}

/// Puts behind a line the question whether a word was meant, where there is one. `NoMemory` is want of memory.
#[tactic(auto, using(crate::proofs::Asked::hinted, crate::proofs::Asked::unhinted))]
pub fn add_hint(line: &mut Octets, meant: Option<&str>) -> Result<(), NoMemory>
    ensures { OnOk result (line.new ≡ line.old ++ hint (option_copied meant.entry)) }
{
    match meant {
        Some(meant) => add_question(line, meant),
        None => Ok(()),
    }
}
