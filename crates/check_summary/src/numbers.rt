ghost use Rattle.std.specs.Prelude.{◌≡◌, ◌++◌, decimal, OnOk};
ghost use Rattle.check_summary.specs.Numbers.{counted, some_counted};

use ec_fields::{NoMemory, Octets};
use itoa::Buffer;

/// Adds a number in decimal digits.
pub(crate) fn add_number(text: &mut Octets, number: u64) -> Result<(), NoMemory>
    ensures { OnOk result (text.new ≡ text.old ++ decimal number) }
{
    let mut digits = Buffer::new();
    text.add(digits.format(number).as_bytes())?;
    Ok(())
}

/// Adds how many there are of something, and its word.
#[tactic(auto, unfolding(crate::specs::Numbers::counted))]
pub(crate) fn add_count(
    text: &mut Octets,
    number: usize,
    one: &str,
    more: &str,
) -> Result<(), NoMemory>
    ensures { OnOk result (text.new ≡ text.old ++ counted number one.now more.now) }
{
    add_number(text, number as u64)?;
    text.add(b" ")?;
    text.add(if number == 1 { one } else { more }.as_bytes())?;
    Ok(())
}

/// Adds the same behind a comma, where there are some.
#[tactic(auto, unfolding(crate::specs::Numbers::some_counted))]
pub(crate) fn add_some(
    text: &mut Octets,
    number: usize,
    one: &str,
    more: &str,
) -> Result<(), NoMemory>
    ensures { OnOk result (text.new ≡ text.old ++ some_counted number one.now more.now) }
{
    if number > 0 {
        text.add(b", ")?;
        add_count(text, number, one, more)?;
    }
    Ok(())
}
