//! Mails as a link sees them: the counter alone, and a body that is never looked at. Both ends of a
//! link stand on these words.
#![tactic(auto)]

ghost use Rattle.std.specs.Prelude.{◌≡◌, ◌≤◌};
ghost use Rattle.link_model.specs.Counters.{next_counter, repeats};

/// The counter behind this one: 0, which stands for none, and 7 are followed by 1 (ETG.1000.4, mailbox counter).
pub fn next_counter(counter: u8) -> u8
    requires { counter ≤ 7 }
    ensures { result ≡ next_counter counter }
{
    counter % 7 + 1
}

/// Whether a mail with this counter is the last mail once more: 0 stands for none, and is no repeat (ETG.1000.4,
/// mailbox counter).
pub fn is_repeat(last: u8, counter: u8) -> bool
    ensures { result ≡ repeats last counter }
{
    counter != 0 && counter == last
}
