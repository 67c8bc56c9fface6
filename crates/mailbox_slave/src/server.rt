//! What a slave's box asks of the services behind it.

ghost use Rattle.std.specs.Prelude.{◌≡◌, ◌≤◌, None, Some, is_some, IsSome, length};
ghost use Rattle.link_mails.specs.Body.{link_read};

use mailbox_mail::{Mail, MailFault};

/// The services of a slave: they take mails, and have mails waiting to be offered.
pub trait Server {
    ghost use Rattle.std.specs.Prelude.{ℕ, Option};
    ghost use Rattle.esc_registers.specs.of_mailbox_mail.declared.mail.Mail.{Mail};
    ghost use Rattle.link_mails.specs.Body.{Body};

    ghost room: { Self → ℕ };

    ghost ready: { Self → Type 0 };

    ghost taken: { Self → Body → ℕ → Self };

    ghost next_mail: { Self → Option Mail };

    ghost rest: { Self → Self };

    /// Acts on a mail, or on the fault with which it does not read, in this AL state. What it does
    /// does not depend on the mail's counter.
    fn take(&mut self, mail: &Result<Mail, MailFault>, al: u8)
        requires ready { ready self.old }
        requires idle { next_mail self.old ≡ None }
        ensures taken { self.new ≡ taken self.old (link_read mail.now).body al }
        ensures room { room self.new ≡ room self.old };

    /// Whether a mail is waiting to be offered.
    fn waiting(&self) -> bool
        ensures { result ≡ is_some (next_mail self.now) };

    /// Hands out the next waiting mail. Its counter counts for nothing.
    fn next(&mut self) -> Mail
        requires { IsSome (next_mail self.old) }
        ensures given { next_mail self.old ≡ Some result }
        ensures rest { self.new ≡ rest self.old }
        ensures fits { length result.body.items ≤ room self.old }
        ensures room { room self.new ≡ room self.old };

    /// The same as [`next`](Server::next), into a mail that is kept: whoever has a fast form writes the
    /// body in its place.
    fn next_into(&mut self, into: &mut Mail)
        requires { IsSome (next_mail self.old) }
        ensures given { next_mail self.old ≡ Some into.new }
        ensures rest { self.new ≡ rest self.old }
        ensures fits { length into.new.body.items ≤ room self.old }
        ensures room { room self.new ≡ room self.old }
    {
        *into = self.next();
    }
}
