//! Services behind the mailboxes of a slave.

use mailbox_mail::{Mail, MailFault, error_mail};
use mailbox_slave::Server;
use slave_node::Services;
use slave_node::slave_steps::Clear;

/// Services that take each mail and answer none. They may have one mail to give from the start.
#[derive(Drop)]
pub struct Quiet {
    pub gives: bool,
}

impl Server for Quiet {
    ghost use Rattle.std.specs.Prelude.{false, if◌then◌else◌, Some, None};
    ghost use Rattle.mailbox_mail.specs.Mail.{error_of};

    ghost room = { λ s. 10 };

    ghost ready = { λ s. Unit {0} };

    ghost taken = { λ s b al. s };

    ghost next_mail = { λ s. if s.gives then Some (error_of 2) else None };

    ghost rest = { λ s. record { gives = false } };

    fn take(&mut self, _mail: &Result<Mail, MailFault>, _al: u8) {}

    fn waiting(&self) -> bool {
        self.gives
    }

    fn next(&mut self) -> Mail {
        self.gives = false;
        error_mail(2)
    }
}

impl Clear for Quiet {
    ghost use Rattle.std.specs.Prelude.{false};

    ghost cleared = { λ s. record { gives = false } };

    fn clear(&mut self) {
        self.gives = false;
    }
}

impl Services for Quiet {
    ghost use Rattle.std.specs.Prelude.{refl};
    ghost use Rattle.std.proofs.Common.{rules};

    ghost handled = { λ s. 0 };

    fn handled(&self) -> u64 {
        0
    }

    ghost may_take = { λ s few. tt };

    ghost counts_one = { Prim.search rules };

    ghost rest_counts = { λ s. refl };

    ghost clear_counts = { λ s. refl };
}

/// A server that refuses each mail by a mailbox error.
#[derive(Drop)]
pub struct Refusing {
    pub taken: u8,
    pub answers: bool,
}

impl Server for Refusing {
    ghost use Rattle.std.specs.Prelude.{◌+◌, ◌<◌, true, false, if◌then◌else◌, Some, None};
    ghost use Rattle.mailbox_mail.specs.Mail.{error_of};

    ghost room = { λ s. 4 };

    ghost ready = { λ s. s.taken < 255 };

    ghost taken = { λ s body al. record { taken = s.taken + 1; answers = true } };

    ghost next_mail = { λ s. if s.answers then Some (error_of 2) else None };

    ghost rest = { λ s. record { taken = s.taken; answers = false } };

    fn take(&mut self, _mail: &Result<Mail, MailFault>, _al: u8) {
        self.taken += 1;
        self.answers = true;
    }

    fn waiting(&self) -> bool {
        self.answers
    }

    fn next(&mut self) -> Mail {
        self.answers = false;
        error_mail(2)
    }
}
