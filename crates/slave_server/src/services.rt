use crate::server::SlaveServer;
use mailbox_mail::{Mail, MailFault};
use mailbox_slave::Server;
use slave_node::Services;
use slave_node::slave_steps::Clear;

impl Server for SlaveServer {
    ghost use Rattle.std.specs.Prelude.{◌≡◌, ◌<◌, ◌-◌};
    ghost use Rattle.slave_server.specs.Serving.{takes, next_mail, rest};

    ghost room = { λ s. s.profile.back - 6 };

    ghost ready = { λ s. s.server.handled < 18446744073709551615 };

    ghost taken = { takes };

    ghost next_mail = { next_mail };

    ghost rest = { rest };

    fn take(&mut self, mail: &Result<Mail, MailFault>, al: u8) {
        self.act(mail, al);
    }

    fn waiting(&self) -> bool {
        self.has_mail()
    }

    fn next(&mut self) -> Mail {
        self.give()
    }

    fn next_into(&mut self, into: &mut Mail) {
        self.give_into(into);
    }
}

impl Clear for SlaveServer {
    ghost use Rattle.slave_server.specs.Serving.{cleared};

    ghost cleared = { cleared };

    fn clear(&mut self) {
        self.forget();
    }
}

impl Services for SlaveServer {
    ghost use Rattle.std.specs.Prelude.{refl};
    ghost use Rattle.slave_server.specs.Counting.{takes_one};

    ghost handled = { λ s. s.server.handled };

    fn handled(&self) -> u64 {
        // A field is named so that the proof has what holds of the fields.
        let _ = &self.failure;
        self.handled
    }

    ghost may_take = { λ s few. few };

    ghost counts_one = { takes_one };

    ghost rest_counts = { λ s. refl };

    ghost clear_counts = { λ s. refl };
}
