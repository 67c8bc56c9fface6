//! The server of a run: it keeps each mail that it takes, answers none, and offers the mails given to it in order.

ghost use Rattle.std.specs.Prelude.{◌≡◌, ◌+◌, ◌-◌, ◌≤◌, ◌<◌, [], ◌∷◌, ◌++◌, OnOk};
ghost use Rattle.mailbox_law.specs.Waiting.{HasRoom};

use ec_fields::{NoMemory, Rows, buffer_of};
use mailbox_mail::{Mail, MailFault};
use mailbox_slave::Server;
use std::alloc::Global;
use std::collections::VecDeque;
use std::marker::Model;

/// The mails that a slave took, without their counters, and those that wait to be offered.
#[derive(Drop)]
pub struct Keeper {
    taken: Vec<Mail>,
    room: usize,
    waiting: VecDeque<Mail>,
}

impl Model for Keeper {
    ghost use Rattle.std.specs.Prelude.{◌-◌, vec_len, vec_capacity, All};
    ghost use Rattle.mailbox_law.specs.Waiting.{Kept, HasRoom};

    ghost Value = { Kept };

    ghost view = { λ k. record { taken = k.taken.items; spare = vec_capacity k.taken - vec_len k.taken; room = k.room; waiting = k.waiting.items } };

    ghost invariant = { λ k. All (HasRoom k.room) k.waiting.items };
}

impl Keeper {
    /// No mail was taken or given yet; a mail that waits has at most this many octets.
    pub fn new(alloc: Global, room: usize) -> Keeper
        ensures taken { result.taken ≡ [] }
        ensures room { result.room ≡ room }
        ensures waiting { result.waiting ≡ [] }
    {
        Keeper {
            taken: Vec::new(alloc),
            room,
            waiting: VecDeque::new(alloc),
        }
    }

    /// A mail waits behind the others.
    pub fn give(&mut self, mail: Mail) -> Result<(), NoMemory>
        requires { HasRoom self.old.room mail }
        ensures ok { OnOk result (self.new ≡ record self.old { waiting = self.old.waiting ++ mail ∷ [] }) }
    {
        self.waiting.push_back(mail)?;
        Ok(())
    }

    /// Makes room for one mail more, so that it may be taken.
    pub fn make_room(&mut self) -> Result<(), NoMemory>
        ensures kept { self.new ≡ record self.old { spare = self.new.spare } }
        ensures room { OnOk result (1 ≤ self.new.spare) }
    {
        self.taken.reserve(1)?;
        Ok(())
    }

    /// The mails taken, in order.
    pub fn into_taken(self) -> Vec<Mail>
        ensures { result.items ≡ self.taken }
    {
        self.taken
    }
}

impl Server for Keeper {
    ghost use Rattle.std.specs.Prelude.{◌≤◌};
    ghost use Rattle.mailbox_law.specs.Waiting.{keeps, gives, first_of};

    ghost room = { λ k. k.room };

    ghost ready = { λ k. 1 ≤ k.spare };

    ghost taken = { λ k body al. keeps k body };

    ghost next_mail = { λ k. first_of k.waiting };

    ghost rest = { gives };

    fn take(&mut self, mail: &Result<Mail, MailFault>, _al: u8) {
        if let Ok(mail) = mail {
            let kept = Mail {
                counter: 0,
                ..copy_of(mail)
            };
            self.taken.push_reserved(kept);
        }
    }

    fn waiting(&self) -> bool {
        !self.waiting.is_empty()
    }

    fn next(&mut self) -> Mail {
        match self.waiting.pop_front() {
            Some(mail) => mail,
            None => unreachable!(),
        }
    }
}

/// A mail of its own with the same contents.
pub fn copy_of(mail: &Mail) -> Mail
    ensures { result ≡ mail.now }
{
    Mail {
        address: mail.address,
        kind: mail.kind,
        counter: mail.counter,
        body: buffer_of(mail.body.as_slice()),
    }
}
