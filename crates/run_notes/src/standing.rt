ghost use Rattle.std.specs.Prelude.{◌≡◌};
ghost use Rattle.run_notes.specs.Notes.{stations_of};

use crate::notes::Notes;
use ec_fields::{Octets, Rows};
use mailbox_mail::Kind;

/// A mail that is passed on to a slave.
#[derive(Drop)]
pub struct AskedMail {
    /// The key of its asker.
    pub key: usize,
    pub kind: Kind,
    pub body: Octets,
}

/// What became of the slaves of a segment so far.
#[derive(Drop)]
pub struct Log {
    pub notes: Rows<Notes>,
    /// The station of each slave and the length of its mailbox.
    pub homes: Rows<(u16, u16)>,
    /// The same while the slave is live.
    pub stations: Rows<Option<(u16, u16)>>,
    /// The mails that are passed on to each slave, in order.
    pub asked: Rows<Rows<AskedMail>>,
    /// The slaves at the ports of the switch, from port 1 on.
    pub ports: Rows<u32>,
    /// How often a slave that was given up is taken up again.
    pub recover: u32,
    ghost lit: { stations ≡ stations_of recover homes notes },
}
