ghost use Rattle.std.specs.Prelude.{◌≤◌};

use ec_outside::{Gram, Peer};
use mailbox_mail::Mail;

/// Who asked for what: to whom the replies of a request go, and with which station and counter.
#[derive(Clone, Copy)]
pub struct Asker {
    /// The peer that asked.
    pub peer: Peer,
    /// The number of the slave that it asked, in ring order.
    pub slave: u32,
    /// The station of that slave.
    pub station: u16,
    /// The counter of its mail.
    pub counter: u8,
    ghost counted: { counter ≤ 7 },
}

/// What becomes of a datagram.
#[derive(Drop)]
pub enum Asked {
    /// The mail is to be passed on to this slave; its replies go by this key.
    Queued { key: usize, slave: u32, mail: Mail },
    /// The datagram is no request.
    Ignored,
    /// The gateway answers by itself.
    Error(Gram),
}
