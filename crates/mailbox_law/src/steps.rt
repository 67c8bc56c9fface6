//! The steps of a run of one link, and what they came to.

ghost use Rattle.std.specs.Prelude.{◌↔◌, IsTrue};

use ec_fields::Rows;
use mailbox_mail::{HEADER, Mail};

/// What becomes of a datagram.
#[derive(Clone, Copy)]
pub enum LinkFate {
    /// The slave meets it, and it returns.
    Pass,
    /// It is lost before it meets the slave.
    LostBefore,
    /// The slave meets it, and it is lost on its way back.
    LostBehind,
}

/// A step of a run.
#[derive(Drop)]
pub enum LinkStep {
    /// The outward half takes up a mail; while it holds one, nothing changes.
    Hold(Mail),
    /// A mail waits at the slave, behind those that wait there.
    Give(Mail),
    /// The datagram of the outward half is sent; while it holds no mail, nothing changes.
    Out(LinkFate),
    /// The datagram of the inward half is sent.
    In(LinkFate),
    /// The slave's processor makes a step.
    Pdi,
}

/// The mails of a run, each list in order.
#[derive(Drop)]
pub struct LinkRun {
    /// The mails that the outward half took up.
    pub held: Rows<Mail>,
    /// The mails that the slave's server took.
    pub taken: Rows<Mail>,
    /// The mails that were given to the slave.
    pub offered: Rows<Mail>,
    /// The mails that the inward half accepted.
    pub accepted: Rows<Mail>,
}

impl LinkStep {
    ghost use Rattle.mailbox_law.specs.Steps.{FitsLink};

    /// Whether the mail of the step fits its mailbox, of these lengths.
    pub fn fits(&self, out_len: u16, in_len: u16) -> bool
        ensures { IsTrue result ↔ FitsLink out_len in_len self.now }
    {
        match self {
            LinkStep::Hold(mail) => mail.body.len() + HEADER <= out_len as usize,
            LinkStep::Give(mail) => mail.body.len() + HEADER <= in_len as usize,
            _ => true,
        }
    }
}
