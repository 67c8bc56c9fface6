ghost use Rattle.std.specs.Prelude.{◌≡◌};
ghost use Rattle.capture_audit.specs.Access.{access_of, read_by, write_by};

use datagrams::register::{
    IN_AREA, MANAGER_0, MANAGER_1, MANAGER_ACTIVATE, MANAGER_PDI_CONTROL, OUT_AREA,
};
use datagrams::{Command, Head};

/// How many octets of a sync manager are written at once.
pub const MANAGER_LEN: usize = 8;

/// A mailbox's sync manager (ETG.1000.4, sync manager registers).
#[derive(Clone, Copy)]
pub enum Manager {
    /// Sync manager 0, of the mailbox that the master writes.
    Out,
    /// Sync manager 1, of the mailbox that the master reads.
    In,
}

/// An access of a mailbox.
#[derive(Clone, Copy)]
pub enum MailAccess {
    /// FPWR at 0x1000.
    WriteMail,
    /// FPRD at 0x1800.
    ReadMail,
    /// FPWR at 0x080E.
    WriteRequest,
    /// FPRD at 0x080F.
    ReadAcknowledge,
}

/// What a datagram is to an audit.
#[derive(Clone, Copy)]
pub enum Access {
    /// FPWR of 8 octets to a mailbox's sync manager.
    Manager(Manager),
    /// An access of a mailbox.
    Mailbox(MailAccess),
    /// Anything else.
    Other,
}

// A write of so many octets.
fn write_by(ado: u16, len: usize) -> Access
    ensures { result ≡ write_by ado len }
{
    if ado == OUT_AREA {
        Access::Mailbox(MailAccess::WriteMail)
    } else if ado == MANAGER_1 + MANAGER_ACTIVATE {
        Access::Mailbox(MailAccess::WriteRequest)
    } else if ado == MANAGER_0 && len == MANAGER_LEN {
        Access::Manager(Manager::Out)
    } else if ado == MANAGER_1 && len == MANAGER_LEN {
        Access::Manager(Manager::In)
    } else {
        Access::Other
    }
}

fn read_by(ado: u16) -> Access
    ensures { result ≡ read_by ado }
{
    if ado == IN_AREA {
        Access::Mailbox(MailAccess::ReadMail)
    } else if ado == MANAGER_1 + MANAGER_PDI_CONTROL {
        Access::Mailbox(MailAccess::ReadAcknowledge)
    } else {
        Access::Other
    }
}

/// What a datagram with this head and a body of so many octets is.
pub fn access_of(head: &Head, len: usize) -> Access
    ensures { result ≡ access_of head.now len }
{
    match head.command {
        Command::Fpwr => write_by(head.ado, len),
        Command::Fprd => read_by(head.ado),
        _ => Access::Other,
    }
}
