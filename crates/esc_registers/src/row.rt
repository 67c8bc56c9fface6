ghost use Rattle.std.specs.Prelude.{◌≡◌};
ghost use Rattle.esc_registers.specs.Access.{reads, writes, is_by_place, is_by_station};

use datagrams::Command;

/// One of the two sync managers.
#[derive(Clone, Copy)]
pub enum Mailbox {
    /// Manager 0, for mails to the slave.
    Outward,
    /// Manager 1, for mails from the slave.
    Inward,
}

/// What an access of some length at some address means to the slave.
#[derive(Clone, Copy)]
pub enum Row {
    Station,
    AlControl,
    AlStatus,
    AlStatusAndCode,
    AlStatusCode,
    Whole(Mailbox),
    Status(Mailbox),
    Activate(Mailbox),
    PdiControl(Mailbox),
    OutArea,
    InArea,
}

/// Whether the command reads at a physical address.
pub fn reads(command: Command) -> bool
    ensures { result ≡ reads command }
{
    matches!(
        command,
        Command::Aprd | Command::Aprw | Command::Fprd | Command::Fprw
    )
}

/// Whether the command writes at a physical address.
pub fn writes(command: Command) -> bool
    ensures { result ≡ writes command }
{
    matches!(
        command,
        Command::Apwr | Command::Aprw | Command::Fpwr | Command::Fprw
    )
}

/// Whether the command means a slave by its place in the ring.
pub fn is_by_place(command: Command) -> bool
    ensures { result ≡ is_by_place command }
{
    matches!(command, Command::Aprd | Command::Apwr | Command::Aprw)
}

/// Whether the command means a slave by its station address.
pub fn is_by_station(command: Command) -> bool
    ensures { result ≡ is_by_station command }
{
    matches!(command, Command::Fprd | Command::Fpwr | Command::Fprw)
}
