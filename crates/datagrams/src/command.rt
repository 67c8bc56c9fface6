ghost use Rattle.std.specs.Prelude.{◌≡◌};
ghost use Rattle.datagrams.specs.Command.{number_of, command_of};

/// What a datagram asks of the slaves (ETG.1000.4, 5.4.1). `Other` stands for the numbers above 14.
#[derive(Clone, Copy, Default)]
pub enum Command {
    /// No operation.
    #[default]
    Nop,
    /// Auto increment physical read: the slave is meant by its place in the ring.
    Aprd,
    /// Auto increment physical write.
    Apwr,
    /// Auto increment physical read write.
    Aprw,
    /// Configured address physical read: the slave is meant by its station address.
    Fprd,
    /// Configured address physical write.
    Fpwr,
    /// Configured address physical read write.
    Fprw,
    /// Broadcast read.
    Brd,
    /// Broadcast write.
    Bwr,
    /// Broadcast read write.
    Brw,
    /// Logical memory read.
    Lrd,
    /// Logical memory write.
    Lwr,
    /// Logical memory read write.
    Lrw,
    /// Auto increment physical read multiple write.
    Armw,
    /// Configured address physical read multiple write.
    Frmw,
    /// A number that the standard reserves, above 14.
    Other(u8),
}

impl Command {
    /// The command with this number.
    pub fn of(number: u8) -> Command
        ensures { result ≡ command_of number }
    {
        match number {
            0 => Command::Nop,
            1 => Command::Aprd,
            2 => Command::Apwr,
            3 => Command::Aprw,
            4 => Command::Fprd,
            5 => Command::Fpwr,
            6 => Command::Fprw,
            7 => Command::Brd,
            8 => Command::Bwr,
            9 => Command::Brw,
            10 => Command::Lrd,
            11 => Command::Lwr,
            12 => Command::Lrw,
            13 => Command::Armw,
            14 => Command::Frmw,
            _ => Command::Other(number),
        }
    }

    /// The number of the command.
    pub fn number(self) -> u8
        ensures { result ≡ number_of self }
    {
        match self {
            Command::Nop => 0,
            Command::Aprd => 1,
            Command::Apwr => 2,
            Command::Aprw => 3,
            Command::Fprd => 4,
            Command::Fpwr => 5,
            Command::Fprw => 6,
            Command::Brd => 7,
            Command::Bwr => 8,
            Command::Brw => 9,
            Command::Lrd => 10,
            Command::Lwr => 11,
            Command::Lrw => 12,
            Command::Armw => 13,
            Command::Frmw => 14,
            Command::Other(number) => number,
        }
    }
}
