ghost use Rattle.std.specs.Prelude.{◌≡◌};
ghost use Rattle.ecmbx_words.specs.Status.{number_of};

/// How a call of the program ended; its number is what the program ends with.
#[derive(Clone, Copy)]
pub enum Status {
    /// 0: all was carried out.
    Done,
    /// 1: the file is refused.
    Refused,
    /// 2: the words are no form of the command line.
    Usage,
    /// 3: the file isn't there.
    Absent,
    /// 4: the file is too long.
    TooLong,
    /// 5: a fault of the files.
    FileFault,
    /// 6: a fault of the sink.
    SinkFault,
    /// 7: a slave was given up.
    GivenUp,
    /// 8: the budget of frames was spent.
    BudgetSpent,
    /// 9: a fault of the port.
    PortFault,
    /// 10: want of memory.
    NoMemory,
    /// 11: a capture breaks a rule of the mailboxes.
    AuditNo,
    /// 12: a service over a gateway got no answer.
    NoAnswer,
}

impl Status {
    /// The number, 0 to 12.
    pub fn number(self) -> u8
        ensures { result ≡ number_of self }
    {
        match self {
            Status::Done => 0,
            Status::Refused => 1,
            Status::Usage => 2,
            Status::Absent => 3,
            Status::TooLong => 4,
            Status::FileFault => 5,
            Status::SinkFault => 6,
            Status::GivenUp => 7,
            Status::BudgetSpent => 8,
            Status::PortFault => 9,
            Status::NoMemory => 10,
            Status::AuditNo => 11,
            Status::NoAnswer => 12,
        }
    }
}
