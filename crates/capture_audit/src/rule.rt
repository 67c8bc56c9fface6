ghost use Rattle.std.specs.Prelude.{◌≡◌};
ghost use Rattle.capture_audit.specs.Rules.{number_of};

/// A rule of the mailboxes (ETG.1000.4, mailbox with repeat request and acknowledge) that a datagram breaks, in the
/// order in which they are tried; a station whose link isn't open comes before the others.
#[derive(Clone, Copy)]
pub enum Rule {
    /// A1: what is written to mailbox 0 hasn't the length of its area, or is no mail.
    NoMail,
    /// A2: another write than the one that hasn't come back yet, or a new mail whose counter isn't the next.
    OtherMail,
    /// A3: another datagram than the one that the state of the inward half sends.
    OtherAccess,
    /// A4: a working counter above 1, or a read that brought no mail that is due.
    BadReturn,
    /// A5: the station's link isn't open.
    NotOpen,
}

impl Rule {
    /// The rule's number, 1 to 5.
    pub fn number(self) -> u8
        ensures { result ≡ number_of self }
    {
        match self {
            Rule::NoMail => 1,
            Rule::OtherMail => 2,
            Rule::OtherAccess => 3,
            Rule::BadReturn => 4,
            Rule::NotOpen => 5,
        }
    }
}
