use datagrams::register::{
    AL_CONTROL, AL_STATUS, IN_AREA, MANAGER_0, MANAGER_1, MANAGER_ACTIVATE, MANAGER_PDI_CONTROL,
    MANAGER_STATUS, OUT_AREA,
};
use datagrams::{Command, Head, Part};

/// Where a slave is meant: by its station, or by its place in the ring, as ADP has that where no slave was passed.
#[derive(Clone, Copy)]
pub struct Spot {
    pub station: u16,
    pub adp: u16,
}

/// What a datagram asks of the slave that it is for, with what stands in it.
#[derive(Clone, Copy, PartialEq, Eq)]
pub enum Access {
    /// The write of mailbox 0.
    WriteMail,
    /// The read of mailbox 1, with the counter of the mail in it.
    ReadMail { mail: u8 },
    /// The write of the repeat request.
    WriteRequest { bit: bool },
    /// The read of its acknowledge.
    ReadAcknowledge { bit: bool },
    /// The read of the status of mailbox 0.
    ReadFull { full: bool },
    /// The write of AL control.
    SetControl { word: u16 },
    /// The read of AL status.
    ReadState { status: u16 },
    /// Any other.
    Other,
}

/// A datagram for a slave, as it was sent or came back.
#[derive(Clone, Copy)]
pub struct Gram {
    pub access: Access,
    /// Whether it means the slave by its place.
    pub by_place: bool,
    /// How many slaves met it.
    pub counter: u16,
}

impl Gram {
    /// Whether a slave met it.
    pub fn is_met(&self) -> bool {
        self.counter != 0
    }

    /// Whether one slave met it and shows this state, without the error flag.
    pub fn shows(&self, state: u16) -> bool {
        self.counter == 1 && self.access == Access::ReadState { status: state }
    }

    /// Whether it returns a slave to Init: only there AL control is written by place.
    pub fn returns_to_init(&self) -> bool {
        self.by_place && matches!(self.access, Access::SetControl { .. })
    }
}

/// A frame that reads: its octets and its datagrams.
#[derive(Clone, Copy)]
pub struct FrameView<'a> {
    pub octets: &'a [u8],
    pub parts: &'a [Part],
}

// The octet at a place, 0 behind the end.
fn octet(octets: &[u8], at: usize) -> u8 {
    match octets.get(at) {
        Some(octet) => *octet,
        None => 0,
    }
}

fn bit(octet: u8, mask: u8) -> bool {
    octet & mask != 0
}

// The number in the two octets from a place.
fn word(octets: &[u8], at: usize) -> u16 {
    u16::from_le_bytes([octet(octets, at), octet(octets, at.saturating_add(1))])
}

// What is written at a register, with the octets from a place of the frame.
fn written(ado: u16, octets: &[u8], at: usize) -> Access {
    if ado == OUT_AREA {
        Access::WriteMail
    } else if ado == MANAGER_1 + MANAGER_ACTIVATE {
        Access::WriteRequest {
            bit: bit(octet(octets, at), 2),
        }
    } else if ado == AL_CONTROL {
        Access::SetControl {
            word: word(octets, at),
        }
    } else {
        Access::Other
    }
}

// What is read.
fn found(ado: u16, octets: &[u8], at: usize) -> Access {
    if ado == IN_AREA {
        Access::ReadMail {
            mail: octet(octets, at.saturating_add(5)) / 16 % 8,
        }
    } else if ado == MANAGER_1 + MANAGER_PDI_CONTROL {
        Access::ReadAcknowledge {
            bit: bit(octet(octets, at), 2),
        }
    } else if ado == MANAGER_0 + MANAGER_STATUS {
        Access::ReadFull {
            full: bit(octet(octets, at), 8),
        }
    } else if ado == AL_STATUS {
        Access::ReadState {
            status: word(octets, at),
        }
    } else {
        Access::Other
    }
}

// Whether a datagram that is sent is for the slave.
fn is_for(head: &Head, spot: &Spot) -> bool {
    match head.command {
        Command::Fprd | Command::Fpwr => head.adp == spot.station,
        Command::Aprd | Command::Apwr => head.adp == spot.adp,
        _ => false,
    }
}

fn gram_of(octets: &[u8], part: &Part) -> Gram {
    let head = &part.head;
    let at = part.at.saturating_add(10);
    Gram {
        access: match head.command {
            Command::Fpwr | Command::Apwr => written(head.ado, octets, at),
            Command::Fprd | Command::Aprd => found(head.ado, octets, at),
            _ => Access::Other,
        },
        by_place: matches!(head.command, Command::Aprd | Command::Apwr),
        counter: head.counter,
    }
}

impl FrameView<'_> {
    /// Where among the datagrams of a frame that is sent the slave's stands.
    pub fn find(&self, spot: &Spot) -> Option<usize> {
        for (at, part) in self.parts.iter().enumerate() {
            if is_for(&part.head, spot) {
                return Some(at);
            }
        }
        None
    }

    /// The datagram at a place.
    pub fn gram(&self, at: usize) -> Option<Gram> {
        match self.parts.get(at) {
            Some(part) => Some(gram_of(self.octets, part)),
            None => None,
        }
    }
}
