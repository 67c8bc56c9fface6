use crate::dictionary::Target;

/// The SDO transfer that is not finished.
#[derive(Clone, Copy)]
pub enum State {
    Idle,
    /// The octets that came lie in the value.
    Downloading {
        target: Target,
        size: u32,
        toggle: bool,
    },
    /// The octets from here on are still to go.
    Uploading {
        target: Target,
        from: u32,
        toggle: bool,
    },
}

/// What is still to be told; a mail is made of it when it goes.
#[derive(Clone, Copy)]
pub enum Pending {
    Nothing,
    DownloadAnswer { target: Target },
    SegmentAnswer { toggle: bool },
    Abort { target: Target, code: u32 },
    Error { code: u32 },
    Failed { detail: u16 },
    /// The whole value, of 1 to 4 octets.
    Whole { target: Target },
    /// The first octets of the value, with its size.
    First { target: Target, upto: u32 },
    /// As many octets of the value from here on as a segment has.
    Part { from: u32, toggle: bool },
    /// All octets of the value from here on.
    Last { from: u32, toggle: bool },
    /// The parts of an information answer from here on.
    Parts { opcode: u8, from: u32 },
}

/// What a mail made the slave send of itself.
#[derive(Clone, Copy)]
pub enum Emitted {
    Nothing,
    Emergency,
    Packet,
}
