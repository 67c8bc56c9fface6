use mailbox_mail::ReplyKind;

/// What is asked of the slave.
#[derive(Clone, Copy)]
pub enum Task {
    Nothing,
    Download { index: u16, sub: u8, all: bool },
    Upload { index: u16, sub: u8, all: bool },
    List { kind: u16 },
    Object { index: u16 },
    Entry { index: u16, sub: u8, info: u8 },
}

/// What of the service's mails is not yet sent.
#[derive(Clone, Copy)]
pub enum Unsent {
    Nothing,
    /// All of them.
    First,
    /// The segments of a download from this octet on.
    Segments { from: u32, toggle: bool },
    /// Requests for the segments of an upload.
    Requests { toggle: bool },
}

/// What answer comes next.
#[derive(Clone, Copy)]
pub enum Awaits {
    Nothing,
    /// The answer to an initiate download.
    Acceptance,
    /// So many segment answers, one or more.
    SegmentAnswers { left: u32, toggle: bool },
    /// The answer to an initiate upload.
    FirstAnswer,
    /// The parts of a value of this size, behind those that came.
    Parts { size: u32, toggle: bool },
    /// The parts of an information answer of this opcode, behind those that came.
    Information { opcode: u8 },
    /// None: the service is over.
    Over(ReplyKind),
}
