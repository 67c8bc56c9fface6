use soe_parts::Subject;

/// What the fragments of one message have in common.
#[derive(Clone, Copy)]
pub struct Common {
    pub opcode: u8,
    pub drive: u8,
    pub elements: u8,
}

/// What a server has still to tell; a mail is made of it when it goes.
#[derive(Clone, Copy)]
pub enum Pending {
    Nothing,
    /// The answer to a write.
    Written {
        subject: Subject,
    },
    /// An error answer of this opcode.
    Refused {
        opcode: u8,
        subject: Subject,
        code: u16,
    },
    /// A mailbox error.
    Failed {
        detail: u16,
    },
    /// The octets of an element from here on.
    Parts {
        subject: Subject,
        from: u32,
    },
}
