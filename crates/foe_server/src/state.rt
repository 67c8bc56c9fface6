/// The FoE transfer that is not finished. Packets are numbered from 1.
#[derive(Clone, Copy)]
pub enum State {
    Idle,
    /// Packet `number` was sent, with the octets of the file from `from` on.
    Reading { number: u32, from: u32 },
    /// Packet `number` of a new version was acknowledged.
    Writing { number: u32 },
    /// The last packet of a new version, of this number, was answered by busy so often.
    Closing { number: u32, told: u8 },
}

/// What is still to be told; a mail is made of it when it goes.
#[derive(Clone, Copy)]
pub enum Pending {
    Nothing,
    /// The packet of this number, with the octets of the file from `from` on.
    Packet { number: u32, from: u32 },
    Ack { number: u32 },
    Busy { done: u8, entire: u8 },
    Error { code: u32 },
    Failed { detail: u16 },
}
