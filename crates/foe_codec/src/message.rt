use arrayvec::ArrayVec;

/// A file's name: 1 to 32 octets.
pub type Name = ArrayVec<u8, 32>;

/// A message of the protocol (ETG.1000.6, "File access over EtherCAT"). Packets are numbered from 1;
/// an acknowledgement of packet 0 answers a write request.
#[derive(Drop)]
pub enum Foe {
    /// Opcode 1: asks for a file.
    Read {
        pass: u32,
        name: Name,
    },
    /// Opcode 2: asks to write a file.
    Write {
        pass: u32,
        name: Name,
    },
    /// Opcode 3: a packet of a file's octets.
    Data {
        packet: u32,
        bytes: ArrayVec<u8, 1474>,
    },
    /// Opcode 4: acknowledges a packet.
    Ack {
        packet: u32,
    },
    /// Opcode 5: refuses, with an FoE error code; the text behind it is ignored.
    Error {
        code: u32,
    },
    /// Opcode 6: asks for the last packet again, with how much of the work is done; the text behind
    /// it is ignored.
    Busy {
        done: u16,
        entire: u16,
    },
}

/// Why a mail's body is no message: the first cause that applies, in this order.
#[derive(Clone, Copy)]
pub enum FoeFault {
    /// Fewer than 6 octets.
    Short,
    /// An opcode other than 1 to 6.
    Opcode,
    /// A name that is empty or has more than 32 octets.
    Name,
}
