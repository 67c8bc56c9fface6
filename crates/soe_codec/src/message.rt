use arrayvec::ArrayVec;

/// The opcode of a request for an element.
pub const READ: u8 = 1;

/// The opcode of its answer.
pub const READ_ANSWER: u8 = 2;

/// The opcode of a request that writes an element.
pub const WRITE: u8 = 3;

/// The opcode of its answer.
pub const WRITE_ANSWER: u8 = 4;

/// A message of the protocol, or a fragment of one (ETG.1000.6, "SoE header").
#[derive(Drop)]
pub struct Soe {
    /// 1 read, 2 its answer, 3 write, 4 its answer.
    pub opcode: u8,
    /// Whether further fragments follow; only a read answer and a write have fragments.
    pub incomplete: bool,
    /// Whether an answer is a refusal; its octets are then the error code.
    pub error: bool,
    /// The drive, 0 to 7.
    pub drive: u8,
    /// The element flags, bits 0 to 6: state, name, attribute, unit, minimum, maximum, value.
    pub elements: u8,
    /// The IDN, or of an incomplete fragment how many follow.
    pub field: u16,
    /// The octets of the element.
    pub bytes: ArrayVec<u8, 1476>,
}

/// Why a mail's body is no message: the first cause that applies, in this order.
#[derive(Clone, Copy)]
pub enum SoeFault {
    /// Fewer than 4 octets.
    Short,
    /// An opcode other than 1 to 4.
    Opcode,
    /// The incomplete bit in opcode 1 or 4.
    Incomplete,
}
