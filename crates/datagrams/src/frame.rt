use crate::head::Head;
use arrayvec::ArrayVec;

/// A buffer for one Ethernet frame without its checksum: at most 1,514 octets.
pub type FrameBuf = ArrayVec<u8, 1514>;

/// One datagram of a frame: `at` is the place of its first octet in the frame.
#[derive(Clone, Copy, Default)]
pub struct Part {
    pub at: usize,
    pub head: Head,
}

/// The datagrams of a frame, in the order in which they stand in it. A frame has at most 170.
#[derive(Drop)]
pub struct Frame {
    pub parts: ArrayVec<Part, 170>,
}

/// Why octets are no EtherCAT frame: the first cause that applies, in this order. The two last ones are
/// those of a datagram: either no octet is left for it, or too few are.
#[derive(Clone, Copy)]
pub enum FrameFault {
    /// Fewer than 16 octets.
    Short,
    /// An EtherType other than 0x88A4.
    NotEtherCat,
    /// A type other than 1, datagrams.
    WrongType,
    /// The length word exceeds the octets behind it.
    LengthWord,
    /// Within the length fewer octets are left at this place of the frame than the datagram has, but
    /// at least one. It is also the fault of a frame without a datagram.
    DatagramCut { at: usize },
    /// A datagram says "more" and no octet is left within the length.
    MoreButEnd,
}
