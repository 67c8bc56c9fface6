use ec_fields::Rows;

/// The time of a packet: seconds, and a part of a second in micro- or nanoseconds.
#[derive(Clone, Copy)]
pub struct Stamp {
    pub seconds: u32,
    pub part: u32,
}

/// A packet of a capture: its octets are the `len` octets from place `from` of the file, and it had
/// `original` octets before it was cut.
#[derive(Clone, Copy)]
pub struct PacketAt {
    pub stamp: Stamp,
    pub from: usize,
    pub len: usize,
    pub original: u32,
}

/// The packets of a capture in the order of the file, and whether their parts are nanoseconds.
#[derive(Drop)]
pub struct Capture {
    pub nanos: bool,
    pub packets: Rows<PacketAt>,
}

/// Why octets are no capture: the first cause that applies, in this order. The two of a packet are judged
/// by what is left for its header, then by its length, then by what is left for its octets. `at` is the
/// file's length, or the place of a packet's header.
#[derive(Clone, Copy)]
pub enum PcapFault {
    /// Fewer than 24 octets.
    Short { at: usize },
    /// No magic number of the format, in either byte order.
    Magic,
    /// A version other than 2.4.
    Version,
    /// A link type other than 1, Ethernet.
    LinkType,
    /// Fewer octets are left than the packet's header has, or than a packet of at most 262,144 octets.
    RecordCut { at: usize },
    /// The packet says that it has more than 262,144 octets.
    RecordTooLong { at: usize },
    /// Want of memory.
    NoMemory,
}
