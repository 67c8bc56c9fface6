/// A packet of a capture file: its octets are the `len` octets from place `from` of the file. `link` is
/// the link type of its interface, `time` counts nanoseconds, and `original` is how many octets it had.
#[derive(Clone, Copy)]
pub struct PacketAt {
    pub link: u16,
    pub time: u128,
    pub from: usize,
    pub len: usize,
    pub original: u32,
}

/// How a capture file ends. `at` is the place of the packet or block from which on it isn't read.
#[derive(Clone, Copy)]
pub enum FileEnd {
    /// Behind a packet or block.
    Whole,
    /// Fewer octets are left than stand there.
    Cut { at: usize },
    /// What stands there breaks the format.
    Damaged { at: usize },
}
