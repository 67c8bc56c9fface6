/// The most octets that an element has, and the most that a join of fragments keeps.
pub const MOST: usize = 16_384;

/// What a service is about: an IDN of a drive, and the flags of its elements.
#[derive(Clone, Copy)]
pub struct Subject {
    /// The drive, 0 to 7.
    pub drive: u8,
    /// The number of the IDN.
    pub idn: u16,
    /// The element flags.
    pub elements: u8,
}
