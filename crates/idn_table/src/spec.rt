use ec_fields::Octets;

/// An IDN of a drive as it is described: its elements, and what bounds its value. Integers are unsigned, the lowest octet first.
#[derive(Drop)]
pub struct IdnSpec {
    /// The drive, 0 to 7.
    pub drive: u8,
    /// The number, 0 to 65,535.
    pub number: u16,
    /// The attribute, 4 octets.
    pub attribute: u32,
    /// The name, of at most 40 octets, if there is one.
    pub label: Option<Octets>,
    /// The unit, of at most 40 octets, if there is one.
    pub unit: Option<Octets>,
    /// The fewest octets that the value has, 1 or more.
    pub least: u32,
    /// The most octets that the value has, at most 4,096.
    pub most: u32,
    /// The minimum, only where the value is an integer of one size up to 8 octets.
    pub min: Option<u64>,
    /// The maximum, only where the value is an integer of one size up to 8 octets.
    pub max: Option<u64>,
    /// Whether the value may be written.
    pub writable: bool,
    /// The value.
    pub value: Octets,
}
