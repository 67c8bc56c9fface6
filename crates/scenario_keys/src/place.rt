/// The table of a scenario at which a refusal stands; all numbers count from 0.
#[derive(Clone, Copy)]
pub enum Place {
    /// The top of the file.
    Top,
    /// A slave.
    Slave(u32),
    /// An object of a slave.
    Object(u32, u32),
    /// An entry of an object of a slave.
    Entry(u32, u32, u32),
    /// A file of a slave.
    File(u32, u32),
    /// An IDN of a slave.
    Idn(u32, u32),
    /// A service.
    Service(u32),
    /// A host packet.
    Host(u32),
}
