use arrayvec::ArrayVec;

/// An Ethernet packet without its checksum: 14 to 1,514 octets.
pub type Packet = ArrayVec<u8, 1514>;

/// An address block: four octets of flags, and the fields whose flags are set.
pub type Block = ArrayVec<u8, 1476>;

/// A part of a packet. `frame` numbers the packet and `number` the part; `offset` is the place of
/// its octets in blocks of 32, or in part 0 how many blocks the packet has. `stamped` says that a
/// time stamp of four octets ends the last part.
#[derive(Drop)]
pub struct Fragment {
    pub last: bool,
    pub stamped: bool,
    pub number: u8,
    pub offset: u8,
    pub frame: u8,
    pub bytes: ArrayVec<u8, 1476>,
}

/// A message of the protocol. The number of an answer is its result: 0 success, 1 unspecified error,
/// 2 unsupported type.
#[derive(Drop)]
pub enum Eoe {
    Fragment(Fragment),
    SetIp(Block),
    SetIpAnswer(u16),
    GetIp,
    GetIpAnswer { result_code: u16, block: Block },
}

/// Why a mail's body is no message: the first cause that applies, in this order.
#[derive(Clone, Copy)]
pub enum EoeFault {
    /// Fewer than 4 octets.
    Short,
    /// A type other than 0, 2, 3, 6 and 7.
    WrongType,
    /// A fragment other than the last whose octets aren't a multiple of 32.
    Offset,
}
