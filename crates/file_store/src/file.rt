use arrayvec::ArrayVec;
use block_pool::ChainId;

/// The FoE error code of a request whose name no file has (ETG.1000.6, "FoE error codes").
pub const NOT_FOUND: u32 = 0x8001;

/// A file's name, of 1 to 32 octets.
pub type Name = ArrayVec<u8, 32>;

/// A file, but for its octets.
#[derive(Clone, Drop)]
pub struct FileSpec {
    pub name: Name,
    /// The password that a request has to give.
    pub pass: u32,
    /// Whether it may be read.
    pub read: bool,
    /// Whether it may be written.
    pub write: bool,
    /// Whether it is a file of Bootstrap, which no other AL state serves; the others aren't served in Bootstrap.
    pub boot: bool,
    /// How often the last packet of a write is answered by busy, 0 to 15.
    pub busy: u8,
}

/// A file and the chain of its octets.
#[derive(Drop)]
pub struct File {
    pub spec: FileSpec,
    pub chain: ChainId,
}

/// A version of a file that isn't committed.
#[derive(Drop)]
pub struct Version {
    pub name: Name,
    pub chain: ChainId,
}
