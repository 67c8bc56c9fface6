use ec_fields::Octets;

/// A CoE service that a client asks of a slave's object dictionary (ETG.1000.6, sections 5.6.2 and
/// 5.6.3).
#[derive(Drop)]
pub enum SdoService {
    /// Writes an entry: 1 to 8,000 octets.
    Download { index: u16, sub: u8, bytes: Octets },
    /// Reads an entry.
    Upload { index: u16, sub: u8 },
    /// Writes all entries of an object from subindex `from` on, by complete access: 1 to 16,000
    /// octets.
    DownloadAll { index: u16, from: u8, bytes: Octets },
    /// Reads all entries of an object from subindex `from` on, by complete access.
    UploadAll { index: u16, from: u8 },
    /// Asks for a list of objects: kind 0 for the lengths of the lists, 1 to 5 for one of them.
    List { kind: u16 },
    /// Asks for the description of an object.
    ObjectInfo { index: u16 },
    /// Asks for the description of an entry; `info` says which of its values are wanted.
    EntryInfo { index: u16, sub: u8, info: u8 },
}
