use arrayvec::ArrayVec;

/// A CoE message. `index` and `sub` name an entry of the object dictionary, `all` is complete
/// access, and a toggle alternates from `false` over the segments of one transfer.
#[derive(Drop)]
pub enum Coe {
    /// An emergency: error code, error register and five octets of the manufacturer's.
    Emergency {
        octets: ArrayVec<u8, 8>,
    },
    /// Initiate download with all 1 to 4 octets of the value.
    Expedited {
        index: u16,
        sub: u8,
        all: bool,
        bytes: ArrayVec<u8, 4>,
    },
    /// Initiate download with the complete size and the value's first part.
    First {
        index: u16,
        sub: u8,
        all: bool,
        size: u32,
        bytes: ArrayVec<u8, 1470>,
    },
    /// Initiate upload.
    Upload {
        index: u16,
        sub: u8,
        all: bool,
    },
    /// The answer to an initiate download.
    DownloadAnswer {
        index: u16,
        sub: u8,
    },
    /// The answer to an initiate upload with all 1 to 4 octets of the value.
    ExpeditedAnswer {
        index: u16,
        sub: u8,
        bytes: ArrayVec<u8, 4>,
    },
    /// The answer to an initiate upload with the complete size and the value's first part.
    FirstAnswer {
        index: u16,
        sub: u8,
        size: u32,
        bytes: ArrayVec<u8, 1470>,
    },
    /// A download segment of 1 octet or more.
    Segment {
        toggle: bool,
        last: bool,
        bytes: ArrayVec<u8, 1477>,
    },
    /// The answer to a download segment.
    SegmentAnswer {
        toggle: bool,
    },
    /// The request for an upload segment.
    UploadSegment {
        toggle: bool,
    },
    /// An upload segment of 1 octet or more.
    UploadSegmentAnswer {
        toggle: bool,
        last: bool,
        bytes: ArrayVec<u8, 1477>,
    },
    /// An abort with its code (CiA 301, "SDO abort codes").
    Abort {
        index: u16,
        sub: u8,
        code: u32,
    },
    /// Get OD list, opcode 1.
    ListRequest {
        kind: u16,
    },
    /// Get object description, opcode 3.
    ObjectRequest {
        index: u16,
    },
    /// Get entry description, opcode 5, with the value info asked for.
    EntryRequest {
        index: u16,
        sub: u8,
        info: u8,
    },
    /// A part of an information answer, opcode 2, 4 or 6: whether more parts follow, how many, and
    /// the octets.
    Information {
        opcode: u8,
        incomplete: bool,
        left: u16,
        bytes: ArrayVec<u8, 1474>,
    },
    /// An information error, opcode 7, with an abort code.
    InformationError {
        code: u32,
    },
}

/// Why a body is no CoE message, in the order in which the parts are looked at.
#[derive(Clone, Copy)]
pub enum CoeFault {
    /// Fewer than 2 octets, than 10 of SDO and emergency, or than 6 of information.
    Short,
    /// A service other than emergency, SDO request, SDO response and SDO information.
    Service,
    /// A command or opcode that the service doesn't have, or one too short for its fields.
    Command,
    /// A first part longer than the complete size, a segment of more than 7 octets with an unused
    /// count, or an unused count of 7.
    Size,
}
