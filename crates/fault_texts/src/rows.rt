use crate::shape::{Need, Row, Shape};

/// The words of `serves`.
const PROTOCOLS: &[&str] = &["coe", "foe", "eoe", "soe"];

/// The keys of the top, in the order in which they are read.
pub(crate) const TOP: &[Row] = &[
    Row {
        key: "version",
        need: Need::Always,
        shape: Shape::Number { low: 1, high: 2 },
        wanted: "1 or 2",
        why: "the version says which keys the file may have; 2 has `pace`",
    },
    Row {
        key: "retry",
        need: Need::Always,
        shape: Shape::Number { low: 0, high: 15 },
        wanted: "a number from 0 to 15",
        why: "so many lost frames in a row a slave outlives",
    },
    Row {
        key: "recover",
        need: Need::Optional,
        shape: Shape::Number { low: 0, high: 15 },
        wanted: "a number from 0 to 15",
        why: "so often a slave that was given up is taken up again",
    },
    Row {
        key: "budget",
        need: Need::Optional,
        shape: Shape::Number {
            low: 1,
            high: 100_000_000,
        },
        wanted: "a number from 1 to 100000000",
        why: "so many frames are sent at most",
    },
    Row {
        key: "lose",
        need: Need::Optional,
        shape: Shape::Losses,
        wanted: "a list of at most 4096 pairs [frame, after] of numbers from 0 to 4294967295",
        why: "the frame of that number, from 0, is lost behind so many slaves",
    },
    Row {
        key: "slave",
        need: Need::Always,
        shape: Shape::Tables { most: 16 },
        wanted: "1 to 16 tables [[slave]]",
        why: "the slaves of the segment in ring order",
    },
    Row {
        key: "service",
        need: Need::Optional,
        shape: Shape::Tables { most: 4096 },
        wanted: "at most 4096 tables [[service]]",
        why: "what the master asks, slave by slave in the order of the file",
    },
    Row {
        key: "host",
        need: Need::Optional,
        shape: Shape::Tables { most: 4096 },
        wanted: "at most 4096 tables [[host]]",
        why: "",
    },
];

/// The keys of a slave.
pub(crate) const SLAVE: &[Row] = &[
    Row {
        key: "name",
        need: Need::Always,
        shape: Shape::Name,
        wanted: "a text of 1 to 32 characters, none of them a space or beyond ASCII",
        why: "services name their slave by it",
    },
    Row {
        key: "station",
        need: Need::Always,
        shape: Shape::Number {
            low: 1,
            high: 0xFFFF,
        },
        wanted: "a number from 1 to 65535",
        why: "the slave's address on the segment",
    },
    Row {
        key: "pace",
        need: Need::Optional,
        shape: Shape::Number { low: 1, high: 16 },
        wanted: "a number from 1 to 16",
        why: "the slave's processor makes a step behind every so many frames",
    },
    Row {
        key: "mail",
        need: Need::Always,
        shape: Shape::Pair {
            low: 64,
            high: 1486,
        },
        wanted: "two numbers [out, in], each from 64 to 1486",
        why: "the lengths of the two mailboxes: to the slave, from the slave",
    },
    Row {
        key: "serves",
        need: Need::Always,
        shape: Shape::Words(PROTOCOLS),
        wanted: "a list of \"coe\", \"foe\", \"eoe\", \"soe\", each at most once",
        why: "the protocols that the slave's mailboxes have",
    },
    Row {
        key: "boot",
        need: Need::Optional,
        shape: Shape::Truth,
        wanted: "true or false",
        why: "whether the slave has the state Bootstrap",
    },
    Row {
        key: "start",
        need: Need::Optional,
        shape: Shape::Word(&["preop", "boot"]),
        wanted: "\"preop\", or with boot = true also \"boot\"",
        why: "the state in which the slave is brought up",
    },
    Row {
        key: "blocks",
        need: Need::Optional,
        shape: Shape::Number { low: 1, high: 1024 },
        wanted: "a number from 1 to 1024",
        why: "the blocks of 128 octets that the slave's files share",
    },
    Row {
        key: "mac",
        need: Need::OfEoe,
        shape: Shape::Octets { least: 6, most: 6 },
        wanted: "12 hexadecimal digits, the first octet even",
        why: "the address of a slave with eoe; a slave without eoe has none",
    },
    Row {
        key: "fixed_ip",
        need: Need::Optional,
        shape: Shape::Truth,
        wanted: "true or false",
        why: "whether the slave's IP address can't be set",
    },
    Row {
        key: "object",
        need: Need::Optional,
        shape: Shape::Tables { most: 256 },
        wanted: "at most 256 tables [[slave.object]]",
        why: "",
    },
    Row {
        key: "file",
        need: Need::Optional,
        shape: Shape::Tables { most: 32 },
        wanted: "at most 32 tables [[slave.file]]",
        why: "",
    },
    Row {
        key: "idn",
        need: Need::Optional,
        shape: Shape::Tables { most: 256 },
        wanted: "at most 256 tables [[slave.idn]]",
        why: "",
    },
];

/// The keys of an object.
pub(crate) const OBJECT: &[Row] = &[
    Row {
        key: "index",
        need: Need::Always,
        shape: Shape::Number {
            low: 1,
            high: 0xFFFF,
        },
        wanted: "a number from 1 to 65535, above that of the object before, and not 0x2F00 or 0x2F01",
        why: "objects stand in the order of their indexes; 0x2F00 and 0x2F01 are the slave's own",
    },
    Row {
        key: "kind",
        need: Need::Always,
        shape: Shape::Word(&["variable", "array", "record"]),
        wanted: "\"variable\", \"array\" or \"record\"",
        why: "a variable has one entry, at subindex 0; arrays and records have them from 1",
    },
    Row {
        key: "name",
        need: Need::Optional,
        shape: Shape::Label,
        wanted: "a text of at most 40 ASCII characters",
        why: "it is read by the service object",
    },
    Row {
        key: "entry",
        need: Need::Always,
        shape: Shape::Tables { most: 254 },
        wanted: "1 to 254 tables [[slave.object.entry]], one for a variable, of 16000 octets together at most",
        why: "",
    },
];

/// The keys of an entry.
pub(crate) const ENTRY: &[Row] = &[
    Row {
        key: "type",
        need: Need::Always,
        shape: Shape::Number {
            low: 0,
            high: 0xFFFF,
        },
        wanted: "1 BOOLEAN, 2 INTEGER8, 3 INTEGER16, 4 INTEGER32, 5 UNSIGNED8, 6 UNSIGNED16, 7 UNSIGNED32, 9 VISIBLE_STRING, 10 OCTET_STRING, 21 INTEGER64 or 27 UNSIGNED64",
        why: "the data type by its number; all entries of an array have one",
    },
    Row {
        key: "access",
        need: Need::Always,
        shape: Shape::Number { low: 0, high: 1023 },
        wanted: "a number from 0 to 1023",
        why: "the sum of 1, 2, 4 to read in PreOp, SafeOp, Op and 8, 16, 32 to write there: 63 is all, 7 is to read",
    },
    Row {
        key: "size",
        need: Need::OfTexts,
        shape: Shape::Sizes { most: 8000 },
        wanted: "two numbers [least, most] from 1 to 8000, the first not above the second",
        why: "texts and octets (types 9 and 10) have it, numbers don't: their size is their type's",
    },
    Row {
        key: "min",
        need: Need::Optional,
        shape: Shape::Bound,
        wanted: "a whole number, not above max",
        why: "the least value; types 9 and 10 have none",
    },
    Row {
        key: "max",
        need: Need::Optional,
        shape: Shape::Bound,
        wanted: "a whole number, not below min",
        why: "the greatest value; types 9 and 10 have none",
    },
    Row {
        key: "name",
        need: Need::Optional,
        shape: Shape::Label,
        wanted: "a text of at most 40 ASCII characters",
        why: "it is read by the service entry",
    },
    Row {
        key: "value",
        need: Need::Always,
        shape: Shape::Octets {
            least: 0,
            most: 8000,
        },
        wanted: "hexadecimal digits, as many octets as the type or size says, within min and max",
        why: "the value at first, the lowest octet ahead",
    },
];

/// The keys of a file.
pub(crate) const FILE: &[Row] = &[
    Row {
        key: "name",
        need: Need::Always,
        shape: Shape::Name,
        wanted: "a text of 1 to 32 characters, none of them a space or beyond ASCII; once per slave",
        why: "services name the file by it",
    },
    Row {
        key: "password",
        need: Need::Optional,
        shape: Shape::Number {
            low: 0,
            high: 0xFFFF_FFFF,
        },
        wanted: "a number from 0 to 4294967295",
        why: "a service must bring the same",
    },
    Row {
        key: "rights",
        need: Need::Always,
        shape: Shape::Word(&["r", "w", "rw"]),
        wanted: "\"r\", \"w\" or \"rw\"",
        why: "whether the file can be read and written",
    },
    Row {
        key: "boot",
        need: Need::Optional,
        shape: Shape::Truth,
        wanted: "true or false",
        why: "whether the file is reached in Bootstrap alone",
    },
    Row {
        key: "busy",
        need: Need::Optional,
        shape: Shape::Number { low: 0, high: 15 },
        wanted: "a number from 0 to 15",
        why: "so often the last packet of a write is answered by busy",
    },
    Row {
        key: "value",
        need: Need::Always,
        shape: Shape::Octets {
            least: 0,
            most: 131_072,
        },
        wanted: "hexadecimal digits of at most 131072 octets; all files fit the slave's blocks",
        why: "",
    },
];

/// The keys of an IDN.
pub(crate) const IDN: &[Row] = &[
    Row {
        key: "number",
        need: Need::Always,
        shape: Shape::Number {
            low: 0,
            high: 0xFFFF,
        },
        wanted: "a number from 0 to 65535",
        why: "each pair of drive and number once",
    },
    Row {
        key: "drive",
        need: Need::Always,
        shape: Shape::Number { low: 0, high: 7 },
        wanted: "a number from 0 to 7",
        why: "",
    },
    Row {
        key: "attribute",
        need: Need::Optional,
        shape: Shape::Number {
            low: 0,
            high: 0xFFFF_FFFF,
        },
        wanted: "a number from 0 to 4294967295",
        why: "it is read by elements = 4",
    },
    Row {
        key: "label",
        need: Need::Optional,
        shape: Shape::Label,
        wanted: "a text of at most 40 ASCII characters",
        why: "the name, read by elements = 2",
    },
    Row {
        key: "unit",
        need: Need::Optional,
        shape: Shape::Label,
        wanted: "a text of at most 40 ASCII characters",
        why: "read by elements = 8",
    },
    Row {
        key: "size",
        need: Need::Always,
        shape: Shape::Sizes { most: 4096 },
        wanted: "two numbers [least, most] from 1 to 4096, the first not above the second",
        why: "the octets of the value",
    },
    Row {
        key: "min",
        need: Need::Optional,
        shape: Shape::Bound,
        wanted: "a number from 0, not above max, of as many octets as the value",
        why: "only where both sizes are one number up to 8",
    },
    Row {
        key: "max",
        need: Need::Optional,
        shape: Shape::Bound,
        wanted: "a number from 0, not below min, of as many octets as the value",
        why: "only where both sizes are one number up to 8",
    },
    Row {
        key: "writable",
        need: Need::Optional,
        shape: Shape::Truth,
        wanted: "true or false",
        why: "whether the value can be written",
    },
    Row {
        key: "value",
        need: Need::Always,
        shape: Shape::Octets {
            least: 0,
            most: 4096,
        },
        wanted: "hexadecimal digits, as many octets as size says, within min and max",
        why: "the value at first, the lowest octet ahead",
    },
];
