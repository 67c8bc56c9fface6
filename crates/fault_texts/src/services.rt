use crate::actions::ACTIONS;
use crate::shape::{Need, Row, Shape};

/// The keys of all services.
pub(crate) const SERVICE: &[Row] = &[
    Row {
        key: "slave",
        need: Need::Always,
        shape: Shape::Reference,
        wanted: "the name of a slave of the file",
        why: "the service is asked of this slave",
    },
    Row {
        key: "do",
        need: Need::Always,
        shape: Shape::Word(ACTIONS),
        wanted: "download, upload, download_all, upload_all, list, object, entry, read_file, write_file, read_idn, write_idn, set_ip, get_ip or state",
        why: "",
    },
    Row {
        key: "index",
        need: Need::Always,
        shape: Shape::Number {
            low: 0,
            high: 0xFFFF,
        },
        wanted: "a number from 0 to 65535",
        why: "",
    },
    Row {
        key: "sub",
        need: Need::Always,
        shape: Shape::Number { low: 0, high: 255 },
        wanted: "a number from 0 to 255",
        why: "",
    },
    Row {
        key: "from",
        need: Need::Always,
        shape: Shape::Number { low: 0, high: 255 },
        wanted: "a number from 0 to 255",
        why: "the first subindex, 0 or 1",
    },
    Row {
        key: "kind",
        need: Need::Always,
        shape: Shape::Number {
            low: 0,
            high: 0xFFFF,
        },
        wanted: "a number from 0 to 65535",
        why: "0 counts, 1 all objects, 2 to 5 the lists of access bits 6 to 9",
    },
    Row {
        key: "name",
        need: Need::Always,
        shape: Shape::Name,
        wanted: "a text of 1 to 32 characters, none of them a space or beyond ASCII",
        why: "",
    },
    Row {
        key: "password",
        need: Need::Optional,
        shape: Shape::Number {
            low: 0,
            high: 0xFFFF_FFFF,
        },
        wanted: "a number from 0 to 4294967295",
        why: "",
    },
    Row {
        key: "drive",
        need: Need::Optional,
        shape: Shape::Number { low: 0, high: 7 },
        wanted: "a number from 0 to 7",
        why: "",
    },
    Row {
        key: "number",
        need: Need::Always,
        shape: Shape::Number {
            low: 0,
            high: 0xFFFF,
        },
        wanted: "a number from 0 to 65535",
        why: "",
    },
    Row {
        key: "elements",
        need: Need::Always,
        shape: Shape::Number { low: 0, high: 255 },
        wanted: "a number from 0 to 255",
        why: "1 state, 2 name, 4 attribute, 8 unit, 16 minimum, 32 maximum, 64 value",
    },
    Row {
        key: "value",
        need: Need::Always,
        shape: Shape::Octets {
            least: 0,
            most: 131_072,
        },
        wanted: "hexadecimal digits",
        why: "what is written, the lowest octet ahead",
    },
    Row {
        key: "block",
        need: Need::Always,
        shape: Shape::Octets {
            least: 4,
            most: 1476,
        },
        wanted: "the hexadecimal digits of an address block that fits both mailboxes less 10 octets",
        why: "flags 01, 03, 07, 0f, 1f or 3f, 000000, then MAC 6, IP 4, mask 4, gateway 4, DNS 4, name 32 octets, as many as the flags have bits",
    },
    Row {
        key: "target",
        need: Need::Always,
        shape: Shape::Number { low: 1, high: 8 },
        wanted: "1 Init, 2 PreOp, 4 SafeOp, 8 Op, or with boot = true also 3 Bootstrap",
        why: "",
    },
];

/// The keys of a packet of the host.
pub(crate) const HOST: &[Row] = &[Row {
    key: "packet",
    need: Need::Always,
    shape: Shape::Octets {
        least: 14,
        most: 1514,
    },
    wanted: "hexadecimal digits of 14 to 1514 octets",
    why: "destination 6, source 6, EtherType 2, then the rest",
}];
