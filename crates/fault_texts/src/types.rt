/// A data type of an entry.
#[derive(Clone, Copy)]
pub struct DataType {
    /// Its number, by which a scenario has it.
    pub number: i64,
    pub name: &'static str,
    /// Its octets; 0 of texts and octets, whose entries have sizes of their own.
    pub size: u64,
    pub is_signed: bool,
}

/// The data types that entries may have (ETG.1000.6, section 5.6.7.3).
const TYPES: &[DataType] = &[
    DataType {
        number: 1,
        name: "BOOLEAN",
        size: 1,
        is_signed: false,
    },
    DataType {
        number: 2,
        name: "INTEGER8",
        size: 1,
        is_signed: true,
    },
    DataType {
        number: 3,
        name: "INTEGER16",
        size: 2,
        is_signed: true,
    },
    DataType {
        number: 4,
        name: "INTEGER32",
        size: 4,
        is_signed: true,
    },
    DataType {
        number: 5,
        name: "UNSIGNED8",
        size: 1,
        is_signed: false,
    },
    DataType {
        number: 6,
        name: "UNSIGNED16",
        size: 2,
        is_signed: false,
    },
    DataType {
        number: 7,
        name: "UNSIGNED32",
        size: 4,
        is_signed: false,
    },
    DataType {
        number: 9,
        name: "VISIBLE_STRING",
        size: 0,
        is_signed: false,
    },
    DataType {
        number: 10,
        name: "OCTET_STRING",
        size: 0,
        is_signed: false,
    },
    DataType {
        number: 21,
        name: "INTEGER64",
        size: 8,
        is_signed: true,
    },
    DataType {
        number: 27,
        name: "UNSIGNED64",
        size: 8,
        is_signed: false,
    },
];

/// The data type of a number.
pub fn type_of(number: i64) -> Option<&'static DataType> {
    TYPES.iter().find(|data| data.number == number)
}

/// The data type of a name, in capital or small letters.
pub fn type_named(name: &str) -> Option<&'static DataType> {
    TYPES
        .iter()
        .find(|data| data.name.eq_ignore_ascii_case(name))
}
