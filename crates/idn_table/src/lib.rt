//! The IDNs of a slave with their elements, as a servo drive has them (ETG.1000.6, "SoE"; IEC 61800-7, "IDN"): each element is read or written
//! whole, or refused by its SoE error code.
#![tactic(auto)]

mod codes;
mod element;
mod idn;
mod law;
mod spec;
mod table;

pub use codes::{
    ATTRIBUTE_READ_ONLY, MAXIMUM_READ_ONLY, MINIMUM_READ_ONLY, NAME_READ_ONLY, NO_ELEMENT, NO_IDN,
    NO_MAXIMUM, NO_MINIMUM, NO_NAME, NO_UNIT, UNIT_READ_ONLY, VALUE_READ_ONLY, VALUE_TOO_LARGE,
    VALUE_TOO_LONG, VALUE_TOO_SHORT, VALUE_TOO_SMALL,
};
pub use law::idns_are_lawful;
pub use spec::IdnSpec;
pub use table::IdnTable;
