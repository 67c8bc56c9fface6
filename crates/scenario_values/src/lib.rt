//! The values of a scenario: octets, lists of tables, the objects of a dictionary with their entries and the bounds of IDNs, each read in the
//! order of its rules, or refused.
#![tactic(auto)]

mod dictionary;
mod digits;
mod entries;
mod idn_bounds;
mod octets;
mod tables;

pub use dictionary::objects;
pub use idn_bounds::{Bounds, bounded_value, bounds};
pub use octets::{needed_buffer, needed_in_place, needed_octets, no_octets};
pub use tables::{needed_tables, tables_or_none};
