//! The keys of a scenario's tables with what is wanted of their values and why, and the texts of values that are found.
#![tactic(auto)]

mod actions;
mod characters;
mod kinds;
mod rows;
mod services;
mod shape;
mod types;
mod values;

pub use actions::{ACTIONS, keys_of, octets_of};
pub use characters::{add_quoted, character, quoted};
pub use kinds::rows_of;
pub use shape::{Kind, Need, Row, Shape};
pub use types::{DataType, type_named, type_of};
pub use values::{found, plain};
