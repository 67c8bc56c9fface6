//! The values of a slave as people read them: by the types that its plan gives to entries and IDNs, else as octets.
#![tactic(auto)]

mod blocks;
mod idns;
mod infos;
mod lists;
mod names;
mod texts;
mod types;
mod values;
mod whole;

pub use blocks::{add_block, add_mac};
pub use idns::{add_element, add_idn_value};
pub use infos::{add_entry_info, add_object_info};
pub use lists::add_list;
pub use names::{add_names, add_object_name, kind_at};
pub use texts::{add_file, add_octets, add_quoted, behind_comma};
pub use types::add_type;
pub use values::add_value;
pub use whole::add_whole;
