//! A table of a scenario at its place: which keys it may have and needs, what it is called, and which key is missing or unknown.
#![tactic(auto)]

mod below;
mod missing;
mod paths;
mod rows;
mod site;
mod titles;
mod unknown;

pub use below::place_below;
pub use missing::{is_served, missing_row, near_key};
pub use paths::{key_path, path_of};
pub use rows::{is_asked, known_keys};
pub use site::{Site, item, items_at, number_at, text_at};
pub use titles::{action_at, title};
pub use unknown::{spare_keys, unknown_key, why_unknown};
