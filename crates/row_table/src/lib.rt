//! What programs over tables of rows stand on. A table has a line for each row: what it asks, ` = `, and what is to be found for it. A line that begins
//! with `#` is no row.
#![tactic(auto)]

mod octets;
mod page;
mod row;
mod table;

pub use page::Page;
pub use row::Row;
pub use table::{Bench, tell};
