//! What the services of a slave act on, and what each of them means there: on whole values, with its codes in their order, and without mails,
//! mailboxes and frames. It is what the exchange of a service's mails comes to, of CoE in each AL state.
#![tactic(auto)]

mod app;
pub mod coe_states;
mod files;
pub mod object_states;
mod perform;
mod performed;
mod sdo;

pub use app::App;
pub use idn_table::IdnSpec;
pub use performed::{Emission, Performed, Reply};
pub use segment_plan::{ObjectSpec, Service, SlaveSpec};
