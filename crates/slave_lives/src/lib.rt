//! The lives of slaves over their registers: a step of the real processor as the session's, the accesses by which a slave is opened and returned, and
//! what it shows behind a step while it is opened. No running code: each function here does nothing, and its contract states a law.
#![tactic(auto)]

mod life_laws;
mod node_laws;
mod opening_laws;
mod step_laws;
pub mod steps_shown;

pub use life_laws::{
    access_law, begin_law, closed_frame_law, closed_life_law, closed_way_law, end_law,
    open_life_law, own_law, seats_law, yet_law,
};
pub use node_laws::{node_law, ring_law};
pub use opening_laws::{bring_law, closed_law, return_law, way_law};
pub use step_laws::{open_step, pdi_law, step_view};
