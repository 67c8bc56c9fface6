//! Ethernet over EtherCAT (ETG.1000.6, 5.7): the messages of the protocol, packets cut into fragments
//! and joined from them, and the address block. No call takes memory.
#![tactic(auto)]

mod address;
mod cutting;
mod joining;
mod message;
mod reading;
mod viewing;
mod writing;

pub use address::{first_block, is_block};
pub use cutting::{Fragmenter, cut};
pub use joining::{Came, Joined, Reassembler, Unfinished};
pub use message::{Block, Eoe, EoeFault, Fragment, Packet};
pub use reading::read;
pub use viewing::{EoeView, FragmentView, fragment_of, view, view_of};
pub use writing::{write, write_view};
