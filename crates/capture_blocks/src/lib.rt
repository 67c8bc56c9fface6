//! The blocks of capture files of the pcapng format, and numbers in either byte order.
#![tactic(auto)]

mod block;
mod order;

pub use block::{
    BlockAt, BlockFault, INTERFACE, OLD_PACKET, PACKET, SECTION, SIMPLE_PACKET, STATISTICS,
    read_block, section_order,
};
pub use order::{Order, u16_in, u32_in};
