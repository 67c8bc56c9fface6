//! Octet lists, rows, numbers in octets and bit fields: what every format of the stack is read and
//! written with.
#![tactic(auto)]

mod buffer;
mod fields;
mod memory;
mod octets;
mod rows;
mod transfer;

pub use buffer::{append, append_u8, append_u16, append_u32, buffer_of, refill, refill_parts};
pub use fields::{bits, put_bits, put_u16, put_u32, u8_at, u16_at, u32_at};
pub use memory::NoMemory;
pub use octets::Octets;
pub use rows::Rows;
pub use transfer::Transfer;
