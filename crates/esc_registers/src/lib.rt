//! The registers of one EtherCAT slave controller (ETG.1000.4, 6): station address, AL control and
//! status, and the two mailbox sync managers with their areas. [`Esc::pass`] is what a datagram does
//! to them on its way through the slave; the other calls are those of the slave's own processor.
#![tactic(auto)]

mod area;
mod manager;
mod registers;
mod row;
mod slave;

pub use area::Area;
pub use manager::Manager;
pub use registers::Registers;
pub use slave::Esc;
