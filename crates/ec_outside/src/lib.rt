//! What the stack reaches outside of itself: files, sinks and ports as traits with counts of
//! faults, the objects in memory that stand in for them, and the adapters to the real ones.
#![tactic(auto)]

mod calls;
mod disk;
mod files;
mod mem_files;
mod mem_port;
mod port;
mod sink;
mod sinks;
mod standard;
mod udp;

pub use calls::Calls;
pub use disk::DiskFiles;
pub use files::{Files, FilesErr, Loaded, StoredFile};
pub use mem_files::MemFiles;
pub use mem_port::MemPort;
pub use port::{Gram, Heard, Peer, Port, PortErr, PortItem, SentGram};
pub use sink::{Sink, SinkErr};
pub use sinks::{MemSink, SureSink};
pub use standard::StdSink;
pub use udp::UdpPort;
