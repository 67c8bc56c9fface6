ghost use Rattle.std.specs.Prelude.{◌≤◌};

use crate::client::Client;
use ec_outside::{Gram, Peer};

/// A service on its way: its client, and what was sent and heard last.
#[derive(Drop)]
pub struct Talk {
    pub client: Client,
    /// The address of the slave's station.
    pub station: u16,
    /// The gateway.
    pub to: Peer,
    /// The counter of the last mail sent; 0 before the first.
    pub counter: u8,
    /// How many datagrams were taken.
    pub taken: u32,
    /// How many were passed over since the last one taken.
    pub passed: u32,
    /// The datagram that is sent or was heard.
    pub gram: Gram,
    ghost counted: { counter ≤ 7 },
}
