ghost use Rattle.std.specs.Prelude.{◌≡◌};
ghost use Rattle.eoe_switch.specs.Ports.{is_target, offered};

use crate::queue::Queue;
use ec_fields::buffer_of;
use eoe::Packet;

/// A port: whether it is up, and the packets that wait at it.
#[derive(Drop)]
pub struct Port {
    pub up: bool,
    pub queue: Queue,
}

/// What became of a packet at a port.
#[derive(Clone, Copy)]
pub enum Offered {
    /// It doesn't go there.
    Not,
    /// It was handed to the host, or waits.
    Taken,
    /// It was dropped, since 8 packets wait there.
    Full,
}

/// Where a packet goes: it came in at port `from`; `known` is the port of its destination.
#[derive(Clone, Copy)]
pub struct Route {
    pub from: u32,
    pub known: Option<u32>,
}

// Whether a packet goes to a port.
fn is_target(route: Route, at: u32, up: bool) -> bool
    ensures { result ≡ is_target route at up }
{
    if at == route.from || !up {
        return false;
    }
    match route.known {
        Some(port) => port == at,
        None => true,
    }
}

impl Port {
    /// Offers a packet to the port with number `at`. The host, at port 0, takes each.
    pub fn offer(&mut self, route: Route, at: u32, packet: &Packet) -> Offered
        ensures { record { port = self.new; offered = result } ≡ offered route at packet.now self.old }
    {
        if !is_target(route, at, self.up) {
            return Offered::Not;
        }
        if at == 0 {
            return Offered::Taken;
        }
        if self.queue.push(buffer_of(packet.as_slice())) {
            Offered::Taken
        } else {
            Offered::Full
        }
    }
}
