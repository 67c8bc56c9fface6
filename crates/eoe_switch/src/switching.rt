ghost use Rattle.std.specs.Prelude.{◌≡◌, ◌^◌, ◌+◌, ◌<◌, ◌≤◌, length, [], IfOk, slice_get};
ghost use Rattle.std.specs.Option.{option_copied};
ghost use Rattle.eoe_switch.specs.Switch.{Switched, first_ports, ports_behind, bits_of_taken, bits_of_full, bit_where, learned_from, route_of, first_switch, arrived, queue_at, begun_at, downed_at};

use crate::addresses::{Learned, address_at, learn, port_of};
use crate::port::{Offered, Port, Route};
use crate::queue::Queue;
use arrayvec::ArrayVec;
use ec_fields::{NoMemory, Rows};
use eoe::Packet;
use std::alloc::Global;
use std::marker::Model;

// The places of a packet's addresses.
const DESTINATION: usize = 0;

const SOURCE: usize = 6;

/// A set of ports: bit `p` stands for port `p`.
#[derive(Clone, Copy)]
pub struct Ports {
    pub bits: u32,
}

/// What happens at a switch.
#[derive(Drop)]
pub enum SwitchEvent {
    /// A packet comes in at a port.
    Arrive { port: u32, packet: Packet },
    /// The oldest packet that waits at a port is taken.
    Begun { port: u32 },
    /// A port goes down: what waits there is discarded.
    Down { port: u32 },
}

/// The switch: its ports, and the addresses that it knows.
#[derive(Drop)]
pub struct Switch {
    ports: Rows<Port>,
    learned: ArrayVec<Learned, 64>,
}

impl Model for Switch {
    ghost use Rattle.std.specs.Prelude.{◌≤◌, length};
    ghost use Rattle.eoe_switch.specs.Switch.{Switched};

    ghost Value = { Switched };

    ghost view = { λ s. record { ports = s.ports; learned = s.learned.items } };

    ghost invariant = { λ s. length s.ports ≤ 17 };
}

// Bit `at` of a set.
fn power(at: u32) -> u32
    requires { at < 17 }
    ensures { result ≡ 2 ^ at }
{
    1 << at
}

// Ports that are up, at which nothing waits.
fn new_ports(alloc: Global, ports: u32) -> Result<Rows<Port>, NoMemory>
    ensures { IfOk result (λ rows. rows ≡ first_ports ports) }
{
    let mut rows = Rows::new(alloc);
    for _ in 0..ports {
        let queue = Queue::new(alloc)?;
        let port = Port { up: true, queue };
        if rows.push(port).is_err() {
            return Err(NoMemory);
        }
    }
    Ok(rows)
}

// The set with one more port, behind all that are in it.
fn with_port(set: Ports, at: u32) -> Ports
    requires few { at < 17 }
    requires below { set.bits < 2 ^ at }
    ensures value { result.bits ≡ set.bits + 2 ^ at }
    ensures below { result.bits < 2 ^ (at + 1) }
{
    Ports {
        bits: set.bits + power(at),
    }
}

// What a port adds to the sets: where the packet was taken, and where it was dropped.
fn counted(sets: (Ports, Ports), offered: Offered, at: u32) -> (Ports, Ports)
    requires few { at < 17 }
    requires taken_below { sets.0.bits < 2 ^ at }
    requires full_below { sets.1.bits < 2 ^ at }
    ensures taken { result.0.bits ≡ sets.0.bits + bit_where Offered.Taken offered at }
    ensures full { result.1.bits ≡ sets.1.bits + bit_where Offered.Full offered at }
    ensures taken_below { result.0.bits < 2 ^ (at + 1) }
    ensures full_below { result.1.bits < 2 ^ (at + 1) }
{
    let (taken, full) = sets;
    match offered {
        Offered::Not => (taken, full),
        Offered::Taken => (with_port(taken, at), full),
        Offered::Full => (taken, with_port(full, at)),
    }
}

// Learns the port of a packet's source, unless that is a group's.
fn learn_source(learned: &mut ArrayVec<Learned, 64>, port: u32, packet: &Packet)
    requires { 14 ≤ length packet.now.items }
    ensures { learned.new.items ≡ learned_from learned.old.items port packet.now.items }
{
    let octets = packet.as_slice();
    if octets[SOURCE] % 2 == 0 {
        learn(learned, address_at(octets, SOURCE), port);
    }
}

// Where a packet goes that came in at a port.
fn route(learned: &ArrayVec<Learned, 64>, from: u32, packet: &Packet) -> Route
    requires { 14 ≤ length packet.now.items }
    ensures { result ≡ route_of learned.now.items from packet.now.items }
{
    let octets = packet.as_slice();
    if octets[DESTINATION] % 2 == 1 {
        return Route { from, known: None };
    }
    Route {
        from,
        known: port_of(learned, address_at(octets, DESTINATION)),
    }
}

// Offers a packet to each port: where it was taken, and where it was dropped.
fn offer_all(ports: &mut Rows<Port>, route: Route, packet: &Packet) -> (Ports, Ports)
    requires { length ports.old ≤ 17 }
    ensures ports { ports.new ≡ ports_behind route packet.now 0 ports.old }
    ensures taken { result.0.bits ≡ bits_of_taken route packet.now 0 ports.old }
    ensures full { result.1.bits ≡ bits_of_full route packet.now 0 ports.old }
    ensures long { length ports.new ≡ length ports.old }
{
    let mut sets = (Ports { bits: 0 }, Ports { bits: 0 });
    for at in 0..ports.len() {
        let offered = ports.at_mut(at).offer(route, at as u32, packet);
        sets = counted(sets, offered, at as u32);
    }
    sets
}

impl Switch {
    /// A switch with 1 to 17 ports, all up. It knows no address, and nothing waits.
    pub fn new(alloc: Global, ports: u32) -> Result<Switch, NoMemory>
        requires some { 1 ≤ ports }
        requires few { ports ≤ 17 }
        ensures first { IfOk result (λ switch. switch ≡ first_switch ports) }
        ensures ports { IfOk result (λ switch. length switch.ports ≡ ports) }
    {
        let ports = new_ports(alloc, ports)?;
        Ok(Switch {
            ports,
            learned: ArrayVec::new(),
        })
    }

    /// A packet comes in at a port. The first answer is the ports that it goes to, the second those
    /// where it was dropped because 8 packets wait there. Its source is learned, unless that is a
    /// group's. A group's destination, and one that isn't known, goes to all other ports that are up.
    pub fn arrive(&mut self, port: u32, packet: &Packet) -> (Ports, Ports)
        requires there { port < length self.old.ports }
        requires addressed { 14 ≤ length packet.now.items }
        ensures table { record { switch = self.new; taken = result.0.bits; full = result.1.bits } ≡ arrived self.old port packet.now }
        ensures ports { length self.new.ports ≡ length self.old.ports }
    {
        learn_source(&mut self.learned, port, packet);
        let route = route(&self.learned, port, packet);
        offer_all(&mut self.ports, route, packet)
    }

    /// The oldest packet that waits at a port, `None` exactly where none waits. It goes on waiting.
    pub fn oldest(&self, port: u32) -> Option<&Packet>
        ensures { option_copied result ≡ slice_get (queue_at self.now port) 0 }
    {
        match self.ports.get(port as usize) {
            Some(port) => port.queue.oldest(),
            None => None,
        }
    }

    /// Hands out the oldest packet that waits at a port, `None` exactly where none waits.
    pub fn begun(&mut self, port: u32) -> Option<Packet>
        requires { port < length self.old.ports }
        ensures oldest { result ≡ slice_get (queue_at self.old port) 0 }
        ensures goes_on { self.new ≡ begun_at self.old port }
        ensures ports { length self.new.ports ≡ length self.old.ports }
    {
        self.ports.at_mut(port as usize).queue.pop()
    }

    /// How many packets wait at a port, at most 8.
    pub fn waiting(&self, port: u32) -> u32
        ensures { result ≡ length (queue_at self.now port) }
    {
        match self.ports.get(port as usize) {
            Some(port) => port.queue.len() as u32,
            None => 0,
        }
    }

    /// A port goes down: nothing is forwarded to it any more, and what waits there is discarded.
    pub fn down(&mut self, port: u32)
        requires { port < length self.old.ports }
        ensures goes_on { self.new ≡ downed_at self.old port }
        ensures ports { length self.new.ports ≡ length self.old.ports }
    {
        let port = self.ports.at_mut(port as usize);
        port.up = false;
        port.queue.clear();
    }
}
