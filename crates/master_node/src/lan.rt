ghost use Rattle.std.specs.Prelude.{◌≡◌, ◌≤◌, ◌<◌, ◌+◌, ◌%◌, ◌==◌, [], length, nat_lt, true, count_by, if◌then◌else◌, All, IfOk, IfSome, None, Some, slice_get, drop, ◌++◌, ◌∷◌};
ghost use Rattle.eoe_switch.specs.Switch.{first_switch};
ghost use Rattle.life_runs.specs.of_segment_plan.declared.slave.SlaveSpec.{SlaveSpec as Spec};
ghost use Rattle.life_runs.specs.of_segment_plan.Sound.{IsPlan, IsPacket};
ghost use Rattle.master_node.specs.Ported.{are_ports, are_long, are_queued};
ghost use Rattle.master_node.specs.Ports.{ports_of, port_where, ports_behind};
ghost use Rattle.master_node.specs.Forwards.{port_by, forwarded};

use crate::happened::{Happening, Happenings};
use arrayvec::ArrayVec;
use ec_fields::{NoMemory, Rows, buffer_of};
use eoe::Packet;
use eoe_switch::{Ports, Switch, SwitchEvent};
use segment_plan::{Scenario, SlaveSpec};
use std::alloc::Global;

/// The port of the host.
const HOST: u32 = 0;

/// The most ports: the host's, and one for each slave.
const PORTS: u32 = 17;

/// The least octets of a packet: its two addresses and its EtherType.
const LEAST: usize = 14;

/// The switch, the port of each slave, and the packets of the host that come into it.
#[derive(Drop)]
pub struct Lan {
    switch: Switch,
    /// The port of each slave, `None` of one that does not serve EoE.
    ports: ArrayVec<Option<u32>, 16>,
    host: Rows<Packet>,
    /// How many packets of the host have come in.
    entered: usize,
    /// What happened in this step.
    happened: Happenings,
    ghost ported: { are_ports (length switch.ports) ports.items ≡ true },
    ghost host_port: { 1 ≤ length switch.ports },
    ghost few: { length switch.ports ≤ 17 },
    ghost long: { are_long host ≡ true },
    ghost queued: { are_queued switch.ports ≡ true },
}

// One more slave: where it serves EoE it has the port behind the last one.
fn with_port(ports: &mut ArrayVec<Option<u32>, 16>, last: u32, serves: bool) -> u32
    requires few { last < 16 }
    requires ports { are_ports (last + 1) ports.old.items ≡ true }
    ensures ports { are_ports (result + 1) ports.new.items ≡ true }
    ensures few { result ≤ last + 1 }
    ensures next { length ports.old.items < 16 → result ≡ (if serves then last + 1 else last) }
    ensures long { length ports.old.items < 16 → length ports.new.items ≡ length ports.old.items + 1 }
    ensures is { length ports.old.items < 16 → ports.new.items ≡ ports.old.items ++ port_where serves last ∷ [] }
{
    if ports.len() >= 16 {
        return last;
    }
    if !serves {
        ports.push(None);
        return last;
    }
    ports.push(Some(last + 1));
    last + 1
}

// The ports of the slaves that serve EoE, numbered from 1 in ring order, and the last of them.
fn ports_of(slaves: &[SlaveSpec]) -> (ArrayVec<Option<u32>, 16>, u32)
    requires { length slaves.now ≤ 16 }
    ensures ports { are_ports (result.1 + 1) result.0.items ≡ true }
    ensures few { result.1 ≤ 16 }
    ensures many { result.1 + 1 ≡ ports_of slaves.now }
    ensures each { result.0.items ≡ ports_behind 0 slaves.now }
{
    let mut ports = ArrayVec::new();
    let mut last = HOST;
    for slave in slaves {
        last = with_port(&mut ports, last, slave.eoe);
    }
    (ports, last)
}

// A packet of its own.
fn copy(packet: &Packet) -> Packet
    ensures { result.items ≡ packet.now.items }
{
    buffer_of(packet.as_slice())
}

// Copies of the packets.
fn copies(alloc: Global, packets: &[Packet]) -> Result<Rows<Packet>, NoMemory>
    ensures { IfOk result (λ rows. rows ≡ packets.now) }
{
    let mut rows = Rows::new(alloc);
    for packet in packets {
        rows.add(copy(packet))?;
    }
    Ok(rows)
}

// Whether the host's port is among these.
fn has_host(ports: Ports) -> bool
    ensures { result ≡ (ports.bits % 2 == 1) }
{
    ports.bits % 2 == 1
}

impl Lan {
    ghost use Rattle.std.specs.Prelude.{◌≡◌, ◌∷◌, [], IfOk};
    ghost use Rattle.life_runs.specs.of_segment_plan.Sound.{IsPlan};
    ghost use Rattle.master_node.specs.Ports.{ports_of, ports_behind};
    ghost use Rattle.std.specs.Prelude.{true};
    ghost use Rattle.master_node.specs.Happened.{HasHappened, Happens, HappensSo, Comes, NoneWaits};
    ghost use Rattle.master_node.specs.Downs.{Lists, down_by};
    ghost use Rattle.master_node.specs.Arrivals.{arrive_by};
    ghost use Rattle.master_node.specs.Entering.{EntersFirst};
    ghost use Rattle.master_node.specs.Made.{Makes};
    ghost use Rattle.master_node.specs.Begins.{NoneMore, TakesOn, oldest_by};
    ghost use Rattle.std.specs.Bool.{OnTrue};

    /// A switch with a port for the host and one for each slave that serves EoE, all of them up, and the packets of the host.
    pub fn new(alloc: Global, plan: &Scenario) -> Result<Lan, NoMemory>
        requires { IsPlan plan.now }
        ensures switch { IfOk result (λ lan. lan.switch ≡ first_switch (length lan.switch.ports)) }
        ensures begins { IfOk result (λ lan. HasHappened (ports_of plan.now.slaves) plan.now.host [] lan) }
        ensures ports { IfOk result (λ lan. lan.ports.items ≡ ports_behind 0 plan.now.slaves) }
    {
        let (ports, last) = ports_of(plan.slaves.as_slice());
        let switch = Switch::new(alloc, last + 1)?;
        let host = copies(alloc, plan.host.as_slice())?;
        Ok(Lan {
            switch,
            ports,
            host,
            entered: 0,
            happened: Happenings::new(alloc)?,
        })
    }

    /// The port of a slave.
    pub fn port(&self, slave: usize) -> Option<u32>
        ensures inside { IfSome result (λ p. p < length self.now.switch.ports) }
        ensures behind { IfSome result (λ p. 1 ≤ p) }
        ensures is { result ≡ port_by (slice_get self.now.ports.items slave) }
    {
        if slave >= self.ports.len() {
            return None;
        }
        self.ports.as_slice()[slave]
    }

    /// Whether a packet waits at a slave's port.
    pub fn waits(&self, slave: usize) -> bool
        ensures { result ≡ nat_lt 0 (length (forwarded self.now.switch self.now.ports.items slave)) }
    {
        match self.port(slave) {
            Some(port) => self.switch.waiting(port) > 0,
            None => false,
        }
    }

    /// Whether no packet waits at any port.
    pub fn is_quiet(&self) -> bool
        ensures none { OnTrue result (NoneWaits self.now.switch) }
        ensures quiet { NoneWaits self.now.switch → result ≡ true }
    {
        for port in 0..PORTS {
            if self.switch.waiting(port) > 0 {
                return false;
            }
        }
        true
    }

    /// Whether a packet of the host has not yet come in.
    pub fn has_host(&self) -> bool
        ensures { result ≡ nat_lt self.now.entered (length self.now.host) }
    {
        self.entered < self.host.len()
    }

    /// The next step begins: nothing has happened in it.
    pub fn begins(&mut self)
        ensures so { HappensSo self.old self.new }
        ensures none { self.new.happened ≡ [] }
        ensures ports { self.new.ports ≡ self.old.ports }
        ensures switch { self.new.switch ≡ self.old.switch }
        ensures host { (self.new.host ≡ self.old.host) × (self.new.entered ≡ self.old.entered) }
    {
        self.happened.clear();
    }

    /// What happened in this step.
    pub fn happened(&self) -> &[Happening]
        ensures { result.now ≡ self.now.happened }
    {
        self.happened.all()
    }

    /// The next packet of the host comes in, where none waits.
    pub fn enter(&mut self)
        requires { NoneWaits self.old.switch }
        ensures enters { nat_lt self.old.entered (length self.old.host) ≡ true → self.old.happened ≡ [] → EntersFirst self.new.happened }
        ensures happens { Happens 1 self.old self.new }
        ensures made { Makes self.old self.new }
        ensures takes { TakesOn [] self.old self.new }
    {
        if self.entered >= self.host.len() {
            return;
        }
        let packet = copy(&self.host.as_slice()[self.entered]);
        self.entered += 1;
        self.arrive(HOST, packet);
    }

    /// A packet comes in from a slave.
    pub fn came(&mut self, slave: usize, packet: Packet)
        ensures happens { Happens 1 self.old self.new }
        ensures listed { Lists (arrive_by (port_by (slice_get self.old.ports.items slave)) (packet.items ∷ [])) self.old self.new }
    {
        if packet.len() < LEAST {
            return;
        }
        if let Some(port) = self.port(slave) {
            self.arrive(port, packet);
        }
    }

    // A packet comes in at a port.
    fn arrive(&mut self, port: u32, packet: Packet)
        requires there { port < length self.old.switch.ports }
        requires long { 14 ≤ length packet.items }
        ensures { Comes port packet self.old self.new }
    {
        let (taken, _full) = self.switch.arrive(port, &packet);
        let handed = has_host(taken);
        let event = SwitchEvent::Arrive { port, packet };
        self.happened.put(Happening { event, handed });
    }

    /// The oldest packet that waits at a slave's port. It goes on waiting.
    pub fn oldest(&self, slave: usize) -> Option<&Packet>
        ensures long { IfSome result (λ p. 14 ≤ length p.now.items) }
        ensures oldest { IfSome result (λ p. slice_get (forwarded self.now.switch self.now.ports.items slave) 0 ≡ Some p.now) }
        ensures none { result ≡ None → forwarded self.now.switch self.now.ports.items slave ≡ [] }
    {
        let port = self.port(slave)?;
        let packet = self.switch.oldest(port)?;
        if packet.len() < LEAST {
            return None;
        }
        Some(packet)
    }

    /// It begins, and waits no longer.
    pub fn begin(&mut self, slave: usize)
        ensures goes_on { forwarded self.new.switch self.new.ports.items slave ≡ drop 1 (forwarded self.old.switch self.old.ports.items slave) }
        ensures happens { Happens 1 self.old self.new }
        ensures made { Makes self.old self.new }
        ensures takes { TakesOn (oldest_by self.old.switch (port_by (slice_get self.old.ports.items slave))) self.old self.new }
        ensures fewer { NoneMore self.old self.new }
    {
        if let Some(port) = self.port(slave) {
            self.switch.begun(port);
            let event = SwitchEvent::Begun { port };
            self.happened.put(Happening {
                event,
                handed: false,
            });
        }
    }

    /// A slave's port goes down.
    pub fn down(&mut self, slave: usize)
        ensures happens { Happens 1 self.old self.new }
        ensures listed { Lists (down_by (port_by (slice_get self.old.ports.items slave)) true) self.old self.new }
    {
        if let Some(port) = self.port(slave) {
            self.switch.down(port);
            let event = SwitchEvent::Down { port };
            self.happened.put(Happening {
                event,
                handed: false,
            });
        }
    }
}
