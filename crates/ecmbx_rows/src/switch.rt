//! The switch.

use ec_fields::{NoMemory, buffer_of};
use eoe::Packet;
use eoe_switch::Switch;
use row_table::{Bench, Row};
use std::alloc::Global;
use std::marker::Model;

/// A switch, and how many ports it has.
#[derive(Drop)]
pub struct SwitchBench {
    switch: Switch,
    ports: u32,
}

impl Model for SwitchBench {
    ghost use Rattle.std.specs.Prelude.{◌≡◌, length};
    ghost use Rattle.eoe_switch.specs.Switch.{Switched};

    ghost Value = { Switched };

    ghost view = { λ b. b.switch };

    ghost invariant = { λ b. length b.switch.ports ≡ b.ports };
}

impl SwitchBench {
    /// A switch with one port.
    pub fn new(alloc: Global) -> Result<SwitchBench, NoMemory> {
        let switch = Switch::new(alloc, 1)?;
        Ok(SwitchBench { switch, ports: 1 })
    }

    // A new switch with so many ports.
    fn renew(&mut self, row: &mut Row<'_>) {
        let ports = row.number();
        if ports < 1 || ports > 17 {
            return row.fail();
        }
        let Ok(switch) = Switch::new(row.alloc(), ports) else {
            return row.fail();
        };
        *self = SwitchBench { switch, ports };
        row.say("new");
    }

    // The ports that take a packet and those that drop it, as sums of powers of two.
    fn arrive(&mut self, row: &mut Row<'_>) {
        let port = row.number();
        let octets = row.octets();
        if octets.len() < 14 || octets.len() > 1514 || port >= self.ports {
            return row.fail();
        }
        let packet: Packet = buffer_of(octets.bytes());
        let (taken, dropped) = self.switch.arrive(port, &packet);
        row.show(u64::from(taken.bits));
        row.show(u64::from(dropped.bits));
    }

    // A port goes down, or the oldest packet there is begun.
    fn change(&mut self, row: &mut Row<'_>, begins: bool) {
        let port = row.number();
        if port >= self.ports {
            return row.fail();
        }
        if !begins {
            self.switch.down(port);
            return row.say("down");
        }
        match self.switch.begun(port) {
            Some(packet) => row.digits(packet.as_slice()),
            None => row.say("none"),
        }
    }
}

impl Bench for SwitchBench {
    fn carry(&mut self, row: &mut Row<'_>) {
        match row.word() {
            "new" => self.renew(row),
            "arrive" => self.arrive(row),
            "down" => self.change(row, false),
            "begun" => self.change(row, true),
            "waiting" => {
                let port = row.number();
                row.show(u64::from(self.switch.waiting(port)));
            }
            _ => row.fail(),
        }
    }
}
