ghost use Rattle.std.specs.Prelude.{◌≡◌, ◌≤◌, length};
ghost use Rattle.esc_registers.specs.Manager.{status_of, pdi_control_of, manager_text, is_enabled, is_repeat_bit, is_repeat_asked, is_right, activated, manager_written};

use crate::area::Area;
use ec_fields::{bits, put_u16, u16_at};

/// A mailbox sync manager (ETG.1000.4, 6.7) and its area. Bit 0 of `activate` enables it, bit 1 is
/// the repeat request, which bit 1 of its PDI control answers: the `acknowledge`.
#[derive(Drop)]
pub struct Manager {
    pub start: u16,
    pub length: u16,
    pub control: u8,
    pub activate: u8,
    pub acknowledge: bool,
    pub full: bool,
    pub area: Area,
}

const FULL: u8 = 0x08;

const ACKNOWLEDGE: u8 = 0x02;

impl Manager {
    /// The status octet: bit 3 says that the mailbox is full.
    pub fn status(&self) -> u8
        ensures { result ≡ status_of self.now }
    {
        if self.full { FULL } else { 0 }
    }

    /// The PDI control octet: bit 1 acknowledges the repeat request.
    pub fn pdi_control(&self) -> u8
        ensures { result ≡ pdi_control_of self.now }
    {
        if self.acknowledge { ACKNOWLEDGE } else { 0 }
    }

    /// The eight octets of the manager.
    pub fn octets(&self) -> [u8; 8]
        ensures { result ≡ manager_text self.now }
    {
        let mut octets = [
            0,
            0,
            0,
            0,
            self.control,
            self.status(),
            self.activate,
            self.pdi_control(),
        ];
        put_u16(&mut octets, 0, self.start);
        put_u16(&mut octets, 2, self.length);
        octets
    }

    /// Whether the manager is enabled.
    pub fn is_enabled(&self) -> bool
        ensures { result ≡ is_enabled self.now.activate }
    {
        bits(self.activate as u16, 0, 1) == 1
    }

    /// Whether a repeat of the last mail is asked and not yet answered.
    pub fn is_repeat_asked(&self) -> bool
        ensures { result ≡ is_repeat_asked self.now }
    {
        (bits(self.activate as u16, 1, 1) == 1) != self.acknowledge
    }

    /// Answers the repeat request.
    pub fn acknowledge_repeat(&mut self)
        ensures { self.new ≡ record self.old { acknowledge = is_repeat_bit self.old.activate } }
    {
        self.acknowledge = bits(self.activate as u16, 1, 1) == 1;
    }

    /// Whether the manager is enabled with the slave's own start, length and control.
    pub fn is_right(&self, start: u16, control: u8) -> bool
        ensures { result ≡ is_right start control self.now }
    {
        self.start == start
            && self.length as usize == self.area.len()
            && self.control == control
            && self.is_enabled()
    }

    /// Sets the activate octet. A change of enable empties the mailbox.
    pub fn set_activate(&mut self, octet: u8)
        ensures { self.new ≡ activated self.old octet }
    {
        let was_enabled = self.is_enabled();
        self.activate = octet;
        if self.is_enabled() != was_enabled {
            self.full = false;
        }
    }

    /// Sets start, length, control and activate from the eight octets of the manager.
    pub fn write(&mut self, octets: &[u8])
        requires { 8 ≤ length octets.now }
        ensures { self.new ≡ manager_written self.old octets.now }
    {
        self.start = u16_at(octets, 0);
        self.length = u16_at(octets, 2);
        self.control = octets[4];
        self.set_activate(octets[6]);
    }
}
