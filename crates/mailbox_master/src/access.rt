//! The datagram of each half.

ghost use Rattle.std.specs.Prelude.{◌≡◌, ◌≤◌, false, length, replicate};
ghost use Rattle.mailbox_master.specs.Access.{Access, access_head};

use arrayvec::ArrayVec;
use datagrams::register::{MANAGER_1, MANAGER_ACTIVATE, MANAGER_PDI_CONTROL};
use datagrams::{Command, Head};
use ec_fields::buffer_of;

/// The activate octet of sync manager 1: enable in bit 0, repeat request in bit 1.
pub const ACTIVATE: u16 = MANAGER_1 + MANAGER_ACTIVATE;

/// The bit of the activate octet that enables the sync manager.
pub const ENABLE: u8 = 1;

/// The bit of the activate octet that requests a repeat.
pub const REPEAT: u8 = 2;

/// The PDI control octet of sync manager 1: repeat acknowledge in bit 1.
pub const PDI_CONTROL: u16 = MANAGER_1 + MANAGER_PDI_CONTROL;

/// A half of a link that has a datagram to send.
pub trait LinkState {
    ghost use Rattle.std.specs.Prelude.{ℕ};
    ghost use Rattle.mailbox_master.specs.Access.{Access, access_head};

    ghost station: { Self → ℕ };

    ghost access: { Self → Access };

    /// The datagram of this state, with this index: it replaces the head, and the contents of the body.
    fn datagram(&self, index: u8, head: &mut Head, body: &mut ArrayVec<u8, 1486>)
        ensures head { head.new ≡ access_head (station self.now) index (access self.now) }
        ensures body { body.new.items ≡ (access self.now).octets };
}

/// The head of an access of one slave by its station, which no slave has met (ETG.1000.4, 5.4.1).
pub fn head_of(station: u16, index: u8, command: Command, register: u16, len: u16) -> Head
    ensures { result ≡ record { command = command; index = index; adp = station; ado = register; len = len; circulating = false; more = false; interrupt = 0; counter = 0 } }
{
    Head {
        command,
        index,
        adp: station,
        ado: register,
        len,
        circulating: false,
        more: false,
        interrupt: 0,
        counter: 0,
    }
}

// So many zeros in place of what stood there.
pub fn fill_blank(len: u16, body: &mut ArrayVec<u8, 1486>)
    requires { len ≤ 1486 }
    ensures { body.new.items ≡ replicate len 0 }
{
    let blank = [0; 1486];
    *body = buffer_of(&blank[..len as usize]);
}
