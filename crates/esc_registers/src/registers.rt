ghost use Rattle.std.specs.Prelude.{◌≡◌, true, not, ◌&&◌, ◌∷◌, ◌++◌, length, if◌then◌else◌, is_some, unwrap_or, IfSome, IfNone, OnSome, IsTrue};
ghost use Rattle.byteorder.specs.Endian.{little_bytes};
ghost use Rattle.esc_registers.specs.Access.{reads, writes, manager_of, row_of, row_len, is_area, is_meant, read_row, behind_read, write_row, accessed, KeepsLengths};

use crate::manager::Manager;
use crate::row::{Mailbox, Row, is_by_place, is_by_station, reads, writes};
use arrayvec::ArrayVec;
use datagrams::register::{
    AL_CONTROL, AL_STATUS, AL_STATUS_CODE, IN_AREA, IN_CONTROL, MANAGER_0, MANAGER_1, OUT_AREA,
    OUT_CONTROL, STATION_ADDRESS,
};
use datagrams::{Command, Head};
use ec_fields::{buffer_of, u16_at};

/// The registers of a slave. `unhandled` says that AL control was written and the slave's processor
/// has not yet looked at it. `out_manager` is sync manager 0, whose mailbox the master writes,
/// `in_manager` is sync manager 1, whose mailbox the master reads.
#[derive(Drop)]
pub struct Registers {
    pub station: u16,
    pub al_control: u16,
    pub unhandled: bool,
    pub al_status: u16,
    pub al_code: u16,
    pub out_manager: Manager,
    pub in_manager: Manager,
}

const STATUS_0: u16 = 0x0805;

const STATUS_1: u16 = 0x080D;

const ACTIVATE_0: u16 = 0x0806;

const ACTIVATE_1: u16 = 0x080E;

const PDI_CONTROL_0: u16 = 0x0807;

const PDI_CONTROL_1: u16 = 0x080F;

impl Registers {
    /// The row of an access at an address, `None` where the slave has none of this length.
    pub fn row(&self, ado: u16, len: usize) -> Option<Row>
        ensures row { result ≡ row_of self.now ado len }
        ensures fits { IfSome result (λ row. len ≡ row_len self.now row) }
    {
        match (ado, len) {
            (STATION_ADDRESS, 2) => Some(Row::Station),
            (AL_CONTROL, 2) => Some(Row::AlControl),
            (AL_STATUS, 2) => Some(Row::AlStatus),
            (AL_STATUS, 6) => Some(Row::AlStatusAndCode),
            (AL_STATUS_CODE, 2) => Some(Row::AlStatusCode),
            (MANAGER_0, 8) => Some(Row::Whole(Mailbox::Outward)),
            (MANAGER_1, 8) => Some(Row::Whole(Mailbox::Inward)),
            (STATUS_0, 1) => Some(Row::Status(Mailbox::Outward)),
            (STATUS_1, 1) => Some(Row::Status(Mailbox::Inward)),
            (ACTIVATE_0, 1) => Some(Row::Activate(Mailbox::Outward)),
            (ACTIVATE_1, 1) => Some(Row::Activate(Mailbox::Inward)),
            (PDI_CONTROL_0, 1) => Some(Row::PdiControl(Mailbox::Outward)),
            (PDI_CONTROL_1, 1) => Some(Row::PdiControl(Mailbox::Inward)),
            (OUT_AREA, _) if len == self.out_manager.area.len() => Some(Row::OutArea),
            (IN_AREA, _) if len == self.in_manager.area.len() => Some(Row::InArea),
            _ => None,
        }
    }

    // The octets of a row that isn't a mailbox area.
    fn register(&self, row: Row) -> Option<ArrayVec<u8, 8>>
        ensures octets { IfSome result (λ octets. read_row self.now row ≡ Some octets.items) }
        ensures fits { IfSome result (λ octets. length octets.items ≡ row_len self.now row) }
        ensures stays { OnSome result (behind_read self.now row ≡ self.now) }
        ensures area { IfNone result (is_area row ≡ true) }
    {
        match row {
            Row::Station => Some(buffer_of(&self.station.to_le_bytes())),
            Row::AlControl => Some(buffer_of(&self.al_control.to_le_bytes())),
            Row::AlStatus => Some(buffer_of(&self.al_status.to_le_bytes())),
            Row::AlStatusAndCode => Some(buffer_of(&self.al_octets())),
            Row::AlStatusCode => Some(buffer_of(&self.al_code.to_le_bytes())),
            Row::Whole(mailbox) => Some(buffer_of(&self.manager(mailbox).octets())),
            Row::Status(mailbox) => Some(buffer_of(&[self.manager(mailbox).status()])),
            Row::Activate(mailbox) => Some(buffer_of(&[self.manager(mailbox).activate])),
            Row::PdiControl(mailbox) => Some(buffer_of(&[self.manager(mailbox).pdi_control()])),
            Row::OutArea | Row::InArea => None,
        }
    }

    // AL status, two zeros, AL status code.
    fn al_octets(&self) -> [u8; 6]
        ensures { result ≡ little_bytes 2 self.now.al_status ++ (0 ∷ 0 ∷ little_bytes 2 self.now.al_code) }
    {
        let status = self.al_status.to_le_bytes();
        let code = self.al_code.to_le_bytes();
        [status[0], status[1], 0, 0, code[0], code[1]]
    }

    fn manager(&self, mailbox: Mailbox) -> &Manager
        ensures { result.now ≡ manager_of self.now mailbox }
    {
        match mailbox {
            Mailbox::Outward => &self.out_manager,
            Mailbox::Inward => &self.in_manager,
        }
    }

    // Empties mailbox 1 into the body, where it is the slave's own and full.
    fn take_in(&mut self, body: &mut [u8]) -> bool
        requires { length body.old ≡ length self.old.in_manager.area }
        ensures done { result ≡ is_some (read_row self.old Row.InArea) }
        ensures registers { self.new ≡ (if result then behind_read self.old Row.InArea else self.old) }
        ensures body { body.new ≡ unwrap_or (read_row self.old Row.InArea) body.old }
        ensures lengths { KeepsLengths self.old self.new }
    {
        let manager = &mut self.in_manager;
        if !manager.is_right(IN_AREA, IN_CONTROL) || !manager.full {
            return false;
        }
        body.copy_from_slice(manager.area.octets());
        manager.full = false;
        true
    }

    // Fills mailbox 0, where it is the slave's own and not full.
    fn put_out(&mut self, octets: &[u8]) -> bool
        requires { length octets.now ≡ length self.old.out_manager.area }
        ensures done { result ≡ is_some (write_row self.old Row.OutArea octets.now) }
        ensures registers { self.new ≡ unwrap_or (write_row self.old Row.OutArea octets.now) self.old }
        ensures lengths { KeepsLengths self.old self.new }
    {
        let manager = &mut self.out_manager;
        if !manager.is_right(OUT_AREA, OUT_CONTROL) || manager.full {
            return false;
        }
        manager.area.fill(octets);
        manager.full = true;
        true
    }

    // Reads a row into the body; `false` where that isn't done.
    fn read(&mut self, row: Row, body: &mut [u8]) -> bool
        requires { length body.old ≡ row_len self.old row }
        ensures done { result ≡ is_some (read_row self.old row) }
        ensures registers { self.new ≡ (if result then behind_read self.old row else self.old) }
        ensures body { body.new ≡ unwrap_or (read_row self.old row) body.old }
        ensures lengths { KeepsLengths self.old self.new }
    {
        if let Some(octets) = self.register(row) {
            body.copy_from_slice(octets.as_slice());
            return true;
        }
        match row {
            Row::InArea => self.take_in(body),
            _ => false,
        }
    }

    // Writes a row; `false` where that isn't done.
    fn write(&mut self, row: Row, octets: &[u8]) -> bool
        requires { length octets.now ≡ row_len self.old row }
        ensures done { result ≡ is_some (write_row self.old row octets.now) }
        ensures registers { self.new ≡ unwrap_or (write_row self.old row octets.now) self.old }
        ensures lengths { KeepsLengths self.old self.new }
    {
        match row {
            Row::Station => {
                self.station = u16_at(octets, 0);
                true
            }
            Row::AlControl => {
                self.al_control = u16_at(octets, 0);
                self.unhandled = true;
                true
            }
            Row::Whole(Mailbox::Outward) => {
                self.out_manager.write(octets);
                true
            }
            Row::Whole(Mailbox::Inward) => {
                self.in_manager.write(octets);
                true
            }
            Row::Activate(Mailbox::Outward) => {
                self.out_manager.set_activate(octets[0]);
                true
            }
            Row::Activate(Mailbox::Inward) => {
                self.in_manager.set_activate(octets[0]);
                true
            }
            Row::OutArea => self.put_out(octets),
            _ => false,
        }
    }

    // Reads and writes a row, with the octets that came; what that adds to the working counter. No
    // mailbox area is both read and written.
    fn read_write(&mut self, row: Row, body: &mut [u8]) -> u16
        requires { length body.old ≡ row_len self.old row }
        ensures table { record { registers = self.new; body = body.new; added = result } ≡ accessed self.old row true true body.old }
        ensures lengths { KeepsLengths self.old self.new }
    {
        let Some(octets) = self.register(row) else {
            return match row {
                Row::OutArea => 2 * self.put_out(body) as u16,
                _ => self.take_in(body) as u16,
            };
        };
        let written = self.write(row, body);
        body.copy_from_slice(octets.as_slice());
        1 + 2 * written as u16
    }

    /// Carries out an access of a row: what it adds to the working counter.
    pub fn access(&mut self, row: Row, command: Command, body: &mut [u8]) -> u16
        requires { length body.old ≡ row_len self.old row }
        ensures table { record { registers = self.new; body = body.new; added = result } ≡ accessed self.old row (reads command) (writes command) body.old }
        ensures lengths { KeepsLengths self.old self.new }
    {
        match (reads(command), writes(command)) {
            (true, true) => self.read_write(row, body),
            (true, false) => self.read(row, body) as u16,
            (false, true) => self.write(row, body) as u16,
            (false, false) => 0,
        }
    }

    /// Whether a datagram means this slave, by its place in the ring or by its station.
    pub fn is_meant(&self, head: &Head) -> bool
        ensures { result ≡ is_meant self.now head.now }
    {
        if is_by_place(head.command) {
            head.adp == 0
        } else {
            is_by_station(head.command) && head.adp == self.station
        }
    }
}
