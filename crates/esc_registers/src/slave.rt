ghost use Rattle.std.specs.Prelude.{◌≡◌, true, false, ◌+◌, ◌≤◌, length, if◌then◌else◌, Some, None, IfOk};
ghost use Rattle.std.specs.Option.{option_copied};
ghost use Rattle.esc_registers.specs.Access.{is_meant, is_concerned, moved_on, access, KeepsLengths};
ghost use Rattle.mailbox_mail.specs.Area.{mail_area};
ghost use Rattle.esc_registers.specs.Manager.{is_repeat_bit, is_repeat_asked};
ghost use Rattle.esc_registers.specs.Registers.{first_manager, first_registers, are_areas_right};

use crate::area::Area;
use crate::manager::Manager;
use crate::registers::Registers;
use crate::row::is_by_place;
use datagrams::Head;
use datagrams::register::{IN_AREA, IN_CONTROL, OUT_AREA, OUT_CONTROL};
use ec_fields::NoMemory;
use mailbox_mail::Mail;
use std::alloc::Global;
use std::marker::Model;

const INIT: u16 = 1;

/// The controller of one slave, seen as its [`Registers`].
#[derive(Drop)]
pub struct Esc {
    registers: Registers,
}

impl Model for Esc {
    ghost use Rattle.esc_registers.specs.declared.registers.Registers.{Registers};

    ghost Value = { Registers };

    ghost view = { λ e. e.registers };
}

// A sync manager that was never written, with an area of this many octets.
fn first_manager(alloc: Global, len: u16) -> Result<Manager, NoMemory>
    ensures { IfOk result (λ manager. manager ≡ first_manager len) }
{
    let area = Area::new(alloc, len)?;
    Ok(Manager {
        start: 0,
        length: 0,
        control: 0,
        activate: 0,
        acknowledge: false,
        full: false,
        area,
    })
}

// A datagram goes on: each slave counts the place of those that mean one by its place.
fn move_on(head: &mut Head)
    ensures { head.new ≡ moved_on head.old }
{
    if is_by_place(head.command) {
        head.adp = head.adp.wrapping_add(1);
    }
}

impl Esc {
    /// A slave with areas of these lengths, 64 to 1,486 octets each. All registers are 0, and AL
    /// status is Init. No later call takes memory.
    pub fn new(alloc: Global, out_len: u16, in_len: u16) -> Result<Esc, NoMemory>
        ensures { IfOk result (λ esc. esc ≡ first_registers out_len in_len) }
    {
        let out_manager = first_manager(alloc, out_len)?;
        let in_manager = first_manager(alloc, in_len)?;
        Ok(Esc {
            registers: Registers {
                station: 0,
                al_control: 0,
                unhandled: false,
                al_status: INIT,
                al_code: 0,
                out_manager,
                in_manager,
            },
        })
    }

    /// Whether a datagram means the slave or has its place counted by it. [`Esc::pass`] of any other changes nothing.
    pub fn is_concerned(&self, head: &Head) -> bool
        ensures { result ≡ is_concerned self.now head.now }
    {
        is_by_place(head.command) || self.registers.is_meant(head)
    }

    /// A datagram passes the slave (ETG.1000.4, 5.4 and 6): where it means the slave and an access of
    /// its length at its address is there, that is carried out, and the working counter counts it.
    /// Commands 1 to 3 count their place at every slave.
    pub fn pass(&mut self, head: &mut Head, body: &mut [u8])
        requires { head.old.len ≡ length body.old }
        ensures table { record { registers = self.new; head = head.new; body = body.new } ≡ access self.old head.old body.old }
        ensures lengths { KeepsLengths self.old self.new }
    {
        let row = if self.registers.is_meant(head) {
            self.registers.row(head.ado, head.len as usize)
        } else {
            None
        };
        let command = head.command;
        move_on(head);
        if let Some(row) = row {
            let added = self.registers.access(row, command, body);
            head.counter = head.counter.wrapping_add(added);
        }
    }

    /// The area of mailbox 0, `None` exactly where it isn't full.
    pub fn out_area(&self) -> Option<&[u8]>
        ensures { option_copied result ≡ (if self.now.out_manager.full then Some self.now.out_manager.area else None) }
    {
        let manager = &self.registers.out_manager;
        if manager.full {
            Some(manager.area.octets())
        } else {
            None
        }
    }

    /// Mailbox 0 was read by the slave's processor and is free again.
    pub fn release_out(&mut self)
        ensures { self.new ≡ record self.old { out_manager = record self.old.out_manager { full = false } } }
    {
        self.registers.out_manager.full = false;
    }

    /// Whether mailbox 1 holds a mail that the master hasn't read.
    pub fn in_full(&self) -> bool
        ensures { result ≡ self.now.in_manager.full }
    {
        self.registers.in_manager.full
    }

    /// Puts a mail that fits into mailbox 1, in place of what stood there.
    pub fn place_in(&mut self, mail: &Mail)
        requires counted { mail.now.counter ≤ 7 }
        requires fits { 6 + length mail.now.body.items ≤ length self.old.in_manager.area }
        ensures { self.new ≡ record self.old { in_manager = record self.old.in_manager { area = mail_area (length self.old.in_manager.area) mail.now; full = true } } }
    {
        let manager = &mut self.registers.in_manager;
        manager.area.write_mail(mail);
        manager.full = true;
    }

    /// Whether the master asks for the last mail of mailbox 1 again: repeat request and acknowledge
    /// differ.
    pub fn repeat_asked(&self) -> bool
        ensures { result ≡ is_repeat_asked self.now.in_manager }
    {
        self.registers.in_manager.is_repeat_asked()
    }

    /// Answers the repeat request: the acknowledge is set equal to it.
    pub fn acknowledge(&mut self)
        ensures { self.new ≡ record self.old { in_manager = record self.old.in_manager { acknowledge = is_repeat_bit self.old.in_manager.activate } } }
    {
        self.registers.in_manager.acknowledge_repeat();
    }

    /// Whether both mailbox sync managers are enabled with the slave's own start, length and control.
    pub fn areas_right(&self) -> bool
        ensures { result ≡ are_areas_right self.now }
    {
        self.registers.out_manager.is_right(OUT_AREA, OUT_CONTROL)
            && self.registers.in_manager.is_right(IN_AREA, IN_CONTROL)
    }

    /// The AL control word that the slave's processor hasn't looked at yet, which it has then; `None`
    /// exactly where there is none.
    pub fn al_request(&mut self) -> Option<u16>
        ensures word { result ≡ (if self.old.unhandled then Some self.old.al_control else None) }
        ensures handled { self.new ≡ record self.old { unhandled = false } }
    {
        if !self.registers.unhandled {
            return None;
        }
        self.registers.unhandled = false;
        Some(self.registers.al_control)
    }

    /// Whether AL control was written and the slave's processor hasn't looked at it yet.
    pub fn is_asked(&self) -> bool
        ensures { result ≡ self.now.unhandled }
    {
        self.registers.unhandled
    }

    /// Sets AL status and AL status code.
    pub fn set_al(&mut self, status: u16, code: u16)
        ensures { self.new ≡ record self.old { al_status = status; al_code = code } }
    {
        self.registers.al_status = status;
        self.registers.al_code = code;
    }
}
