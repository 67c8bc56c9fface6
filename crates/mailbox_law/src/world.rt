//! The world of one link: halves, slave and server, with the mails held, given and accepted so far.

ghost use Rattle.std.specs.Prelude.{◌≡◌, ℕ, ◌+◌, ◌≤◌, List, ◌∷◌, [], ◌++◌, Ok, IfOk, length};
ghost use Rattle.mailbox_master.specs.of_link_model.Link.{Link, Event, happens, new_link};
ghost use Rattle.mailbox_master.specs.of_link_model.Agree.{Agrees};
ghost use Rattle.mailbox_master.specs.of_link_mails.Body.{Body, uncounted};
ghost use Rattle.mailbox_law.specs.Waiting.{keeper, bodies_of, HasRoom};
ghost use Rattle.mailbox_law.specs.Wire.{IsReadable, accepted_in};
ghost use Rattle.mailbox_master.specs.Any.{out_len};
ghost use Rattle.mailbox_law.specs.Steps.{fate_of, event_of, given_too, FitsLink};
ghost use Rattle.mailbox_law.specs.World.{IsSound, Shows};

use crate::bring::{STATION, brought_up};
use crate::keeper::{Keeper, copy_of};
use crate::steps::{LinkFate, LinkStep};
use crate::wire::{in_sent, out_sent};
use al_state::PRE_OP;
use ec_fields::{NoMemory, Rows};
use esc_registers::Esc;
use mailbox_mail::Mail;
use mailbox_master::{Got, InwardHalf, OutwardHalf, new_inward, new_outward};
use mailbox_slave::SlaveBox;
use std::alloc::Global;

/// A link as it runs.
#[derive(Drop)]
pub struct World {
    pub esc: Esc,
    pub slave_box: SlaveBox,
    pub keeper: Keeper,
    pub outward: OutwardHalf,
    pub inward: InwardHalf,
    pub held: Rows<Mail>,
    pub given: Rows<Mail>,
    pub accepted: Rows<Mail>,
}

pub fn add(rows: &mut Rows<Mail>, mail: Mail) -> Result<(), NoMemory>
    ensures { IfOk result (λ _. rows.new ≡ rows.old ++ mail ∷ []) }
{
    match rows.push(mail) {
        Ok(()) => Ok(()),
        Err(_) => Err(NoMemory),
    }
}

impl World {
    /// The link at the end of bring-up.
    pub fn new(alloc: Global, out_len: u16, in_len: u16) -> Result<World, NoMemory>
        requires outward { out_len ≤ 1486 }
        requires inward { (6 ≤ in_len) × (in_len ≤ 1486) }
        ensures sound { IfOk result (IsSound out_len in_len) }
        ensures shows { IfOk result (λ x. Shows x (new_link [])) }
    {
        let esc = brought_up(alloc, out_len, in_len)?;
        Ok(World {
            esc,
            slave_box: SlaveBox::new(),
            keeper: Keeper::new(alloc, (in_len - 6) as usize),
            outward: OutwardHalf::Idle(new_outward(STATION, out_len)),
            inward: InwardHalf::Clear(new_inward(STATION, in_len)),
            held: Rows::new(alloc),
            given: Rows::new(alloc),
            accepted: Rows::new(alloc),
        })
    }

    /// A mail is given to the outward half.
    pub fn hold(mut self, mail: Mail) -> Result<World, NoMemory>
        requires { 6 + length mail.body.items ≤ out_len self.outward }
        ensures sound { (outward inward : ℕ) → IsSound outward inward self → IfOk result (IsSound outward inward) }
        ensures shows { (w : Link Body (List Body)) → Shows self w → IfOk result (λ x. Shows x (happens keeper w (Event.Hold (Ok (uncounted mail))))) }
    {
        if !self.outward.is_idle() {
            return Ok(self);
        }
        add(&mut self.held, copy_of(&mail))?;
        self.outward = self.outward.hold(mail);
        Ok(self)
    }

    /// A mail is given to the slave.
    pub fn give(mut self, mail: Mail) -> Result<World, NoMemory>
        requires { HasRoom self.keeper.room mail }
        ensures sound { (outward inward : ℕ) → IsSound outward inward self → IfOk result (IsSound outward inward) }
        ensures shows { (w : Link Body (List Body)) → Shows self w → IfOk result (λ x. Shows x (happens keeper w (Event.Change (given_too mail)))) }
    {
        add(&mut self.given, copy_of(&mail))?;
        self.keeper.give(mail)?;
        Ok(self)
    }

    /// The datagram of the outward half is sent.
    pub fn send_outward(mut self, fate: LinkFate) -> World
        requires { (outward inward : ℕ) × IsSound outward inward self }
        ensures sound { (outward inward : ℕ) → IsSound outward inward self → IsSound outward inward result }
        ensures shows { (w : Link Body (List Body)) → Shows self w → Shows result (happens keeper w (Event.Out (fate_of fate))) }
    {
        let outward = self.outward;
        self.outward = out_sent(&mut self.esc, outward, fate);
        self
    }

    /// The datagram of the inward half is sent.
    pub fn send_inward(mut self, fate: LinkFate) -> Result<World, NoMemory>
        requires sound { (outward inward : ℕ) × IsSound outward inward self }
        requires readable { IsReadable self.esc }
        ensures sound { (outward inward : ℕ) → IsSound outward inward self → IfOk result (IsSound outward inward) }
        ensures shows { (w : Link Body (List Body)) → Shows self w → IfOk result (λ x. Shows x (happens keeper w (Event.In (fate_of fate)))) }
    {
        let inward = self.inward;
        let (inward, got) = in_sent(&mut self.esc, inward, fate);
        self.inward = inward;
        accept(&mut self.accepted, got)?;
        Ok(self)
    }

    /// The slave's processor makes a step.
    pub fn step(mut self) -> Result<World, NoMemory>
        requires sound { (outward inward : ℕ) × IsSound outward inward self }
        ensures sound { (outward inward : ℕ) → IsSound outward inward self → IfOk result (IsSound outward inward) }
        ensures shows { (w : Link Body (List Body)) → Agrees w → Shows self w → IfOk result (λ x. Shows x (happens keeper w Event.Pdi)) }
    {
        self.keeper.make_room()?;
        self.slave_box.step(&mut self.esc, &mut self.keeper, PRE_OP);
        Ok(self)
    }

    /// One step of a run.
    pub fn make(self, step: &LinkStep) -> Result<World, NoMemory>
        requires sound { (outward inward : ℕ) × IsSound outward inward self × FitsLink outward inward step.now }
        requires shows { (w : Link Body (List Body)) × Agrees w × Shows self w }
        ensures sound { (outward inward : ℕ) → IsSound outward inward self → IfOk result (IsSound outward inward) }
        ensures shows { (w : Link Body (List Body)) → Agrees w → Shows self w → IfOk result (λ x. Shows x (happens keeper w (event_of step.now))) }
    {
        match step {
            LinkStep::Hold(mail) => self.hold(copy_of(mail)),
            LinkStep::Give(mail) => self.give(copy_of(mail)),
            LinkStep::Out(fate) => Ok(self.send_outward(*fate)),
            LinkStep::In(fate) => self.send_inward(*fate),
            LinkStep::Pdi => self.step(),
        }
    }
}

// A mail that was got is accepted.
fn accept(accepted: &mut Rows<Mail>, got: Option<Got>) -> Result<(), NoMemory>
    ensures { IfOk result (λ _. bodies_of accepted.new ≡ bodies_of accepted.old ++ accepted_in got) }
{
    match got {
        Some(Got::Mail(mail)) => add(accepted, mail),
        _ => Ok(()),
    }
}
