//! The outward half: it holds one mail until the write of mailbox 0 is known to be done.

ghost use Rattle.std.specs.Prelude.{◌≡◌, ◌+◌, ◌≤◌, ◌==◌, List, ◌∷◌, [], ◌++◌, None, Ok, length, replicate};
ghost use Rattle.link_mails.specs.of_mailbox_mail.Mail.{mail_read};
ghost use Rattle.link_mails.specs.of_link_model.Counters.{next_counter};
ghost use Rattle.link_mails.specs.of_link_model.Master.{out_hold, out_answered};
ghost use Rattle.link_mails.specs.of_link_model.Slave.{OutSide};
ghost use Rattle.link_mails.specs.of_link_model.Link.{written, write_counter};
ghost use Rattle.link_mails.specs.of_link_model.Agree.{OutAgree};
ghost use Rattle.link_mails.specs.Body.{Body, uncounted, counted_as, link_mail};
ghost use Rattle.link_mails.specs.of_mailbox_mail.Area.{mail_area};
ghost use Rattle.mailbox_master.specs.Halves.{idle_half, holding_half, held_mail, SameOut};
ghost use Rattle.mailbox_master.specs.Steps.{AgreesHolding, AgreesWritten, AgreesUnmet, AgreesMet};
ghost use Rattle.mailbox_master.specs.Access.{access_head, write_access};
ghost use Rattle.mailbox_master.specs.Next.{out_next_half, is_full, SameOutNext};

use crate::access::{LinkState, fill_blank, head_of};
use crate::states::{Holding, Idle};
use arrayvec::ArrayVec;
use datagrams::register::OUT_AREA;
use datagrams::{Command, Head};
use link_mails::next_counter;
use mailbox_mail::{Mail, write};
use std::marker::Model;

/// A state of the outward half.
pub trait OutState {
    ghost use Rattle.std.specs.Prelude.{ℕ};

    ghost fits: { ℕ → Self → Type 0 };
}

impl OutState for Idle {
    ghost use Rattle.std.specs.Prelude.{⊤};

    ghost fits = { λ len s. ⊤ };
}

impl OutState for Holding {
    ghost use Rattle.std.specs.Prelude.{◌+◌, ◌≤◌, length};

    ghost fits = { λ len s. (6 + length s.mail.body.items ≤ len) × (s.mail.counter ≤ 7) };
}

/// The outward half of a link in the state `S`: it writes mailbox 0 of one slave.
#[derive(Drop)]
pub struct Outward<S: OutState> {
    station: u16,
    len: u16,
    last: u8,
    state: S,
}

impl<S: OutState> Model for Outward<S> {
    ghost use Rattle.std.specs.Prelude.{◌≤◌};
    ghost use Rattle.mailbox_master.specs.Links.{OutLink};

    ghost Value = { OutLink S };

    ghost view = { λ o. record { station = o.station; len = o.len; last = o.last; state = o.state } };

    ghost invariant = { λ o. (o.len ≤ 1486) × (o.last ≤ 7) × S.fits o.len o.state };
}

/// What an outward half has become by the answer to its write.
#[derive(Drop)]
pub enum OutNext {
    /// Mailbox 0 holds the mail: the half is idle.
    Taken(Outward<Idle>),
    /// Mailbox 0 was full: the mail is still held.
    Full(Outward<Holding>),
}

/// The outward half at the end of its slave's bring-up: mailbox 0 has this length, and no mail was sent yet.
pub fn new_outward(station: u16, len: u16) -> Outward<Idle>
    requires { len ≤ 1486 }
    ensures value { result ≡ record { station = station; len = len; last = 0; state = record {} } }
    ensures agrees { OutAgree {B = Body} (idle_half result) (record { box = None; last_taken = 0 }) [] [] }
{
    Outward {
        station,
        len,
        last: 0,
        state: Idle,
    }
}

impl<S: OutState> Outward<S> {
    // Its slave's station.
    pub fn station(&self) -> u16
        ensures { result ≡ self.now.station }
    {
        self.station
    }

    // The length of mailbox 0.
    pub fn area_len(&self) -> u16
        ensures { result ≡ self.now.len }
    {
        self.len
    }
}

impl Outward<Idle> {
    /// Takes up a mail, and gives it the next counter. All else of the mail is sent as it is: that its address is 0, as
    /// on a segment, is for the caller to see to.
    pub fn hold(self, mail: Mail) -> Outward<Holding>
        requires { 6 + length mail.body.items ≤ self.len }
        ensures half { holding_half result ≡ out_hold (idle_half self) (Ok (uncounted mail)) }
        ensures mail { held_mail result ≡ counted_as (next_counter self.last) mail }
        ensures link { SameOut self result }
        ensures agrees { AgreesHolding (idle_half self) (holding_half result) (Ok (uncounted mail)) }
    {
        let counter = next_counter(self.last);
        let Outward { station, len, .. } = self;
        Outward {
            station,
            len,
            last: counter,
            state: Holding {
                mail: Mail { counter, ..mail },
            },
        }
    }
}

impl Outward<Holding> {
    /// The write returned with this working counter: with 0 mailbox 0 was full, and the mail is still held.
    pub fn answered(self, counter: u16) -> OutNext
        ensures half { out_next_half result ≡ out_answered (holding_half self) counter }
        ensures full { is_full result ≡ (counter == 0) }
        ensures link { SameOutNext self result }

        // Where a slave that agrees met the write and its answer is this counter.
        ensures agrees { AgreesWritten (holding_half self) (out_next_half result) (link_mail (held_mail self)) counter }
    {
        if counter == 0 {
            return OutNext::Full(self);
        }
        let Outward {
            station,
            len,
            last,
            ..
        } = self;
        OutNext::Taken(Outward {
            station,
            len,
            last,
            state: Idle,
        })
    }

    /// The write was lost: the same mail is to be sent again, with the same counter.
    pub fn lost(self) -> Outward<Holding>
        ensures same { result ≡ self }

        // Whether the slave met the write or not.
        ensures not_met { AgreesUnmet (holding_half self) (holding_half result) }
        ensures met { AgreesMet (holding_half self) (holding_half result) (link_mail (held_mail self)) }
    {
        agrees_if_met(&self);
        self // the same mail, with its counter
    }
}

// A slave that met the write still agrees with the half that did not hear of it.
fn agrees_if_met(half: &Outward<Holding>)
    ensures { AgreesMet (holding_half half.now) (holding_half half.now) (link_mail (held_mail half.now)) }
{}

impl LinkState for Outward<Holding> {
    ghost use Rattle.mailbox_master.specs.Access.{write_access};
    ghost use Rattle.mailbox_master.specs.Halves.{held_mail};

    ghost station = { λ o. o.station };

    ghost access = { λ o. write_access o.len (held_mail o) };

    // What is sent reads as the mail held.
    fn datagram(&self, index: u8, head: &mut Head, body: &mut ArrayVec<u8, 1486>)
        ensures head { head.new ≡ access_head self.now.station index (write_access self.now.len (held_mail self.now)) }
        ensures body { body.new.items ≡ mail_area self.now.len (held_mail self.now) }
        ensures reads { mail_read body.new.items ≡ Ok (held_mail self.now) }
        ensures len { length body.new.items ≡ self.now.len }
    {
        *head = head_of(self.station, index, Command::Fpwr, OUT_AREA, self.len);
        fill_area(&self.state.mail, self.len, body);
    }
}

// A mailbox area with this mail, and zeros behind it.
fn fill_area(mail: &Mail, len: u16, body: &mut ArrayVec<u8, 1486>)
    requires counted { mail.now.counter ≤ 7 }
    requires fits { 6 + length mail.now.body.items ≤ len }
    requires within { len ≤ 1486 }
    ensures text { body.new.items ≡ mail_area len mail.now }
    ensures reads { mail_read body.new.items ≡ Ok mail.now }
    ensures len { length body.new.items ≡ len }
{
    fill_blank(len, body);
    write(mail, body.as_mut_slice());
}
