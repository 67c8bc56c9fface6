//! The halves as whoever keeps them for long has them: they are changed in their place, and no mail is moved.

ghost use Rattle.std.specs.Prelude.{◌≡◌, ◌+◌, ◌≤◌, None, Some, Ok, is_none, length, option_map, IsSome, OnSome};
ghost use Rattle.std.specs.Option.{ForSome};
ghost use Rattle.link_mails.specs.of_mailbox_mail.Mail.{mail_read};
ghost use Rattle.link_mails.specs.Body.{uncounted, mail_brought};
ghost use Rattle.link_mails.specs.of_mailbox_mail.Area.{mail_area};
ghost use Rattle.mailbox_master.specs.Access.{access_head, write_access};
ghost use Rattle.mailbox_master.specs.Any.{out_held, out_returned, in_half_of, in_station, in_area_len, in_returned, in_got, in_access_of};
ghost use Rattle.mailbox_master.specs.Halves.{in_half, SameIn};
ghost use Rattle.mailbox_master.specs.Next.{got_by};
ghost use Rattle.mailbox_master.specs.Seat.{seat_half, mail_by, got_seen, IsWithin, ReadsAs};
ghost use Rattle.link_mails.specs.of_link_model.Master.{InState, read_answered, in_lost};

use crate::access::{ACTIVATE, ENABLE, PDI_CONTROL, REPEAT, head_of};
use crate::halves::InwardHalf;
use crate::inward::{Got, new_inward};
use datagrams::register::{IN_AREA, OUT_AREA};
use datagrams::{Body, Command, Head};
use ec_fields::refill;
use link_mails::next_counter;
use mailbox_mail::{Kind, Mail, MailFault, MailView, error_mail, mail_of, write};
use std::marker::Model;
use std::mem;

/// The outward half of a link with the place of its mail.
#[derive(Drop)]
pub struct OutwardSeat {
    station: u16,
    len: u16,
    last: u8,
    holding: bool,
    mail: Mail,
}

impl Model for OutwardSeat {
    ghost use Rattle.std.specs.Prelude.{◌≡◌, ◌≤◌, ◌+◌, true, length, Option, Some, None, if◌then◌else◌};
    ghost use Rattle.link_mails.specs.of_mailbox_mail.declared.mail.Mail.{Mail};
    ghost use Rattle.mailbox_master.specs.Links.{OutLink};

    ghost Value = { OutLink (Option Mail) };

    ghost view = { λ o. record { station = o.station; len = o.len; last = o.last; state = if o.holding then Some o.mail else None } };

    ghost invariant = { λ o. (o.len ≤ 1486) × (o.last ≤ 7) × (o.holding ≡ true → (6 + length o.mail.body.items ≤ o.len) × (o.mail.counter ≤ 7)) };
}

/// What a returned read of mailbox 1 gave, as it stands in the area.
#[derive(Clone, Copy)]
pub enum GotView<'a> {
    /// A mail that was not accepted before.
    Mail(MailView<'a>),
    /// The last accepted mail once more.
    Repeat,
    /// Mailbox 1 was empty: the working counter is 0.
    Empty,
    /// The area is no mail.
    Bad(MailFault),
}

impl GotView<'_> {
    // The same with a mail of its own.
    pub fn owned(self) -> Got
        requires { IsWithin self }
        ensures { result ≡ got_seen self.entry }
    {
        match self {
            GotView::Mail(mail) => Got::Mail(mail_of(mail)),
            GotView::Repeat => Got::Repeat,
            GotView::Empty => Got::Empty,
            GotView::Bad(fault) => Got::Bad(fault),
        }
    }
}

impl OutwardSeat {
    /// The half at the end of its slave's bring-up.
    pub fn new(station: u16, len: u16) -> OutwardSeat
        requires { len ≤ 1486 }
        ensures { result ≡ record { station = station; len = len; last = 0; state = None } }
    {
        OutwardSeat {
            station,
            len,
            last: 0,
            holding: false,
            mail: error_mail(0),
        }
    }

    /// Takes up a mail of these parts where none is held; else nothing changes. The address is sent as it is: that
    /// it is 0, as on a segment, is for the caller to see to. Only the body's octets are copied.
    pub fn hold(&mut self, address: u16, kind: Kind, body: &[u8])
        requires fits { 6 + length body.now ≤ self.old.len }
        ensures half { seat_half self.new ≡ (let h = seat_half self.old in out_held h h.holding (Ok (mail_by address kind body.now))) }
        ensures station { self.new.station ≡ self.old.station }
        ensures len { self.new.len ≡ self.old.len }
    {
        if self.holding {
            return;
        }
        let counter = next_counter(self.last);
        self.mail.address = address;
        self.mail.kind = kind;
        self.mail.counter = counter;
        refill(&mut self.mail.body, body);
        self.last = counter;
        self.holding = true;
    }

    /// Its slave's station.
    pub fn station(&self) -> u16
        ensures { result ≡ self.now.station }
    {
        self.station
    }

    /// The length of mailbox 0.
    pub fn area_len(&self) -> u16
        ensures { result ≡ self.now.len }
    {
        self.len
    }

    /// Whether no mail is held.
    pub fn is_idle(&self) -> bool
        ensures { result ≡ is_none self.now.state }
    {
        !self.holding
    }

    /// The write of the mail held returned with this working counter. A lost one changes nothing.
    pub fn answered(&mut self, counter: u16)
        ensures half { seat_half self.new ≡ (let h = seat_half self.old in out_returned h h.holding counter) }
        ensures station { self.new.station ≡ self.old.station }
        ensures len { self.new.len ≡ self.old.len }
    {
        if counter != 0 {
            self.holding = false;
        }
    }

    /// The head of the datagram that writes the mail held, whose octets then read as that mail.
    pub fn head(&self, index: u8) -> Head
        ensures head { (m : Mail) → self.now.state ≡ Some m → result ≡ access_head self.now.station index (write_access self.now.len m) }
        ensures len { result.len ≡ self.now.len }
        ensures reads { (m : Mail) → self.now.state ≡ Some m → ReadsAs self.now.len m }
    {
        // The mail is looked at so that the proof has the ranges of its parts.
        let _addressed = self.mail.address;
        let _length = self.mail.body.len();
        head_of(self.station, index, Command::Fpwr, OUT_AREA, self.len)
    }

    /// Writes the datagram's body: the mail held, and zeros behind it.
    pub fn write(&self, area: &mut [u8])
        requires held { IsSome self.now.state }
        requires len { length area.old ≡ self.now.len }
        ensures text { (m : Mail) → self.now.state ≡ Some m → area.new ≡ mail_area self.now.len m }
        ensures reads { Some (mail_read area.new) ≡ option_map Ok self.now.state }
    {
        write(&self.mail, area);
    }
}

impl InwardHalf {
    /// Its datagram returned with this working counter and these octets; and what a read of mailbox 1
    /// gave by it, as it stands there.
    pub fn returned<'a>(&mut self, counter: u16, octets: &'a [u8]) -> Option<GotView<'a>>
        ensures half { in_half_of self.new ≡ (let h = in_half_of self.old in in_returned h h.state counter octets.now) }
        ensures got { option_map got_seen result ≡ (let h = in_half_of self.old in in_got h h.state counter octets.now) }
        ensures station { in_station self.new ≡ in_station self.old }
        ensures len { in_area_len self.new ≡ in_area_len self.old }
    {
        let half = mem::replace(self, InwardHalf::Clear(new_inward(0, 0)));
        let (half, got) = half.seen(counter, octets);
        *self = half;
        got
    }

    /// Its datagram was lost.
    pub fn gone(&mut self)
        ensures half { in_half_of self.new ≡ (let h = in_half_of self.old in in_lost h h.state) }
        ensures station { in_station self.new ≡ in_station self.old }
        ensures len { in_area_len self.new ≡ in_area_len self.old }
    {
        let half = mem::replace(self, InwardHalf::Clear(new_inward(0, 0)));
        *self = half.lost();
    }

    /// The head of its datagram.
    pub fn head(&self, index: u8) -> Head
        ensures { result ≡ access_head (in_station self.now) index (in_access_of self.now) }
    {
        match self {
            InwardHalf::Clear(clear) => clear.read_head(index),
            InwardHalf::Doubt(doubt) => head_of(doubt.station(), index, Command::Fpwr, ACTIVATE, 1),
            InwardHalf::Asked(asked) => head_of(
                asked.station(),
                index,
                Command::Fprd,
                PDI_CONTROL,
                1,
            ),
            InwardHalf::Refetch(refetch) => refetch.read_head(index),
        }
    }

    /// Writes its datagram's body.
    pub fn write(&self, body: &mut [u8])
        requires { length body.old ≡ length (in_access_of self.now).octets }
        ensures { body.new ≡ (in_access_of self.now).octets }
    {
        match self {
            InwardHalf::Doubt(doubt) => body[0] = if doubt.bit() {
                ENABLE + REPEAT
            } else {
                ENABLE
            },
            _ => body.fill(0),
        }
    }
}

// The body of its datagram, for whoever writes it into a frame; zeros while no mail is held.
impl Body for OutwardSeat {
    ghost use Rattle.mailbox_master.specs.Seat.{seat_octets};

    ghost octets = { seat_octets };

    fn len(&self) -> usize {
        self.len as usize
    }

    fn fill(&self, body: &mut [u8]) {
        if self.holding {
            self.write(body);
        } else {
            body.fill(0);
        }
    }
}

// The body of its datagram, for whoever writes it into a frame.
impl Body for InwardHalf {
    ghost use Rattle.mailbox_master.specs.Any.{in_access_of};

    ghost octets = { λ h. (in_access_of h).octets };

    fn len(&self) -> usize {
        match self {
            InwardHalf::Clear(clear) => clear.area_len() as usize,
            InwardHalf::Refetch(refetch) => refetch.area_len() as usize,
            _ => 1,
        }
    }

    fn fill(&self, body: &mut [u8]) {
        self.write(body);
    }
}
