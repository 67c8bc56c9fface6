//! The inward half: it reads mailbox 1, and after a lost read makes the repeat handshake first.

ghost use Rattle.std.specs.Prelude.{◌≡◌, ◌≢◌, ◌≤◌, ◌==◌, ◌||◌, false, None, List, [], ◌++◌, length, replicate};
ghost use Rattle.link_mails.specs.of_mailbox_mail.Mail.{mail_read};
ghost use Rattle.link_mails.specs.of_link_model.Mails.{differs};
ghost use Rattle.link_mails.specs.of_link_model.Master.{InState, read_answered, read_lost, doubt_answered, asked_answered};
ghost use Rattle.link_mails.specs.of_link_model.Slave.{InSide};
ghost use Rattle.link_mails.specs.of_link_model.Agree.{InAgree};
ghost use Rattle.link_mails.specs.Body.{Body, mail_brought, bit_1};
ghost use Rattle.mailbox_master.specs.Halves.{in_half, SameIn};
ghost use Rattle.mailbox_master.specs.Steps.{empty_side, AgreesRead, AgreesLost, AgreesRequested, AgreesUnrequested, AgreesAcknowledged, AgreesUnread};
ghost use Rattle.mailbox_master.specs.Seat.{got_seen, IsWithin};
ghost use Rattle.mailbox_master.specs.Access.{access_head, read_access};
ghost use Rattle.mailbox_master.specs.Next.{got_by, accepted_by, doubt_next_half, is_still_doubt, SameDoubtNext, asked_next_half, is_still_asked, SameAskedNext};

use crate::access::{ACTIVATE, ENABLE, LinkState, PDI_CONTROL, REPEAT, fill_blank, head_of};
use crate::seat::GotView;
use crate::states::{Asked, Clear, Doubt, Refetch};
use arrayvec::ArrayVec;
use datagrams::register::IN_AREA;
use datagrams::{Command, Head};
use ec_fields::buffer_of;
use link_mails::is_repeat;
use mailbox_mail::{Mail, MailFault, view};
use std::marker::Model;

/// The inward half of a link in the state `S`: it reads mailbox 1 of one slave.
#[derive(Drop)]
pub struct Inward<S> {
    station: u16,
    len: u16,
    last: u8,
    bit: bool,
    state: S,
}

impl<S> Model for Inward<S> {
    ghost use Rattle.std.specs.Prelude.{◌≤◌};
    ghost use Rattle.mailbox_master.specs.Links.{InLink};

    ghost Value = { InLink S };

    ghost view = { λ i. record { station = i.station; len = i.len; last = i.last; bit = i.bit; state = i.state } };

    ghost invariant = { λ i. i.len ≤ 1486 };
}

/// What a returned read of mailbox 1 gave.
#[derive(Drop)]
pub enum Got {
    /// A mail that was not accepted before.
    Mail(Mail),
    /// The last accepted mail once more.
    Repeat,
    /// Mailbox 1 was empty: the working counter is 0.
    Empty,
    /// The area is no mail.
    Bad(MailFault),
}

/// What a half in doubt has become by the answer to the write of its repeat request.
#[derive(Drop)]
pub enum DoubtNext {
    /// The write was not done.
    Still(Inward<Doubt>),
    /// The request stands in the register.
    Next(Inward<Asked>),
}

/// What a half that asked has become by the answer to its read of the acknowledge.
#[derive(Drop)]
pub enum AskedNext {
    /// The read was not done, or the acknowledge does not equal the request yet.
    Still(Inward<Asked>),
    /// The request is acknowledged.
    Next(Inward<Refetch>),
}

/// The inward half at the end of its slave's bring-up: mailbox 1 has this length, no mail was read yet, and the repeat
/// request is clear.
pub fn new_inward(station: u16, len: u16) -> Inward<Clear>
    requires { len ≤ 1486 }
    ensures value { result ≡ record { station = station; len = len; last = 0; bit = false; state = record {} } }
    ensures agrees { InAgree (in_half InState.Clear result) empty_side [] [] }
{
    Inward {
        station,
        len,
        last: 0,
        bit: false,
        state: Clear,
    }
}

impl<S> Inward<S> {
    // Its slave's station.
    pub fn station(&self) -> u16
        ensures { result ≡ self.now.station }
    {
        self.station
    }

    // The length of mailbox 1.
    pub fn area_len(&self) -> u16
        ensures { result ≡ self.now.len }
    {
        self.len
    }

    // Its repeat request.
    pub fn bit(&self) -> bool
        ensures { result ≡ self.now.bit }
    {
        self.bit
    }

    // The head of a read of mailbox 1.
    pub fn read_head(&self, index: u8) -> Head
        ensures { result ≡ access_head self.now.station index (read_access self.now.len) }
    {
        head_of(self.station, index, Command::Fprd, IN_AREA, self.len)
    }
}

impl<S: Drop> Inward<S> {
    // The same half in another state, with this request.
    fn into_state<T>(self, bit: bool, state: T) -> Inward<T>
        ensures { result ≡ record { station = self.station; len = self.len; last = self.last; bit = bit; state = state } }
    {
        let Inward {
            station,
            len,
            last,
            ..
        } = self;
        Inward {
            station,
            len,
            last,
            bit,
            state,
        }
    }

    // The half behind a returned read of mailbox 1, and what that gave as it stands in the area.
    pub fn read_seen<'a>(self, counter: u16, area: &'a [u8]) -> (Inward<Clear>, GotView<'a>)
        ensures half { in_half InState.Clear result.0 ≡ read_answered (in_half InState.Clear self) (mail_brought counter (mail_read area.now)) }
        ensures got { got_seen result.1 ≡ got_by self.last counter (mail_read area.now) }
        ensures within { IsWithin result.1 }
        ensures link { SameIn self result.0 }
    {
        let last = self.last;
        let bit = self.bit;
        let clear = self.into_state(bit, Clear);
        if counter == 0 {
            return (clear, GotView::Empty);
        }
        match view(area) {
            Err(fault) => (clear, GotView::Bad(fault)),
            Ok(mail) if is_repeat(last, mail.counter) => (clear, GotView::Repeat),
            Ok(mail) => (clear.with_last(mail.counter), GotView::Mail(mail)),
        }
    }

    // The half behind a returned read of mailbox 1, and what that gave.
    fn read_back(self, counter: u16, area: &[u8]) -> (Inward<Clear>, Got)
        ensures half { in_half InState.Clear result.0 ≡ read_answered (in_half InState.Clear self) (mail_brought counter (mail_read area.now)) }
        ensures got { result.1 ≡ got_by self.last counter (mail_read area.now) }
        ensures link { SameIn self result.0 }
    {
        let (clear, got) = self.read_seen(counter, area);
        (clear, got.owned())
    }
}

impl Inward<Clear> {
    // The half that accepted a mail with this counter.
    fn with_last(self, counter: u8) -> Inward<Clear>
        ensures { result ≡ record { station = self.station; len = self.len; last = counter; bit = self.bit; state = record {} } }
    {
        let Inward {
            station,
            len,
            bit,
            ..
        } = self;
        Inward {
            station,
            len,
            last: counter,
            bit,
            state: Clear,
        }
    }

    /// The read returned with this working counter and this area.
    pub fn answered(self, counter: u16, area: &[u8]) -> (Inward<Clear>, Got)
        ensures half { in_half InState.Clear result.0 ≡ read_answered (in_half InState.Clear self) (mail_brought counter (mail_read area.now)) }
        ensures got { result.1 ≡ got_by self.last counter (mail_read area.now) }
        ensures link { SameIn self result.0 }

        // Where a slave that agrees met the read, and this is what stood in its mailbox 1.
        ensures agrees { AgreesRead (in_half InState.Clear self) (in_half InState.Clear result.0) counter area.now result.1 }
    {
        self.read_back(counter, area)
    }

    /// The read was lost: the slave may have met it or not, and the repeat request is inverted.
    pub fn lost(self) -> Inward<Doubt>
        ensures half { in_half InState.Doubt result ≡ read_lost (in_half InState.Clear self) }
        ensures link { SameIn self result }

        // Whether the slave met the read or not.
        ensures agrees { AgreesLost (in_half InState.Clear self) (in_half InState.Doubt result) }
    {
        let inverted = !self.bit;
        self.into_state(inverted, Doubt)
    }
}

impl Inward<Doubt> {
    /// The write of the repeat request returned with this working counter.
    pub fn answered(self, counter: u16) -> DoubtNext
        ensures half { doubt_next_half result ≡ doubt_answered (in_half InState.Doubt self) counter }
        ensures still { is_still_doubt result ≡ (counter == 0) }
        ensures link { SameDoubtNext self result }

        // Where a slave that agrees met the write, if the counter says so.
        ensures agrees { AgreesRequested (in_half InState.Doubt self) (doubt_next_half result) counter }
    {
        if counter == 0 {
            return DoubtNext::Still(self);
        }
        let bit = self.bit;
        DoubtNext::Next(self.into_state(bit, Asked))
    }

    /// The write was lost: the same request is to be written again.
    pub fn lost(self) -> Inward<Doubt>
        ensures same { result ≡ self }

        // Whether the slave met the write or not.
        ensures agrees { AgreesUnrequested (in_half InState.Doubt self) (in_half InState.Doubt result) }
    {
        self // the same request
    }
}

impl Inward<Asked> {
    /// The read of the acknowledge returned with this working counter and this PDI control octet.
    pub fn answered(self, counter: u16, control: u8) -> AskedNext
        ensures half { asked_next_half result ≡ asked_answered (in_half InState.Asked self) counter (bit_1 control) }
        ensures still { is_still_asked result ≡ ((counter == 0) || differs (bit_1 control) self.bit) }
        ensures link { SameAskedNext self result }

        // Where this is the acknowledge of a slave that agrees.
        ensures agrees { AgreesAcknowledged (in_half InState.Asked self) (asked_next_half result) control }
    {
        let acknowledge = control / 2 % 2 == 1;
        if counter == 0 || acknowledge != self.bit {
            return AskedNext::Still(self);
        }
        let bit = self.bit;
        AskedNext::Next(self.into_state(bit, Refetch))
    }

    /// The read was lost: the acknowledge is to be read again.
    pub fn lost(self) -> Inward<Asked>
        ensures same { result ≡ self }
        ensures agrees { AgreesUnread (in_half InState.Asked self) (in_half InState.Asked result) }
    {
        self
    }
}

impl Inward<Refetch> {
    /// The read of mailbox 1 returned with this working counter and this area.
    pub fn answered(self, counter: u16, area: &[u8]) -> (Inward<Clear>, Got)
        ensures half { in_half InState.Clear result.0 ≡ read_answered (in_half InState.Refetch self) (mail_brought counter (mail_read area.now)) }
        ensures got { result.1 ≡ got_by self.last counter (mail_read area.now) }
        ensures link { SameIn self result.0 }

        // Where a slave that agrees met the read, and this is what stood in its mailbox 1.
        ensures agrees { AgreesRead (in_half InState.Refetch self) (in_half InState.Clear result.0) counter area.now result.1 }
    {
        self.read_back(counter, area)
    }

    /// The read was lost: the repeat request is inverted again.
    pub fn lost(self) -> Inward<Doubt>
        ensures half { in_half InState.Doubt result ≡ read_lost (in_half InState.Refetch self) }
        ensures link { SameIn self result }

        // Whether the slave met the read or not.
        ensures agrees { AgreesLost (in_half InState.Refetch self) (in_half InState.Doubt result) }
    {
        let bit = !self.bit;
        self.into_state(bit, Doubt)
    }
}

impl LinkState for Inward<Clear> {
    ghost use Rattle.mailbox_master.specs.Access.{read_access};

    ghost station = { λ i. i.station };

    ghost access = { λ i. read_access i.len };

    fn datagram(&self, index: u8, head: &mut Head, body: &mut ArrayVec<u8, 1486>) {
        *head = head_of(self.station, index, Command::Fprd, IN_AREA, self.len);
        fill_blank(self.len, body);
    }
}

impl LinkState for Inward<Doubt> {
    ghost use Rattle.mailbox_master.specs.Access.{request_access};

    ghost station = { λ i. i.station };

    ghost access = { λ i. request_access i.bit };

    fn datagram(&self, index: u8, head: &mut Head, body: &mut ArrayVec<u8, 1486>) {
        *head = head_of(self.station, index, Command::Fpwr, ACTIVATE, 1);
        let activate = if self.bit { ENABLE + REPEAT } else { ENABLE };
        *body = buffer_of(&[activate]);
    }
}

impl LinkState for Inward<Asked> {
    ghost use Rattle.mailbox_master.specs.Access.{acknowledge_access};

    ghost station = { λ i. i.station };

    ghost access = { λ i. acknowledge_access };

    fn datagram(&self, index: u8, head: &mut Head, body: &mut ArrayVec<u8, 1486>) {
        *head = head_of(self.station, index, Command::Fprd, PDI_CONTROL, 1);
        *body = buffer_of(&[0]);
    }
}

impl LinkState for Inward<Refetch> {
    ghost use Rattle.mailbox_master.specs.Access.{read_access};

    ghost station = { λ i. i.station };

    ghost access = { λ i. read_access i.len };

    fn datagram(&self, index: u8, head: &mut Head, body: &mut ArrayVec<u8, 1486>) {
        *head = head_of(self.station, index, Command::Fprd, IN_AREA, self.len);
        fill_blank(self.len, body);
    }
}
