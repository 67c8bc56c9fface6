//! A half in whichever state, for whoever keeps halves.

ghost use Rattle.std.specs.Prelude.{◌≡◌, ◌+◌, ◌≤◌, None, Some, Ok, is_none, IsSome, length, option_map};
ghost use Rattle.link_mails.specs.of_mailbox_mail.Mail.{mail_read};
ghost use Rattle.link_mails.specs.of_mailbox_mail.Area.{mail_area};
ghost use Rattle.std.specs.Option.{ForSome};
ghost use Rattle.mailbox_master.specs.Seat.{got_seen, IsWithin};
ghost use Rattle.link_mails.specs.of_link_model.Master.{in_lost};
ghost use Rattle.link_mails.specs.Body.{uncounted};
ghost use Rattle.mailbox_master.specs.Access.{access_head, write_access};
ghost use Rattle.mailbox_master.specs.Any.{out_half_of, out_station, out_len, out_held, out_returned, mail_held, in_half_of, in_station, in_area_len, in_returned, in_got, in_access_of, out_next_of, doubt_next_of, asked_next_of};

use crate::access::LinkState;
use crate::inward::{AskedNext, DoubtNext, Got, Inward};
use crate::outward::{OutNext, Outward};
use crate::seat::GotView;
use crate::states;
use arrayvec::ArrayVec;
use datagrams::Head;
use mailbox_mail::Mail;

/// The outward half of a link in whichever state.
#[derive(Drop)]
pub enum OutwardHalf {
    /// It holds no mail.
    Idle(Outward<states::Idle>),
    /// It holds a mail.
    Holding(Outward<states::Holding>),
}

/// The inward half of a link in whichever state.
#[derive(Drop)]
pub enum InwardHalf {
    /// Mailbox 1 may be read.
    Clear(Inward<states::Clear>),
    /// The repeat request is to be written.
    Doubt(Inward<states::Doubt>),
    /// The acknowledge is to be read.
    Asked(Inward<states::Asked>),
    /// Mailbox 1 may be read again.
    Refetch(Inward<states::Refetch>),
}

impl OutwardHalf {
    /// Takes up a mail where none is held; else nothing changes, and the mail is dropped.
    pub fn hold(self, mail: Mail) -> OutwardHalf
        requires { 6 + length mail.body.items ≤ out_len self }
        ensures half { out_half_of result ≡ (let h = out_half_of self in out_held h h.holding (Ok (uncounted mail))) }
        ensures station { out_station result ≡ out_station self }
        ensures len { out_len result ≡ out_len self }
    {
        match self {
            OutwardHalf::Idle(idle) => OutwardHalf::Holding(idle.hold(mail)),
            OutwardHalf::Holding(holding) => OutwardHalf::Holding(holding),
        }
    }

    /// Its slave's station.
    pub fn station(&self) -> u16
        ensures { result ≡ out_station self.now }
    {
        match self {
            OutwardHalf::Idle(idle) => idle.station(),
            OutwardHalf::Holding(holding) => holding.station(),
        }
    }

    /// The length of mailbox 0.
    pub fn area_len(&self) -> u16
        ensures { result ≡ out_len self.now }
    {
        match self {
            OutwardHalf::Idle(idle) => idle.area_len(),
            OutwardHalf::Holding(holding) => holding.area_len(),
        }
    }

    /// The datagram that writes the mail held, with this index: it replaces the head, and the contents of the body.
    pub fn datagram(&self, index: u8, head: &mut Head, body: &mut ArrayVec<u8, 1486>)
        requires held { IsSome (mail_held self.now) }
        ensures head { Some head.new ≡ option_map (λ m. access_head (out_station self.now) index (write_access (out_len self.now) m)) (mail_held self.now) }
        ensures body { Some body.new.items ≡ option_map (mail_area (out_len self.now)) (mail_held self.now) }
        ensures reads { Some (mail_read body.new.items) ≡ option_map Ok (mail_held self.now) }
    {
        match self {
            OutwardHalf::Idle(_) => {}
            OutwardHalf::Holding(holding) => holding.datagram(index, head, body),
        }
    }

    /// Whether no mail is held.
    pub fn is_idle(&self) -> bool
        ensures { result ≡ is_none (mail_held self.now) }
    {
        matches!(self, OutwardHalf::Idle(_))
    }

    /// The write of the mail held returned with this working counter.
    pub fn answered(self, counter: u16) -> OutwardHalf
        ensures half { out_half_of result ≡ (let h = out_half_of self in out_returned h h.holding counter) }
        ensures station { out_station result ≡ out_station self }
        ensures len { out_len result ≡ out_len self }
    {
        match self {
            OutwardHalf::Idle(idle) => OutwardHalf::Idle(idle),
            OutwardHalf::Holding(holding) => out_next(holding.answered(counter)),
        }
    }

    /// The write of the mail held was lost.
    pub fn lost(self) -> OutwardHalf
        ensures { result ≡ self }
    {
        match self {
            OutwardHalf::Idle(idle) => OutwardHalf::Idle(idle),
            OutwardHalf::Holding(holding) => OutwardHalf::Holding(holding.lost()),
        }
    }
}

impl InwardHalf {
    /// Its datagram returned with this working counter and these octets; and what a read of mailbox 1
    /// gave by it, `None` where the datagram was no such read.
    pub fn answered(self, counter: u16, octets: &[u8]) -> (InwardHalf, Option<Got>)
        ensures half { in_half_of result.0 ≡ (let h = in_half_of self in in_returned h h.state counter octets.now) }
        ensures got { result.1 ≡ (let h = in_half_of self in in_got h h.state counter octets.now) }
        ensures station { in_station result.0 ≡ in_station self }
        ensures len { in_area_len result.0 ≡ in_area_len self }
    {
        let (half, got) = self.seen(counter, octets);
        match got {
            Some(got) => (half, Some(got.owned())),
            None => (half, None),
        }
    }

    /// The same as [`answered`](InwardHalf::answered), and what the read gave as it stands in the area.
    pub fn seen<'a>(self, counter: u16, octets: &'a [u8]) -> (InwardHalf, Option<GotView<'a>>)
        ensures half { in_half_of result.0 ≡ (let h = in_half_of self in in_returned h h.state counter octets.now) }
        ensures got { option_map got_seen result.1 ≡ (let h = in_half_of self in in_got h h.state counter octets.now) }
        ensures within { ForSome result.1 IsWithin }
        ensures station { in_station result.0 ≡ in_station self }
        ensures len { in_area_len result.0 ≡ in_area_len self }
    {
        match self {
            InwardHalf::Clear(clear) => {
                let (clear, got) = clear.read_seen(counter, octets);
                (InwardHalf::Clear(clear), Some(got))
            }
            InwardHalf::Doubt(doubt) => (doubt_next(doubt.answered(counter)), None),
            InwardHalf::Asked(asked) => {
                let control = octets.first().copied().unwrap_or(0);
                (asked_next(asked.answered(counter, control)), None)
            }
            InwardHalf::Refetch(refetch) => {
                let (clear, got) = refetch.read_seen(counter, octets);
                (InwardHalf::Clear(clear), Some(got))
            }
        }
    }

    /// Its slave's station.
    pub fn station(&self) -> u16
        ensures { result ≡ in_station self.now }
    {
        match self {
            InwardHalf::Clear(clear) => clear.station(),
            InwardHalf::Doubt(doubt) => doubt.station(),
            InwardHalf::Asked(asked) => asked.station(),
            InwardHalf::Refetch(refetch) => refetch.station(),
        }
    }

    /// The length of mailbox 1.
    pub fn area_len(&self) -> u16
        ensures { result ≡ in_area_len self.now }
    {
        match self {
            InwardHalf::Clear(clear) => clear.area_len(),
            InwardHalf::Doubt(doubt) => doubt.area_len(),
            InwardHalf::Asked(asked) => asked.area_len(),
            InwardHalf::Refetch(refetch) => refetch.area_len(),
        }
    }

    /// Its datagram was lost.
    pub fn lost(self) -> InwardHalf
        ensures half { in_half_of result ≡ (let h = in_half_of self in in_lost h h.state) }
        ensures station { in_station result ≡ in_station self }
        ensures len { in_area_len result ≡ in_area_len self }
    {
        match self {
            InwardHalf::Clear(clear) => InwardHalf::Doubt(clear.lost()),
            InwardHalf::Doubt(doubt) => InwardHalf::Doubt(doubt.lost()),
            InwardHalf::Asked(asked) => InwardHalf::Asked(asked.lost()),
            InwardHalf::Refetch(refetch) => InwardHalf::Doubt(refetch.lost()),
        }
    }

    /// The datagram of its state, with this index.
    pub fn datagram(&self, index: u8, head: &mut Head, body: &mut ArrayVec<u8, 1486>)
        ensures head { head.new ≡ access_head (in_station self.now) index (in_access_of self.now) }
        ensures body { body.new.items ≡ (in_access_of self.now).octets }
    {
        match self {
            InwardHalf::Clear(clear) => clear.datagram(index, head, body),
            InwardHalf::Doubt(doubt) => doubt.datagram(index, head, body),
            InwardHalf::Asked(asked) => asked.datagram(index, head, body),
            InwardHalf::Refetch(refetch) => refetch.datagram(index, head, body),
        }
    }
}

fn out_next(next: OutNext) -> OutwardHalf
    ensures { result ≡ out_next_of next }
{
    match next {
        OutNext::Taken(idle) => OutwardHalf::Idle(idle),
        OutNext::Full(holding) => OutwardHalf::Holding(holding),
    }
}

fn doubt_next(next: DoubtNext) -> InwardHalf
    ensures { result ≡ doubt_next_of next }
{
    match next {
        DoubtNext::Still(doubt) => InwardHalf::Doubt(doubt),
        DoubtNext::Next(asked) => InwardHalf::Asked(asked),
    }
}

fn asked_next(next: AskedNext) -> InwardHalf
    ensures { result ≡ asked_next_of next }
{
    match next {
        AskedNext::Still(asked) => InwardHalf::Asked(asked),
        AskedNext::Next(refetch) => InwardHalf::Refetch(refetch),
    }
}
