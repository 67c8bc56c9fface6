//! The datagram of a visit.

ghost use Rattle.std.specs.Prelude.{◌≡◌, List, ◌++◌, ◌∷◌, [], Some, ◌-◌, ◌≤◌, ◌+◌, length};
ghost use Rattle.mailbox_master.specs.of_datagrams.Datagram as Raw;
ghost use Rattle.mailbox_master.specs.of_datagrams.Frame.{IsBegun, datagram_of};
ghost use Rattle.master_side.specs.Carried.{errand_carried};
ghost use Rattle.master_side.specs.Sent.{errand_gram, errand_octets, head_to, IsSent, IsWord};
ghost use Rattle.mailbox_master.specs.of_datagrams.declared.command.Command.TheVariants.{Fprd};

use crate::carried::{Carried, Wish};
use crate::hand::Hand;
use crate::passing::Passing;
use crate::side::Side;
use datagrams::register::{AL_CONTROL, AL_STATUS, MANAGER_0, MANAGER_STATUS};
use datagrams::{Command, FrameBuf};
use mailbox_master::{InwardHalf, head_of};
use master_duty::Errand;

impl<H: Hand> Side<H> {
    ghost use Rattle.std.specs.Prelude.{◌≡◌, ◌≤◌, ◌-◌, ℕ, List, ◌++◌, ◌∷◌, [], Option, Some, IsSome, is_some, length, true, false};
    ghost use Rattle.mailbox_master.specs.of_datagrams.Datagram as Raw;
    ghost use Rattle.mailbox_master.specs.of_datagrams.Frame.{IsBegun};
    ghost use Rattle.frame_view.specs.of_exchange_model.Exchange.{Speech};
    ghost use Rattle.mailbox_master.specs.of_link_mails.Body.{Body};
    ghost use Rattle.master_duty.specs.of_mailbox_mail.declared.mail.Mail.{Mail};
    ghost use Rattle.mailbox_master.specs.of_link_model.Link.{Halves};
    ghost use Rattle.master_duty.specs.of_segment_model.Slaves.{Access};
    ghost use Rattle.master_duty.specs.of_segment_model.Seats as Seats;
    ghost use Rattle.master_duty.specs.of_state_model.Accounts.{Account, duty_access};
    ghost use Rattle.frame_view.specs.View.{Lens, datagram_seen};
    ghost use Rattle.mailbox_master.specs.Any.{in_half_of, in_area_len, in_access_of};
    ghost use Rattle.mailbox_master.specs.Seat.{seat_half, ReadsAs};
    ghost use Rattle.master_duty.specs.Reply.{Reply};
    ghost use Rattle.master_side.specs.Carried.{Meant, choice_of, link_choice, drain_choice, in_hand};
    ghost use Rattle.master_side.specs.Sent.{IsSent, SameSide, visit_gram, write_gram, inward_gram, gram_len};
    ghost use Rattle.master_side.specs.Shown.{SideShows};
    ghost use Rattle.master_side.specs.Again.{HasNoRoom, IsOnWay, Repeats, area_of, next_len, sent_len};
    ghost use Rattle.master_side.specs.Free.{is_free_side};
    ghost use Rattle.master_side.specs.First.{first_of};
    ghost use Rattle.master_side.specs.declared.carried.Wish.{Wish};
    ghost use Rattle.master_side.specs.Sides.{HoldsNext, LinkStays, recall_in};
    ghost use Rattle.master_side.specs.declared.carried.Carried.{Carried};

    // The write of the mail held stands next.
    fn add_write(&self, index: u8, frame: &mut FrameBuf)
        requires held { IsSome self.now.out.state }
        requires begun { (ds : List Raw.Datagram) × IsBegun frame.old.items ds }
        requires room { self.now.out.len ≤ 1514 - length frame.old.items - 12 }
        ensures begun { (ds : List Raw.Datagram) → IsBegun frame.old.items ds → IsBegun frame.new.items (ds ++ write_gram index self.now.out self.now.out.state ∷ []) }
        ensures sent { IsSent self.now.area (write_gram index self.now.out self.now.out.state) }
        ensures reads { (m : Mail) → self.now.out.state ≡ Some m → ReadsAs self.now.out.len m }
        ensures grows { length frame.new.items ≡ length frame.old.items + (12 + self.now.out.len) }
    {
        let head = self.out.head(index);
        datagrams::add_with(frame, &head, &self.out);
    }

    // The datagram of the inward half does.
    fn add_inward(&self, index: u8, frame: &mut FrameBuf)
        requires begun { (ds : List Raw.Datagram) × IsBegun frame.old.items ds }
        requires room { length (in_access_of self.now.inn).octets ≤ 1514 - length frame.old.items - 12 }
        ensures begun { (ds : List Raw.Datagram) → IsBegun frame.old.items ds → IsBegun frame.new.items (ds ++ inward_gram index self.now.inn ∷ []) }
        ensures sent { IsSent self.now.area (inward_gram index self.now.inn) }
        ensures grows { length frame.new.items ≡ length frame.old.items + (12 + length (in_access_of self.now.inn).octets) }
    {
        let head = self.inn.head(index);
        datagrams::add_with(frame, &head, &self.inn);
    }

    // The datagram of the link: the write of a mail held, or the inward half's.
    fn add_link(&self, index: u8, frame: &mut FrameBuf) -> Carried
        requires begun { (ds : List Raw.Datagram) × IsBegun frame.old.items ds }
        requires room { gram_len self.now.out self.now.inn (link_choice (in_half_of self.now.inn).state self.now.paused self.now.out.state) ≤ 1514 - length frame.old.items - 12 }
        ensures order { result ≡ link_choice (in_half_of self.now.inn).state self.now.paused self.now.out.state }
        ensures begun { (ds : List Raw.Datagram) → IsBegun frame.old.items ds → IsBegun frame.new.items (ds ++ visit_gram self.now.station index self.now.out self.now.inn self.now.duty result ∷ []) }
        ensures sent { IsSent self.now.area (visit_gram self.now.station index self.now.out self.now.inn self.now.duty result) }
        ensures meant { (lens : ℕ → Lens) (due : Option Access) (h : Halves Body) → (lens self.now.station).out ≡ self.now.out.len → (lens self.now.station).back ≡ in_area_len self.now.inn → h ≡ record { out = seat_half self.now.out; inn = in_half_of self.now.inn } →
            Meant self.now.station result h due (datagram_seen lens (visit_gram self.now.station index self.now.out self.now.inn self.now.duty result)) }
        ensures grows { length frame.new.items ≡ length frame.old.items + (12 + gram_len self.now.out self.now.inn result) }
    {
        if !self.paused && matches!(self.inn, InwardHalf::Clear(_)) && !self.out.is_idle() {
            self.add_write(index, frame);
            return Carried::Write;
        }
        self.add_inward(index, frame);
        Carried::Inward
    }

    // The status of mailbox 0 and mailbox 1 in turn.
    fn add_drain(&self, index: u8, frame: &mut FrameBuf) -> Carried
        requires begun { (ds : List Raw.Datagram) × IsBegun frame.old.items ds }
        requires room { gram_len self.now.out self.now.inn (drain_choice (in_half_of self.now.inn).state self.now.turn) ≤ 1514 - length frame.old.items - 12 }
        ensures order { result ≡ drain_choice (in_half_of self.now.inn).state self.now.turn }
        ensures begun { (ds : List Raw.Datagram) → IsBegun frame.old.items ds → IsBegun frame.new.items (ds ++ visit_gram self.now.station index self.now.out self.now.inn self.now.duty result ∷ []) }
        ensures sent { IsSent self.now.area (visit_gram self.now.station index self.now.out self.now.inn self.now.duty result) }
        ensures meant { (lens : ℕ → Lens) (due : Option Access) (h : Halves Body) → (lens self.now.station).out ≡ self.now.out.len → (lens self.now.station).back ≡ in_area_len self.now.inn → h ≡ record { out = seat_half self.now.out; inn = in_half_of self.now.inn } →
            Meant self.now.station result h due (datagram_seen lens (visit_gram self.now.station index self.now.out self.now.inn self.now.duty result)) }
        ensures grows { length frame.new.items ≡ length frame.old.items + (12 + gram_len self.now.out self.now.inn result) }
    {
        if !self.turn && matches!(self.inn, InwardHalf::Clear(_)) {
            add_full(self.station, index, frame);
            return Carried::Full;
        }
        self.add_inward(index, frame);
        Carried::Inward
    }

    // The datagram of this visit.
    fn add(&self, index: u8, frame: &mut FrameBuf) -> Carried
        requires begun { (ds : List Raw.Datagram) × IsBegun frame.old.items ds }
        requires room { gram_len self.now.out self.now.inn (choice_of self.now.duty self.now.passing (in_half_of self.now.inn).state self.now.turn self.now.paused self.now.out.state) ≤ 1514 - length frame.old.items - 12 }
        ensures order { result ≡ choice_of self.now.duty self.now.passing (in_half_of self.now.inn).state self.now.turn self.now.paused self.now.out.state }
        ensures begun { (ds : List Raw.Datagram) → IsBegun frame.old.items ds → IsBegun frame.new.items (ds ++ visit_gram self.now.station index self.now.out self.now.inn self.now.duty result ∷ []) }
        ensures sent { IsSent self.now.area (visit_gram self.now.station index self.now.out self.now.inn self.now.duty result) }
        ensures meant { (x : Speech Body H.Asked Reply) (lens : ℕ → Lens) (d : Seats.Side Body H.Asked Reply) (a : Account H.Asked Reply) → (lens self.now.station).out ≡ self.now.out.len → (lens self.now.station).back ≡ in_area_len self.now.inn → SideShows (H.shows self.now.hand x) self.now.out self.now.inn self.now.fresh self.now.duty d a →
            Meant self.now.station result d.halves (duty_access a.hand) (datagram_seen lens (visit_gram self.now.station index self.now.out self.now.inn self.now.duty result)) }
        ensures grows { length frame.new.items ≡ length frame.old.items + (12 + gram_len self.now.out self.now.inn result) }
    {
        match self.state_in_hand() {
            None => match self.passing {
                Some(Passing::Boxed) => self.add_drain(index, frame),
                _ => self.add_link(index, frame),
            },
            Some(duty) => match duty.errand() {
                None => self.add_drain(index, frame),
                Some(errand) => add_errand(errand, self.station, index, frame),
            },
        }
    }

    // The status of mailbox 0 or mailbox 1, in turn.
    fn drain_turn(&self) -> Carried
        ensures { result ≡ drain_choice (in_half_of self.now.inn).state self.now.turn }
    {
        if !self.turn && matches!(self.inn, InwardHalf::Clear(_)) {
            Carried::Full
        } else {
            Carried::Inward
        }
    }

    // The write of a mail held, or the inward half's.
    fn link_turn(&self) -> Carried
        ensures { result ≡ link_choice (in_half_of self.now.inn).state self.now.paused self.now.out.state }
    {
        if !self.paused && matches!(self.inn, InwardHalf::Clear(_)) && !self.out.is_idle() {
            Carried::Write
        } else {
            Carried::Inward
        }
    }

    // Which datagram a visit sends.
    fn choice(&self) -> Carried
        ensures { result ≡ choice_of self.now.duty self.now.passing (in_half_of self.now.inn).state self.now.turn self.now.paused self.now.out.state }
    {
        match self.state_in_hand() {
            None => match self.passing {
                Some(Passing::Boxed) => self.drain_turn(),
                _ => self.link_turn(),
            },
            Some(duty) => match duty.errand() {
                None => self.drain_turn(),
                Some(errand) => carried_by(errand),
            },
        }
    }

    // How many octets this datagram has.
    fn len_of(&self, carried: Carried) -> usize
        ensures is { result ≡ gram_len self.now.out self.now.inn carried }
        ensures most { result ≤ 1486 }
        ensures area { result ≤ area_of self.now }
    {
        match carried {
            Carried::Nothing => 0,
            Carried::Write => self.out_len as usize,
            Carried::Inward => self.inn.head(0).len as usize,
            Carried::Full => 1,
            Carried::Control => 2,
            Carried::Status => 6,
        }
    }

    // How many octets the first datagram of a service has that comes into hand: a drain begins with the status, mails with their write.
    fn first_len(&self, wish: Wish) -> usize
        ensures most { result ≤ 1486 }
        ensures area { result ≤ area_of self.now }
        ensures again { in_hand self.now.duty ≡ None → self.now.passing ≡ None → Repeats self.now → result ≤ sent_len self.now }
        ensures is { result ≡ first_of self.now wish }
    {
        if !matches!(self.inn, InwardHalf::Clear(_)) {
            return self.len_of(Carried::Inward);
        }
        match wish {
            Wish::State(_) => self.len_of(Carried::Full),
            Wish::Mails if self.paused => self.len_of(Carried::Inward),
            Wish::Mails => self.len_of(Carried::Write),
        }
    }

    /// How many octets the datagram of a visit with this wish has. Where no service may come into hand by it, the next mail is held; else the side stays
    /// as it is.
    pub fn ahead(&mut self, wish: Option<Wish>) -> usize
        ensures shown { HoldsNext self.old self.new }
        ensures link { LinkStays self.old self.new }
        ensures script { H.script self.new.hand ≡ H.script self.old.hand }
        ensures passing { self.new.passing ≡ self.old.passing }
        ensures awaits { H.awaits self.old.hand ≡ true → H.awaits self.new.hand ≡ true }
        ensures read { (self.new.read_at ≡ self.old.read_at) × (self.new.pace ≡ self.old.pace) }
        ensures most { result ≤ 1486 }
        ensures join { H.join self.new.hand ≡ H.join self.old.hand }
        ensures area { result ≤ area_of self.old }
        ensures again { Repeats self.old → Repeats self.new × (sent_len self.new ≡ sent_len self.old) × (result ≤ sent_len self.old) }
        ensures recalled { recall_in self.new ≡ recall_in self.old }
        ensures still { is_free_side self.old ≡ true → is_some wish ≡ true → self.new ≡ self.old }
        ensures first { is_free_side self.old ≡ true → (w : Wish) → wish ≡ Some w → result ≡ first_of self.old w }
    {
        match wish {
            Some(wish) if self.is_free() => self.first_len(wish),
            _ => {
                self.hold_next();
                self.len_of(self.choice())
            }
        }
    }

    /// The datagram of this visit stands next in the frame; `false` where the frame has no room for it, and then it is as it was.
    pub fn add_datagram(&mut self, index: u8, frame: &mut FrameBuf) -> bool
        requires begun { (ds : List Raw.Datagram) × IsBegun frame.old.items ds }
        ensures order { result ≡ true → self.new.carried ≡ choice_of self.old.duty self.old.passing (in_half_of self.old.inn).state self.old.turn self.old.paused self.old.out.state }
        ensures begun { (ds : List Raw.Datagram) → IsBegun frame.old.items ds → result ≡ true → IsBegun frame.new.items (ds ++ visit_gram self.old.station index self.old.out self.old.inn self.old.duty self.new.carried ∷ []) }
        ensures sent { result ≡ true → IsSent self.old.area (visit_gram self.old.station index self.old.out self.old.inn self.old.duty self.new.carried) }
        ensures meant { result ≡ true → (x : Speech Body H.Asked Reply) (lens : ℕ → Lens) (d : Seats.Side Body H.Asked Reply) (a : Account H.Asked Reply) → (lens self.old.station).out ≡ self.old.out.len → (lens self.old.station).back ≡ in_area_len self.old.inn → SideShows (H.shows self.old.hand x) self.old.out self.old.inn self.old.fresh self.old.duty d a →
            Meant self.old.station self.new.carried d.halves (duty_access a.hand) (datagram_seen lens (visit_gram self.old.station index self.old.out self.old.inn self.old.duty self.new.carried)) }
        ensures full { result ≡ false → frame.new.items ≡ frame.old.items }
        ensures room { length frame.old.items ≡ 16 → result ≡ true }
        ensures kept { SameSide self.old.out self.old.inn self.old.fresh self.old.duty self.new.out self.new.inn self.new.fresh self.new.duty }
        ensures hand { (self.new.hand ≡ self.old.hand) × (self.new.passing ≡ self.old.passing) }
        ensures read { (self.new.read_at ≡ self.old.read_at) × (self.new.pace ≡ self.old.pace) }
        ensures link { (self.new.station ≡ self.old.station) × (self.new.area ≡ self.old.area) }
        ensures long { result ≡ false → HasNoRoom frame.old.items (next_len self.old) }
        ensures area { result ≡ false → HasNoRoom frame.old.items (area_of self.old) }
        ensures grows { result ≡ true → length frame.new.items ≡ length frame.old.items + (12 + sent_len self.new) }
        ensures way { result ≡ true → IsOnWay self.new × (sent_len self.new ≡ next_len self.old) }
        ensures recalled { (self.new.paused ≡ self.old.paused) × (self.new.turn ≡ self.old.turn) }
    {
        self.heard = None;
        if self.len_of(self.choice()) > datagrams::room(frame) {
            return false;
        }
        let carried = self.add(index, frame);
        self.carried = carried;
        true
    }
}

// Which datagram an access of a state service is.
fn carried_by(errand: Errand) -> Carried
    ensures { result ≡ errand_carried errand }
{
    match errand {
        Errand::Write(_) => Carried::Control,
        Errand::ReadStatus => Carried::Status,
    }
}

// The read of the status octet of mailbox 0 stands next.
fn add_full(station: u16, index: u8, frame: &mut FrameBuf)
    requires begun { (ds : List Raw.Datagram) × IsBegun frame.old.items ds }
    requires room { 1 ≤ 1514 - length frame.old.items - 12 }
    ensures begun { (ds : List Raw.Datagram) → IsBegun frame.old.items ds → IsBegun frame.new.items (ds ++ datagram_of (head_to Fprd station index 2053 1) (0 ∷ []) ∷ []) }
    ensures grows { length frame.new.items ≡ length frame.old.items + (12 + 1) }
{
    let head = head_of(station, index, Command::Fprd, MANAGER_0 + MANAGER_STATUS, 1);
    datagrams::add(frame, &head, &[0]);
}

// The access of a state service stands next.
fn add_errand(errand: Errand, station: u16, index: u8, frame: &mut FrameBuf) -> Carried
    requires begun { (ds : List Raw.Datagram) × IsBegun frame.old.items ds }
    requires room { length (errand_octets errand) ≤ 1514 - length frame.old.items - 12 }
    ensures order { result ≡ errand_carried errand }
    ensures begun { (ds : List Raw.Datagram) → IsBegun frame.old.items ds → IsBegun frame.new.items (ds ++ errand_gram station index (Some errand) ∷ []) }
    ensures sent { IsSent 64 (errand_gram station index (Some errand)) }
    ensures word { IsWord errand }
    ensures grows { length frame.new.items ≡ length frame.old.items + (12 + length (errand_octets errand)) }
{
    match errand {
        Errand::Write(word) => {
            let head = head_of(station, index, Command::Fpwr, AL_CONTROL, 2);
            datagrams::add(frame, &head, &word.to_le_bytes());
            Carried::Control
        }
        Errand::ReadStatus => {
            let head = head_of(station, index, Command::Fprd, AL_STATUS, 6);
            datagrams::add(frame, &head, &[0; 6]);
            Carried::Status
        }
    }
}
