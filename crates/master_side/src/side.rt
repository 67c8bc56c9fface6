ghost use Rattle.std.specs.Prelude.{◌≡◌, ℕ, nat_le, true};
ghost use Rattle.mailbox_master.specs.Any.{in_area_len, in_half_of, in_station};
ghost use Rattle.master_side.specs.Carried.{in_hand, is_behind_errand, is_by_half, is_errand};

use crate::back::{duty_left, duty_met, view_in};
use crate::carried::{Carried, Target, Wish};
use crate::hand::{Hand, Heard};
use crate::passing::{Passing, empty, heard, status_passed, told, written};
use mailbox_mail::MailView;
use mailbox_master::{InwardHalf, OutwardSeat, new_inward};
use master_duty::{Duty, Met};

/// One slave as its master has it while it is open.
#[derive(Drop)]
pub struct Side<H: Hand> {
    /// Its station.
    pub station: u16,
    /// The lengths of mailbox 0 and mailbox 1 in octets, 64 to 1,486.
    pub out_len: u16,
    pub in_len: u16,
    /// The length of the larger one.
    pub area: u16,
    /// The outward half of its link, with the place of the mail held.
    pub out: OutwardSeat,
    /// The inward half.
    pub inn: InwardHalf,
    /// The mail held was not yet sent.
    pub fresh: bool,
    /// The last write came back and was not done, and no read has come back since.
    pub paused: bool,
    /// The service by mails in hand.
    pub hand: H,
    /// The newest state service since the slave was opened: in hand, or how it ended.
    pub duty: Option<Met>,
    /// Where mailboxes are read in turn, mailbox 1 is next, and not the status of mailbox 0.
    pub turn: bool,
    /// How far the mail in hand that is passed on has come.
    pub passing: Option<Passing>,
    /// The frame that brought the last done read of mailbox 1.
    pub read_at: Option<u32>,
    /// The slave's processor steps behind each frame whose number and 1 this divides.
    pub pace: u32,
    /// The datagram in the frame under way.
    pub carried: Carried,
    /// What the mail that the last returned frame brought is to the service in hand.
    pub heard: Option<Heard>,
    pub ghost room: { out.len ≡ H.room hand },
    pub ghost out_len_is: { out.len ≡ out_len },
    pub ghost in_len_is: { in_area_len inn ≡ in_len },
    pub ghost out_is: { out.station ≡ station },
    pub ghost in_is: { in_station inn ≡ station },
    pub ghost out_least: { nat_le 64 out.len ≡ true },
    pub ghost in_least: { nat_le 64 (in_area_len inn) ≡ true },
    pub ghost out_most: { nat_le out.len area ≡ true },
    pub ghost in_most: { nat_le (in_area_len inn) area ≡ true },
    pub ghost most: { nat_le area 1486 ≡ true },
    pub ghost paced: { nat_le 1 pace ≡ true },
    pub ghost by_half: { is_by_half carried (in_half_of inn).state ≡ true },
    pub ghost behind: { is_behind_errand (in_hand duty) carried ≡ true },
}

impl<H: Hand> Side<H> {
    ghost use Rattle.std.specs.Prelude.{◌≡◌, ◌≤◌, ◌==◌, ◌&&◌, not, ℕ, true, false, List, Option, Some, None, IfSome, is_some, length, if◌then◌else◌};
    ghost use Rattle.frame_view.specs.of_exchange_model.Exchange.{Speech};
    ghost use Rattle.mailbox_master.specs.of_link_mails.Body.{Body};
    ghost use Rattle.master_duty.specs.of_state_model.Accounts.{new_account};
    ghost use Rattle.mailbox_master.specs.Any.{in_half_of, in_area_len};
    ghost use Rattle.master_duty.specs.Reply.{Reply};
    ghost use Rattle.master_duty.specs.declared.duty.Duty.{Duty};
    ghost use Rattle.master_side.specs.Carried.{in_hand, is_errand, one};
    ghost use Rattle.master_side.specs.Passes.{told_by, empty_where};
    ghost use Rattle.master_side.specs.Passing.{passing_behind, counts_at};
    ghost use Rattle.master_side.specs.Again.{HoldsOn, IsOnWay, Repeats, SendsAtMost, sent_len};
    ghost use Rattle.master_side.specs.Heard.{heard_of, Brought};
    ghost use Rattle.master_side.specs.Free.{is_free_side, begins_by};
    ghost use Rattle.master_side.specs.First.{SendsFirst};
    ghost use Rattle.master_side.specs.Shown.{new_side, wish_begun, takes_ready};
    ghost use Rattle.master_side.specs.Sides.{ShowsOf, ShowsNew, PassingOf, LinkStays, recall_in, HoldsNext, LeavesNone, FreeSays, FreeWhere, NoneMissed, BeginsIn, MailsBegin, StateBegins, PicksIn, PassesIn, StaysPlain};
    ghost use Rattle.master_side.specs.Returns.{CameBack, ReadsAlone, LostShows, LostPasses, LostRecalls, LostWrite, HearsShown, HearsPassing, HearsReplied, HearsJoined, HearsKnown};
    ghost use Rattle.master_side.specs.declared.carried.Carried.{Carried};
    ghost use Rattle.master_side.specs.declared.carried.Wish.{Wish};

    /// A slave at the end of its bring-up. The lengths are those of its mailboxes, 64 to 1,486 octets.
    pub fn new(station: u16, out_len: u16, in_len: u16, pace: u32, hand: H) -> Side<H>
        requires out_least { 64 ≤ out_len }
        requires out_most { out_len ≤ 1486 }
        requires in_least { 64 ≤ in_len }
        requires in_most { in_len ≤ 1486 }
        requires pace { 1 ≤ pace }
        requires room { H.room hand ≡ out_len }
        ensures shown { (x : Speech Body H.Asked Reply) → H.shows hand x None → ShowsOf result x new_side new_account }
        ensures link { (result.out.len ≡ out_len) × (in_area_len result.inn ≡ in_len) × (result.station ≡ station) }
        ensures hand { (result.hand ≡ hand) × (result.passing ≡ None) }
        ensures read { (result.read_at ≡ None) × (result.pace ≡ pace) }
    {
        Side {
            station,
            out_len,
            in_len,
            area: out_len.max(in_len),
            out: OutwardSeat::new(station, out_len),
            inn: InwardHalf::Clear(new_inward(station, in_len)),
            fresh: false,
            paused: false,
            hand,
            duty: None,
            turn: false,
            passing: None,
            read_at: None,
            pace,
            carried: Carried::Nothing,
            heard: None,
        }
    }

    /// The slave is opened anew: halves and services begin as at the end of its bring-up.
    pub fn renew(&mut self)
        ensures shown { ShowsNew self.old self.new }
        ensures link { LinkStays self.old self.new }
        ensures script { H.script self.new.hand ≡ H.script self.old.hand }
        ensures passing { self.new.passing ≡ None }
        ensures read { (self.new.read_at ≡ None) × (self.new.pace ≡ self.old.pace) }
        ensures heard { self.new.heard ≡ self.old.heard }
        ensures join { H.join self.new.hand ≡ H.unjoined }
        ensures recalled { (self.new.paused ≡ false) × (self.new.turn ≡ false) × (H.knows self.new.hand ≡ true) }
    {
        self.out = OutwardSeat::new(self.station, self.out_len);
        self.inn = InwardHalf::Clear(new_inward(self.station, self.in_len));
        self.fresh = false;
        self.paused = false;
        self.hand.renew();
        self.duty = None;
        self.turn = false;
        self.passing = None;
        self.read_at = None;
        self.carried = Carried::Nothing;
    }

    // The mail that goes next is held, where none is.
    pub(crate) fn hold_next(&mut self)
        ensures shown { HoldsNext self.old self.new }
        ensures link { LinkStays self.old self.new }
        ensures script { H.script self.new.hand ≡ H.script self.old.hand }
        ensures passing { self.new.passing ≡ self.old.passing }
        ensures awaits { H.awaits self.old.hand ≡ true → H.awaits self.new.hand ≡ true }
        ensures read { (self.new.read_at ≡ self.old.read_at) × (self.new.pace ≡ self.old.pace) }
        ensures join { H.join self.new.hand ≡ H.join self.old.hand }
        ensures on { HoldsOn self.old self.new }
        ensures rest { LeavesNone self.new }
        ensures knows { H.knows self.new.hand ≡ H.knows self.old.hand }
    {
        if !self.out.is_idle() {
            return;
        }
        if self.hand.take_next() {
            self.out.hold(0, self.hand.kind(), self.hand.body());
            self.fresh = true;
        }
    }

    /// The state service in hand.
    pub fn state_in_hand(&self) -> Option<Duty>
        ensures { result ≡ in_hand self.now.duty }
    {
        match self.duty {
            Some(met) => duty_left(met),
            None => None,
        }
    }

    /// Whether a service may come into hand: the newest is over, and the write of a last acknowledgement is done.
    pub fn is_free(&self) -> bool
        ensures free { FreeSays self.now result }
        ensures waits { is_some self.now.passing ≡ true → result ≡ false }
        ensures bare { result ≡ true → (in_hand self.now.duty ≡ None) × (self.now.passing ≡ None) }
        ensures may { FreeWhere self.now result }
        ensures knows { result ≡ true → H.knows self.now.hand ≡ true }
        ensures is { result ≡ is_free_side self.now }
    {
        let idle = self.out.is_idle();
        if self.state_in_hand().is_some() || self.passing.is_some() {
            return false;
        }
        self.hand.is_over(self.fresh, idle) && self.hand.is_acknowledged(idle)
    }

    // The service by mails that was laid ready comes into hand: whether there was one.
    fn begin_mails(&mut self) -> bool
        ensures picked { MailsBegin self.old self.new result }
        ensures link { LinkStays self.old self.new }
        ensures did { result ≡ is_some (H.ready self.old.hand) }
        ensures script { H.script self.new.hand ≡ (if result then H.behind self.old.hand else H.script self.old.hand) }
        ensures unpassed { (result ≡ true → (q : H.Asked) → H.ready self.old.hand ≡ Some q → H.passed q ≡ false) → self.new.passing ≡ None }
        ensures passing { PassingOf self.new (passing_behind H.passed None (wish_begun result (Some Wish.Mails) (H.ready self.old.hand))) }
        ensures read { (self.new.read_at ≡ self.old.read_at) × (self.new.pace ≡ self.old.pace) }
        ensures join { H.join self.new.hand ≡ H.join self.old.hand }
        ensures again { in_hand self.old.duty ≡ None → self.old.passing ≡ None → Repeats self.old → SendsAtMost (sent_len self.old) self.new }
        ensures recalled { in_hand self.old.duty ≡ None → self.old.passing ≡ None → H.knows self.old.hand ≡ true → recall_in self.new ≡ recall_in self.old }
        ensures first { in_hand self.old.duty ≡ None → SendsFirst self.old self.new true (Some Wish.Mails) }
    {
        let began = self.hand.begin();
        let passed = began && self.hand.is_passed();
        let passing = if passed { Some(Passing::Waiting) } else { None };
        self.passing = passing;
        self.turn = false;
        began
    }

    // A state service comes into hand, and drains.
    fn begin_state(&mut self, target: Target)
        ensures picked { StateBegins self.old self.new target.state }
        ensures link { LinkStays self.old self.new }
        ensures kept { (self.new.hand ≡ self.old.hand) × (self.new.passing ≡ self.old.passing) }
        ensures read { (self.new.read_at ≡ self.old.read_at) × (self.new.pace ≡ self.old.pace) }
        ensures again { in_hand self.old.duty ≡ None → self.old.passing ≡ None → Repeats self.old → SendsAtMost (sent_len self.old) self.new }
        ensures recalled { in_hand self.old.duty ≡ None → self.old.passing ≡ None → recall_in self.new ≡ recall_in self.old }
        ensures first { SendsFirst self.old self.new true (Some (Wish.State target)) }
    {
        let duty = Duty::new(target.state);
        self.duty = Some(Met::On(duty));
        self.turn = false;
    }

    // A service comes into hand where that may be: whether one did.
    fn begin(&mut self, wish: Option<Wish>) -> bool
        ensures picked { BeginsIn self.old self.new (wish_begun result wish (H.ready self.old.hand)) }
        ensures link { LinkStays self.old self.new }
        ensures waits { is_some self.old.passing ≡ true → (result ≡ false) × (self.new ≡ self.old) }
        ensures ready { takes_ready result wish ≡ true → is_some (H.ready self.old.hand) ≡ true }
        ensures script { H.script self.new.hand ≡ (if takes_ready result wish then H.behind self.old.hand else H.script self.old.hand) }
        ensures unpassed { StaysPlain self.old self.new (takes_ready result wish) }
        ensures passing { PassesIn self.old self.new (wish_begun result wish (H.ready self.old.hand)) }
        ensures read { (self.new.read_at ≡ self.old.read_at) × (self.new.pace ≡ self.old.pace) }
        ensures join { H.join self.new.hand ≡ H.join self.old.hand }
        ensures again { Repeats self.old → SendsAtMost (sent_len self.old) self.new }
        ensures recalled { recall_in self.new ≡ recall_in self.old }
        ensures none { NoneMissed self.old result wish }
        ensures did { result ≡ begins_by (is_free_side self.old) wish (H.ready self.old.hand) }
        ensures first { SendsFirst self.old self.new result wish }
    {
        if !self.is_free() {
            return false;
        }
        let Some(wish) = wish else {
            return false;
        };
        match wish {
            Wish::Mails => self.begin_mails(),
            Wish::State(target) => {
                self.begin_state(target);
                true
            }
        }
    }

    /// What comes before this slave's datagram: a service comes into hand, where one may, and the next mail is held. Tells whether a service came
    /// into hand: just where the side is free, and a change of state is wished or mails that are laid ready.
    pub fn choose(&mut self, wish: Option<Wish>) -> bool
        ensures picked { PicksIn self.old self.new (wish_begun result wish (H.ready self.old.hand)) }
        ensures link { LinkStays self.old self.new }
        ensures still { is_some self.old.passing ≡ true → result ≡ false }
        ensures waits { is_some self.old.passing ≡ true → HoldsNext self.old self.new }
        ensures ready { takes_ready result wish ≡ true → is_some (H.ready self.old.hand) ≡ true }
        ensures script { H.script self.new.hand ≡ (if takes_ready result wish then H.behind self.old.hand else H.script self.old.hand) }
        ensures unpassed { StaysPlain self.old self.new (takes_ready result wish) }
        ensures passing { PassesIn self.old self.new (wish_begun result wish (H.ready self.old.hand)) }
        ensures read { (self.new.read_at ≡ self.old.read_at) × (self.new.pace ≡ self.old.pace) }
        ensures join { H.join self.new.hand ≡ H.join self.old.hand }
        ensures again { Repeats self.old → SendsAtMost (sent_len self.old) self.new }
        ensures recalled { recall_in self.new ≡ recall_in self.old }
        ensures none { NoneMissed self.old result wish }
        ensures rest { LeavesNone self.new }
        ensures did { result ≡ begins_by (is_free_side self.old) wish (H.ready self.old.hand) }
        ensures first { SendsFirst self.old self.new result wish }
    {
        let began = self.begin(wish);
        self.hold_next();
        began
    }

    /// The frame under way was lost.
    pub fn lost(&mut self)
        ensures shown { LostShows self.old self.new }
        ensures link { LinkStays self.old self.new }
        ensures carried { self.new.carried ≡ self.old.carried }
        ensures script { H.script self.new.hand ≡ H.script self.old.hand }
        ensures unpassed { self.old.passing ≡ None → self.new.passing ≡ None }
        ensures passing { LostPasses self.old self.new }
        ensures read { (self.new.read_at ≡ self.old.read_at) × (self.new.pace ≡ self.old.pace) }
        ensures join { H.join self.new.hand ≡ H.join self.old.hand }
        ensures again { IsOnWay self.old → Repeats self.new × (sent_len self.new ≤ sent_len self.old) }
        ensures recalled { LostRecalls self.old self.new }
    {
        match self.carried {
            Carried::Write => self.write_lost(),
            Carried::Inward => self.inn.gone(),
            Carried::Nothing | Carried::Full | Carried::Control | Carried::Status => {}
        }
    }

    // The write of the mail held was lost.
    fn write_lost(&mut self)
        ensures fresh { self.new.fresh ≡ false }
        ensures kept { LostWrite self.old self.new }
        ensures unpassed { self.old.passing ≡ None → self.new.passing ≡ None }
        ensures way { (self.new.turn ≡ self.old.turn) × (self.new.paused ≡ self.old.paused) × (self.new.passing ≡ told_by self.old.passing self.old.fresh) }
        ensures read { (self.new.read_at ≡ self.old.read_at) × (self.new.pace ≡ self.old.pace) }
    {
        let passing = told(self.passing, self.fresh);
        self.passing = passing;
        self.fresh = false;
    }

    // The write of the mail held came back.
    fn write_back(&mut self, counter: u16)
        requires { self.old.carried ≡ Carried.Write }
        ensures { (octets : List ℕ) (made : ℕ) → CameBack self.old self.new counter octets made }
    {
        let passing = written(told(self.passing, self.fresh), counter);
        self.passing = passing;
        self.out.answered(counter);
        self.fresh = false;
        self.paused = counter == 0;
    }

    // A mail was accepted, or none was.
    fn hear(&mut self, mail: Option<MailView>)
        requires { IfSome mail (λ v. length v.body.now ≤ 1480) }
        ensures shown { HearsShown self.old self.new mail.entry }
        ensures kept { (self.new.out ≡ self.old.out) × (self.new.inn ≡ self.old.inn) × (self.new.fresh ≡ self.old.fresh) × (self.new.duty ≡ self.old.duty) }
        ensures link { LinkStays self.old self.new }
        ensures pace { (self.new.paused ≡ self.old.paused) × (self.new.turn ≡ self.old.turn) }
        ensures script { H.script self.new.hand ≡ H.script self.old.hand }
        ensures unpassed { self.old.passing ≡ None → self.new.passing ≡ None }
        ensures passing { HearsPassing self.old self.new mail.entry }
        ensures read { (self.new.read_at ≡ self.old.read_at) × (self.new.pace ≡ self.old.pace) }
        ensures brought { self.old.heard ≡ None → Brought (H.brings self.new.hand) self.new.heard (heard_of mail.entry) }
        ensures replied { HearsReplied self.old self.new mail.entry }
        ensures joined { HearsJoined self.old self.new mail.entry }
        ensures knows { HearsKnown self.old self.new mail.entry }
        ensures sure { H.knows self.new.hand ≡ true → H.knows self.old.hand ≡ true }
    {
        if let Some(mail) = mail {
            let what = self.hand.hear(&mail);
            let passing = heard(self.passing, what);
            self.passing = passing;
            self.heard = Some(what);
        }
    }

    // A read of mailbox 1 came back, in the frame with this number: an empty one counts for a mail that is passed on only where the slave's
    // processor made a step since the last done read.
    fn read_done(&mut self, was_read: bool, counter: u16, made: u32)
        ensures kept { ReadsAlone self.old self.new }
        ensures link { LinkStays self.old self.new }
        ensures pace { (self.new.paused ≡ self.old.paused) × (self.new.turn ≡ self.old.turn) }
        ensures unpassed { self.old.passing ≡ None → self.new.passing ≡ None }
        ensures passing { self.new.passing ≡ empty_where (was_read && (counter == 0 && counts_at self.old.read_at self.old.pace made)) self.old.passing }
        ensures read { (self.new.pace ≡ self.old.pace) × (self.new.read_at ≡ (if was_read && not (counter == 0) then Some made else self.old.read_at)) }
    {
        if !was_read {
            return;
        }
        if counter != 0 {
            self.read_at = Some(made);
            return;
        }
        let stepped = match self.read_at {
            None => true,
            Some(at) => made / self.pace > at / self.pace,
        };
        if stepped {
            let passing = empty(self.passing);
            self.passing = passing;
        }
    }

    // The datagram of the inward half came back.
    fn inward_back(&mut self, counter: u16, octets: &[u8], made: u32)
        requires { self.old.carried ≡ Carried.Inward }
        ensures { CameBack self.old self.new counter octets.now made }
    {
        let got = self.inn.returned(counter, octets);
        let was_read = got.is_some();
        let paused = self.paused && !was_read;
        let turn = self.turn && !was_read;
        self.paused = paused;
        self.turn = turn;
        self.read_done(was_read, counter, made);
        self.hear(view_in(got));
    }

    // The access of a state service came back, or the status of mailbox 0.
    fn errand_back(&mut self, counter: u16, octets: &[u8])
        requires { is_errand self.old.carried ≡ true }
        ensures { (made : ℕ) → CameBack self.old self.new counter octets.now made }
    {
        if counter == 0 {
            return;
        }
        let passing = status_passed(self.passing, self.carried, octets);
        self.passing = passing;
        self.turn = true;
        if let Some(duty) = self.state_in_hand() {
            let met = duty_met(duty, self.carried, octets);
            self.duty = Some(met);
        }
    }

    /// The frame under way came back: the datagram of this slave has this counter and these octets. `made` is the frame's number.
    pub fn returned(&mut self, counter: u16, octets: &[u8], made: u32)
        ensures { CameBack self.old self.new counter octets.now made }
    {
        match self.carried {
            Carried::Nothing => {}
            Carried::Write => self.write_back(counter),
            Carried::Inward => self.inward_back(counter, octets, made),
            Carried::Full | Carried::Control | Carried::Status => self.errand_back(counter, octets),
        }
    }
}
