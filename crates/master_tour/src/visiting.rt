//! A slave's visit: what comes into hand, and its datagram in the frame that is made.

ghost use Rattle.std.specs.Prelude.{◌≡◌, ◌≤◌, length};
ghost use Rattle.master_side.specs.of_al_state.BringUp.{octets_of};

use crate::stop::{Stand, Stop};
use al_state::{BringStep, BringUp, access};
use arrayvec::ArrayVec;
use datagrams::{FrameBuf, Head};
use master_side::{Hand, Wish};

// How many octets the access of an opening has.
fn access_len(up: &BringUp) -> usize
    ensures is { result ≡ length (octets_of up.now) }
    ensures most { result ≤ 8 }
{
    match up.step {
        BringStep::Return | BringStep::Address | BringStep::Start => 2,
        BringStep::Watch | BringStep::Await => 6,
        BringStep::OutOff | BringStep::InOff | BringStep::OutManager | BringStep::InManager => 8,
    }
}

impl<H: Hand> Stop<H> {
    ghost use Rattle.master_tour.specs.First.{LacksFirst};
    ghost use Rattle.master_side.specs.First.{first_of};
    ghost use Rattle.master_side.specs.declared.carried.Wish.{Wish};
    ghost use Rattle.std.specs.Prelude.{◌≡◌, ◌≤◌, ◌<◌, ◌-◌, ◌++◌, ◌∷◌, [], ℕ, List, length, true, false, is_some, ◌+◌, Bool, Option, if◌then◌else◌};
    ghost use Rattle.master_side.specs.of_datagrams.Datagram as Raw;
    ghost use Rattle.master_side.specs.of_datagrams.Frame.{IsBegun, datagram_of};
    ghost use Rattle.master_side.specs.of_exchange_model.Exchange.{Speech};
    ghost use Rattle.master_side.specs.of_link_mails.Body.{Body};
    ghost use Rattle.master_side.specs.of_segment_model.Seats as Seats;
    ghost use Rattle.master_side.specs.of_state_model.Accounts.{Account, duty_access};
    ghost use Rattle.master_side.specs.of_frame_view.View.{Lens, datagram_seen};
    ghost use Rattle.master_side.specs.of_mailbox_master.Any.{in_half_of, in_area_len};
    ghost use Rattle.master_side.specs.of_link_model.Master.{InState};
    ghost use Rattle.master_side.specs.of_master_duty.Reply.{Reply};
    ghost use Rattle.master_side.specs.declared.carried.Carried.{Carried};
    ghost use Rattle.master_side.specs.Carried.{Meant};
    ghost use Rattle.master_tour.specs.Made.{IsClearFor};
    ghost use Rattle.master_side.specs.Sent.{IsSent, visit_gram};
    ghost use Rattle.master_side.specs.Shown.{Holds, Picked, wish_begun, takes_ready};
    ghost use Rattle.master_side.specs.of_al_state.BringUp.{head_of, octets_of};
    ghost use Rattle.master_tour.specs.Goes.{is_live};
    ghost use Rattle.master_tour.specs.Stands.{stand_gram, StandMeant, NextShows, HoldShows, Counts};
    ghost use Rattle.master_side.specs.Again.{HasNoRoom, IsOnWay, Repeats, area_of, sent_len};
    ghost use Rattle.master_tour.specs.Rooms.{StopRepeats, Visits, stop_len};
    ghost use Rattle.master_tour.specs.Recalls.{TakesUp, BeginsAll};
    ghost use Rattle.master_side.specs.of_al_state.declared.bringing.BringStep.{BringStep};
    ghost use Rattle.master_side.specs.of_life_model.Lives.{Life, Spot, life_next};
    ghost use Rattle.master_side.specs.of_segment_model.Ends as Ends;
    ghost use Rattle.master_side.specs.Passing.{PassingShows, passing_behind};
    ghost use Rattle.master_tour.specs.declared.stop.Stand.{Stand};
    ghost use Rattle.master_side.specs.Free.{is_free_side, begins_by};
    ghost use Rattle.master_side.specs.Sides.{ShowsOf, LinkStays, StaysPlain, recall_in};
    ghost use Rattle.master_tour.specs.Frees.{stop_begins};
    ghost use Rattle.master_tour.specs.Stops.{StopSpot, StopLived, StopPassing};
    ghost use Rattle.master_tour.specs.Counting.{ReadStays};

    /// How many octets the datagram of a visit with this wish has.
    pub fn ahead(&mut self, wish: Option<Wish>) -> usize
        ensures lives { (x : Speech Body H.Asked Reply) (more : Body → Bool) (passed : H.Asked → Bool) (made recover : ℕ) (spot : Spot) (l : Life Body H.Asked Reply) → StopLived self.old x recover spot l →
            HoldShows x H.acknowledged more passed made l (StopLived self.new x recover spot) }
        ensures kept { (self.new.place ≡ self.old.place) × (self.new.start ≡ self.old.start) × (self.new.spare ≡ self.old.spare) × (self.new.under ≡ self.old.under) × (self.new.at ≡ self.old.at) }
        ensures link { LinkStays self.old.side self.new.side }
        ensures stand { self.new.stand ≡ self.old.stand }
        ensures passing { self.new.side.passing ≡ self.old.side.passing }
        ensures awaits { H.awaits self.old.side.hand ≡ true → H.awaits self.new.side.hand ≡ true }
        ensures most { result ≤ 1486 }
        ensures script { H.script self.new.side.hand ≡ H.script self.old.side.hand }
        ensures join { H.join self.new.side.hand ≡ H.join self.old.side.hand }
        ensures area { result ≤ area_of self.old.side }
        ensures again { StopRepeats self.old → StopRepeats self.new × (stop_len self.new ≡ stop_len self.old) × (result ≤ stop_len self.old) }
        ensures recalled { recall_in self.new.side ≡ recall_in self.old.side }
        ensures read { ReadStays self.old self.new }
        ensures still { is_free_side self.old.side ≡ true → is_some wish ≡ true → self.new.side ≡ self.old.side }
        ensures first { self.old.stand ≡ Stand.Open → is_free_side self.old.side ≡ true → (w : Wish) → wish ≡ Some w → result ≡ first_of self.old.side w }
    {
        match self.stand {
            Stand::Gone => 0,
            Stand::Opening(up) => access_len(&up),
            Stand::Open => self.side.ahead(wish),
        }
    }

    /// A service comes into hand where one may, and the datagram of this visit stands next in the frame, as the
    /// datagram number `at` of it, with this index, if the frame has room for it: `under` says so. Tells whether a service came into hand.
    pub fn open_visit(
        &mut self,
        wish: Option<Wish>,
        at: usize,
        index: u8,
        frame: &mut FrameBuf,
    ) -> bool
        requires few { at < 16 }
        requires begun { (ds : List Raw.Datagram) × IsBegun frame.old.items ds }
        ensures shown { (x : Speech Body H.Asked Reply) (made : ℕ) (lens : ℕ → Lens) (d : Seats.Side Body H.Asked Reply) (a : Account H.Asked Reply) → (lens self.old.side.station).out ≡ self.old.side.out.len → (lens self.old.side.station).back ≡ in_area_len self.old.side.inn →
            ShowsOf self.old.side x d a →
            Picked x H.acknowledged made d a (wish_begun result wish (H.ready self.old.side.hand)) (λ e b. ShowsOf self.new.side x e b ×
            (self.new.under ≡ true → Meant self.old.side.station self.new.side.carried e.halves (duty_access b.hand) (datagram_seen lens (visit_gram self.new.side.station index self.new.side.out self.new.side.inn self.new.side.duty self.new.side.carried)))) }
        ensures still { is_some self.old.side.passing ≡ true → result ≡ false }
        ensures waits { is_some self.old.side.passing ≡ true → (x : Speech Body H.Asked Reply) (lens : ℕ → Lens) (d : Seats.Side Body H.Asked Reply) (a : Account H.Asked Reply) → (lens self.old.side.station).out ≡ self.old.side.out.len → (lens self.old.side.station).back ≡ in_area_len self.old.side.inn →
            ShowsOf self.old.side x d a →
            Holds x d (λ e. ShowsOf self.new.side x e a ×
            (self.new.under ≡ true → Meant self.old.side.station self.new.side.carried e.halves (duty_access a.hand) (datagram_seen lens (visit_gram self.new.side.station index self.new.side.out self.new.side.inn self.new.side.duty self.new.side.carried)))) }
        ensures begun { (ds : List Raw.Datagram) → IsBegun frame.old.items ds → self.new.under ≡ true → IsBegun frame.new.items (ds ++ visit_gram self.new.side.station index self.new.side.out self.new.side.inn self.new.side.duty self.new.side.carried ∷ []) }
        ensures sent { self.new.under ≡ true → IsSent self.old.side.area (visit_gram self.new.side.station index self.new.side.out self.new.side.inn self.new.side.duty self.new.side.carried) }
        ensures full { self.new.under ≡ false → frame.new.items ≡ frame.old.items }
        ensures link { LinkStays self.old.side self.new.side }
        ensures stand { self.new.stand ≡ self.old.stand }
        ensures kept { (self.new.place ≡ self.old.place) × (self.new.start ≡ self.old.start) × (self.new.spare ≡ self.old.spare) × (self.new.news ≡ self.old.news) }
        ensures at { self.new.at ≡ at }
        ensures order { self.new.under ≡ true → self.new.side.carried ≡ Carried.Full → (in_half_of self.new.side.inn).state ≡ InState.Clear }
        ensures first { length frame.old.items ≡ 16 → self.new.under ≡ true }
        ensures ready { takes_ready result wish ≡ true → is_some (H.ready self.old.side.hand) ≡ true }
        ensures script { H.script self.new.side.hand ≡ (if takes_ready result wish then H.behind self.old.side.hand else H.script self.old.side.hand) }
        ensures unpassed { StaysPlain self.old.side self.new.side (takes_ready result wish) }
        ensures passing { (p : Option Ends.Passing) → PassingShows (H.awaits self.old.side.hand) self.old.side.passing p → PassingShows (H.awaits self.new.side.hand) self.new.side.passing (passing_behind H.passed p (wish_begun result wish (H.ready self.old.side.hand))) }
        ensures join { H.join self.new.side.hand ≡ H.join self.old.side.hand }
        ensures room { Repeats self.old.side → (self.new.under ≡ false → HasNoRoom frame.old.items (sent_len self.old.side)) × (self.new.under ≡ true → sent_len self.new.side ≤ sent_len self.old.side) }
        ensures area { self.new.under ≡ false → HasNoRoom frame.old.items (area_of self.old.side) }
        ensures way { self.new.under ≡ true → IsOnWay self.new.side × (length frame.new.items ≡ length frame.old.items + (12 + sent_len self.new.side)) }
        ensures recalled { recall_in self.new.side ≡ recall_in self.old.side }
        ensures takes { TakesUp self.new.stand self.new.side.out.state (H.knows self.new.side.hand) (λ x d a. ShowsOf self.new.side x d a) }
        ensures begins { BeginsAll self.old.stand result (H.knows self.old.side.hand) self.old.side.duty self.old.side.passing H.acknowledged (λ x d a. ShowsOf self.old.side x d a) wish (H.ready self.old.side.hand) }
        ensures read { ReadStays self.old self.new }
        ensures did { result ≡ begins_by (is_free_side self.old.side) wish (H.ready self.old.side.hand) }
        ensures lacks { LacksFirst frame.old.items result wish self.old self.new }
    {
        let began = self.side.choose(wish);
        let placed = self.side.add_datagram(index, frame);
        self.at = at;
        self.under = placed;
        began
    }

    /// The access of its opening stands next in the frame, as the datagram number `at` of it, with this index.
    pub fn opening_visit(&mut self, up: &BringUp, at: usize, index: u8, frame: &mut FrameBuf)
        requires few { at < 16 }
        requires begun { (ds : List Raw.Datagram) × IsBegun frame.old.items ds }
        requires room { length (octets_of up.now) ≤ 1514 - length frame.old.items - 12 }
        ensures begun { (ds : List Raw.Datagram) → IsBegun frame.old.items ds → IsBegun frame.new.items (ds ++ datagram_of (head_of up.now index) (octets_of up.now) ∷ []) }
        ensures side { self.new.side ≡ self.old.side }
        ensures stand { self.new.stand ≡ self.old.stand }
        ensures kept { (self.new.place ≡ self.old.place) × (self.new.start ≡ self.old.start) × (self.new.spare ≡ self.old.spare) × (self.new.news ≡ self.old.news) }
        ensures at { (self.new.at ≡ at) × (self.new.under ≡ true) }
        ensures grows { length frame.new.items ≡ length frame.old.items + (12 + length (octets_of up.now)) }
    {
        let mut head = Head::default();
        let mut body = ArrayVec::new();
        access(up, index, &mut head, &mut body);
        datagrams::add(frame, &head, body.as_slice());
        self.at = at;
        self.under = true;
    }

    /// The datagram of this visit stands next in the frame, as the datagram number `at` of it, with this index, if the frame has room for
    /// it: `under` says so. It is that of its opening, or while it is open that of a visit. Tells whether a service came into hand.
    pub fn visit(&mut self, wish: Option<Wish>, at: usize, index: u8, frame: &mut FrameBuf) -> bool
        requires few { at < 16 }
        requires begun { (ds : List Raw.Datagram) × IsBegun frame.old.items ds }
        ensures lives { (x : Speech Body H.Asked Reply) (more : Body → Bool) (passed : H.Asked → Bool) (made recover : ℕ) (spot : Spot) (lens : ℕ → Lens) (l : Life Body H.Asked Reply) →
            (lens self.old.side.station).out ≡ self.old.side.out.len → (lens self.old.side.station).back ≡ in_area_len self.old.side.inn → StopSpot spot self.old → (self.old.stand ≡ Stand.Open → is_some l.era.passing ≡ is_some self.old.side.passing) → StopLived self.old x recover spot l →
            NextShows x H.acknowledged more passed made l (wish_begun result wish (H.ready self.old.side.hand)) (λ n. StopLived self.new x recover spot n ×
            (self.new.under ≡ true → StandMeant lens self.new.side.station index self.new.side.carried self.new.stand n (datagram_seen lens (stand_gram self.new.side.station index self.new.stand self.new.side.out self.new.side.inn self.new.side.duty self.new.side.carried)))) }
        ensures begun { (ds : List Raw.Datagram) → IsBegun frame.old.items ds → self.new.under ≡ true → IsBegun frame.new.items (ds ++ (stand_gram self.new.side.station index self.new.stand self.new.side.out self.new.side.inn self.new.side.duty self.new.side.carried) ∷ []) }
        ensures full { self.new.under ≡ false → frame.new.items ≡ frame.old.items }
        ensures at { self.new.under ≡ true → self.new.at ≡ at }
        ensures stand { self.new.stand ≡ self.old.stand }
        ensures kept { (self.new.place ≡ self.old.place) × (self.new.start ≡ self.old.start) × (self.new.spare ≡ self.old.spare) × (self.new.news ≡ self.old.news) }
        ensures station { self.new.side.station ≡ self.old.side.station }
        ensures link { LinkStays self.old.side self.new.side }
        ensures order { self.new.under ≡ true → IsClearFor self.new.stand self.new.side.carried self.new.side.inn }
        ensures first { length frame.old.items ≡ 16 → is_live self.old.stand ≡ true → self.new.under ≡ true }
        ensures ready { takes_ready result wish ≡ true → is_some (H.ready self.old.side.hand) ≡ true }
        ensures script { H.script self.new.side.hand ≡ (if takes_ready result wish then H.behind self.old.side.hand else H.script self.old.side.hand) }
        ensures unpassed { StaysPlain self.old.side self.new.side (takes_ready result wish) }
        ensures passing { (x : Speech Body H.Asked Reply) (made recover : ℕ) (spot : Spot) (hold : Bool) (l : Life Body H.Asked Reply) → StopLived self.old x recover spot l → StopPassing self.old l →
            (let n = life_next x H.acknowledged H.more H.passed made l l.stand (record { begin = wish_begun result wish (H.ready self.old.side.hand); hold = hold }) in
            Counts made (wish_begun result wish (H.ready self.old.side.hand)) l n → StopPassing self.new n) }
        ensures join { H.join self.new.side.hand ≡ H.join self.old.side.hand }
        ensures room { Visits frame.old.items frame.new.items self.old self.new }
        ensures recalled { recall_in self.new.side ≡ recall_in self.old.side }
        ensures takes { TakesUp self.new.stand self.new.side.out.state (H.knows self.new.side.hand) (λ x d a. ShowsOf self.new.side x d a) }
        ensures begins { BeginsAll self.old.stand result (H.knows self.old.side.hand) self.old.side.duty self.old.side.passing H.acknowledged (λ x d a. ShowsOf self.old.side x d a) wish (H.ready self.old.side.hand) }
        ensures read { ReadStays self.old self.new }
        ensures did { result ≡ stop_begins self.old wish }
        ensures lacks { LacksFirst frame.old.items result wish self.old self.new }
    {
        self.under = false;
        match self.stand {
            Stand::Gone => false,
            Stand::Opening(up) => {
                if access_len(&up) > datagrams::room(frame) {
                    return false;
                }
                self.opening_visit(&up, at, index, frame);
                false
            }
            Stand::Open => self.open_visit(wish, at, index, frame),
        }
    }
}
