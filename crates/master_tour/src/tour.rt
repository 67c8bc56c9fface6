ghost use Rattle.std.specs.Prelude.{◌≡◌, ℕ, List};

use crate::cursor::Cursor;
use crate::stop::Stop;
use arrayvec::ArrayVec;
use datagrams::FrameBuf;
use master_side::{Hand, Wish};

/// All slaves of a master, in ring order, and where their tour stands.
#[derive(Drop)]
pub struct Tour<H: Hand> {
    /// The slaves, 1 to 16.
    pub stops: Vec<Stop<H>>,
    /// The places of the slaves that the last frame carried, in the order of its datagrams.
    pub visit: ArrayVec<usize, 16>,
    /// How many slaves from the first on have ended their first bring-up, or were given up in it.
    pub opened: usize,
    /// The last frame was lost, and the same slaves come again.
    pub again: bool,
    /// How many frames were lost in a row.
    pub missed: u8,
    /// How many may be, before the slaves that they carried are given up.
    pub retry: u8,
    /// The place of the slave that was carried last.
    pub last: Option<usize>,
    /// How many datagrams the frame that is made has so far.
    pub count: usize,
    /// How many of the visits that this frame may have were passed, carried or not.
    pub passed: usize,
}

impl<H: Hand> Tour<H> {
    ghost use Rattle.master_tour.specs.First.{FitsFirst, LacksFirst};
    ghost use Rattle.std.specs.Prelude.{◌≡◌, ◌≤◌, ◌<◌, ◌-◌, ℕ, List, IfSome, All, length, [], ◌∷◌, is_some, true, ◌++◌, ◌+◌, ◌==◌, Option, Some, drop, slice_get, Bool, false, not, nat_lt, ◌&&◌, if◌then◌else◌, None, filter};
    ghost use Rattle.master_side.specs.of_datagrams.Datagram as Raw;
    ghost use Rattle.master_side.specs.of_datagrams.Command.{IsNamed};
    ghost use Rattle.master_side.specs.of_datagrams.Frame.{IsBegun, IsFrame, Each, chained};
    ghost use Rattle.master_side.specs.of_exchange_model.Exchange.{Speech};
    ghost use Rattle.master_side.specs.of_link_mails.Body.{Body};
    ghost use Rattle.master_side.specs.of_segment_model.Slaves.{Datagram};
    ghost use Rattle.master_side.specs.of_segment_model.Returned.{Returns};
    ghost use Rattle.master_side.specs.of_frame_view.View.{Lens, datagram_seen};
    ghost use Rattle.master_side.specs.of_frame_view.Seen.{seen};
    ghost use Rattle.master_side.specs.of_master_duty.Reply.{Reply};
    ghost use Rattle.master_side.specs.Shown.{wish_begun, takes_ready};
    ghost use Rattle.master_side.specs.of_state_model.Stated.{Service};
    ghost use Rattle.master_tour.specs.Walks.{EachPair, StepsAt};
    ghost use Rattle.master_tour.specs.Stands.{came_at, given_where, stand_gram, StandMeant, NextShows, HoldShows, Counts};
    ghost use Rattle.master_side.specs.of_mailbox_master.Any.{in_area_len};
    ghost use Rattle.master_tour.specs.Orders.{start_of, place_in, round_left, visits_left, visited_of, is_fixed, AreOnce, IsNextOf, IsCarried};
    ghost use Rattle.master_side.specs.of_frame_view.Shares.{Lived, AllBoth, AreDistinct};
    ghost use Rattle.master_side.specs.Heard.{Brought};
    ghost use Rattle.master_tour.specs.Brings.{accepted_in};
    ghost use Rattle.master_tour.specs.Joins.{Joins};
    ghost use Rattle.master_tour.specs.Replied.{StopReplies};
    ghost use Rattle.master_tour.specs.Made.{FrameMade, FrameSent, ComesAt, IsClearFor, is_in};
    ghost use Rattle.master_side.specs.of_life_model.Lives.{Life, Spot, life_next, life_back, life_lost};
    ghost use Rattle.master_side.specs.of_segment_model.Record.{News, Kept};
    ghost use Rattle.master_side.specs.Passing.{counts_at, news_back, news_lost};
    ghost use Rattle.master_tour.specs.Passing.{StandKept};
    ghost use Rattle.master_side.specs.Free.{is_free_side};
    ghost use Rattle.master_side.specs.Sides.{ShowsOf, LinkStays, recall_in};
    ghost use Rattle.master_tour.specs.Frees.{stop_begins};
    ghost use Rattle.master_tour.specs.Stops.{StopSpot, StopLived, StopFollows, StopUnder, StopPassing, StopSized, LivesAt, MadeBy, SentBy};
    ghost use Rattle.master_tour.specs.Counting.{CameCounts, LostCounts, ReadStays};
    ghost use Rattle.master_tour.specs.declared.stop.Stand.{Stand};
    ghost use Rattle.master_tour.specs.Goes.{is_live, holds_at, Passes, BeginsLive};
    ghost use Rattle.std.specs.List.{list_any};
    ghost use Rattle.master_tour.specs.Rooms.{LosesAgain, Looks, Visits};
    ghost use Rattle.master_tour.specs.Behind.{StopBack, StopLost};
    ghost use Rattle.master_tour.specs.Recalls.{TakesUp, BeginsAll};
    ghost use Rattle.master_tour.specs.Sizes.{frame_size};

    // Each slave hears what came back.
    pub(crate) fn all_back(&mut self, octets: &[u8], made: u32)
        requires { (ds : List Raw.Datagram) × IsFrame octets.now ds }
        ensures lives { EachPair (λ s t. ((lens : ℕ → Lens) (sent : List (Datagram Body)) → Returns sent (seen lens octets.now) → (x : Speech Body H.Asked Reply) (more : Body → Bool) (passed : H.Asked → Bool) (number recover : ℕ) (spot : Spot) (ns : List (News Body)) (l : Life Body H.Asked Reply) →
            StopSpot spot s → StopUnder lens s l sent → StopLived s x recover spot l →
            StopFollows t x recover spot l (life_back x H.acknowledged more passed number spot ns (seen lens octets.now) (came_at s.under s.at (seen lens octets.now)) l l.stand)) × (t.place ≡ s.place) × (t.start ≡ s.start)) self.old.stops.items self.new.stops.items }
        ensures long { length self.new.stops.items ≡ length self.old.stops.items }
        ensures kept { EachPair (λ s t. LinkStays s.side t.side × (StopSized s → StopSized t)) self.old.stops.items self.new.stops.items }
        ensures tour { (self.new.again ≡ self.old.again) × (self.new.visit ≡ self.old.visit) × (self.new.opened ≡ self.old.opened) × (self.new.last ≡ self.old.last) × (self.new.missed ≡ self.old.missed) × (self.new.retry ≡ self.old.retry) }
        ensures stays { EachPair (λ s t. (H.script t.side.hand ≡ H.script s.side.hand) × (s.side.passing ≡ None → t.side.passing ≡ None)) self.old.stops.items self.new.stops.items }
        ensures passing { EachPair (λ s t. (lens : ℕ → Lens) (sent : List (Datagram Body)) → Returns sent (seen lens octets.now) → (x : Speech Body H.Asked Reply) (number recover : ℕ) (spot : Spot) (kept : Kept) (l : Life Body H.Asked Reply) →
            StopSpot spot s → StopUnder lens s l sent → StopLived s x recover spot l →
            StandKept s.stand kept l → StopPassing s l → StopPassing t (life_back x H.acknowledged H.more H.passed number spot (news_back s.side.station kept (counts_at s.side.read_at s.side.pace made) (seen lens octets.now)) (seen lens octets.now) (came_at s.under s.at (seen lens octets.now)) l l.stand)) self.old.stops.items self.new.stops.items }
        ensures brought { EachPair (λ s t. (lens : ℕ → Lens) (sent : List (Datagram Body)) → Returns sent (seen lens octets.now) → (x : Speech Body H.Asked Reply) (recover : ℕ) (spot : Spot) (l : Life Body H.Asked Reply) →
            StopSpot spot s → StopUnder lens s l sent → StopLived s x recover spot l →
            Brought (H.brings t.side.hand) t.side.heard (accepted_in spot l (seen lens octets.now))) self.old.stops.items self.new.stops.items }
        ensures replied { EachPair (λ s t. StopReplies octets.now s t) self.old.stops.items self.new.stops.items }
        ensures joined { EachPair (λ s t. (lens : ℕ → Lens) (sent : List (Datagram Body)) → Returns sent (seen lens octets.now) → (x : Speech Body H.Asked Reply) (recover : ℕ) (spot : Spot) (l : Life Body H.Asked Reply) →
            StopSpot spot s → StopUnder lens s l sent → StopLived s x recover spot l →
            Joins H.unjoined H.joined (H.completed t.side.hand) t.news t.side.heard (H.join s.side.hand) (H.join t.side.hand) (accepted_in spot l (seen lens octets.now))) self.old.stops.items self.new.stops.items }
        ensures recalls { EachPair (λ s t. (lens : ℕ → Lens) (sent : List (Datagram Body)) → Returns sent (seen lens octets.now) → (x : Speech Body H.Asked Reply) (recover : ℕ) (spot : Spot) (l : Life Body H.Asked Reply) →
            StopSpot spot s → StopUnder lens s l sent → StopLived s x recover spot l →
            StopBack x spot l (seen lens octets.now) (H.knows s.side.hand) (H.knows t.side.hand) s t) self.old.stops.items self.new.stops.items }
        ensures counts { EachPair (λ s t. (lens : ℕ → Lens) (sent : List (Datagram Body)) → Returns sent (seen lens octets.now) → CameCounts lens sent (seen lens octets.now) made s t) self.old.stops.items self.new.stops.items }
        ensures pace { EachPair (λ s t. t.side.pace ≡ s.side.pace) self.old.stops.items self.new.stops.items }
    {
        let mut cursor = Cursor::new(octets);
        for i in 0..self.stops.len() {
            self.stops[i].back(&mut cursor, octets, made);
        }
    }

    // Each slave learns that the frame under way was lost; where `gives` says so, those that it carries are given up.
    pub(crate) fn all_lost(&mut self, gives: bool)
        ensures lives { EachPair (λ s t. ((lens : ℕ → Lens) (octets : List ℕ) → (x : Speech Body H.Asked Reply) (more : Body → Bool) (passed : H.Asked → Bool) (number recover : ℕ) (spot : Spot) (ns : List (News Body)) (l : Life Body H.Asked Reply) →
            StopSpot spot s → StopUnder lens s l (seen lens octets) → StopLived s x recover spot l →
            StopFollows t x recover spot l (given_where (gives && s.under) recover spot number (life_lost x H.acknowledged more passed spot ns (seen lens octets) l l.stand))) × (t.place ≡ s.place) × (t.start ≡ s.start)) self.old.stops.items self.new.stops.items }
        ensures long { length self.new.stops.items ≡ length self.old.stops.items }
        ensures kept { EachPair (λ s t. LinkStays s.side t.side × (StopSized s → StopSized t)) self.old.stops.items self.new.stops.items }
        ensures tour { (self.new.again ≡ self.old.again) × (self.new.visit ≡ self.old.visit) × (self.new.opened ≡ self.old.opened) × (self.new.last ≡ self.old.last) × (self.new.missed ≡ self.old.missed) × (self.new.retry ≡ self.old.retry) }
        ensures stays { EachPair (λ s t. (H.script t.side.hand ≡ H.script s.side.hand) × (s.side.passing ≡ None → t.side.passing ≡ None)) self.old.stops.items self.new.stops.items }
        ensures passing { EachPair (λ s t. (lens : ℕ → Lens) (octets : List ℕ) (x : Speech Body H.Asked Reply) (number recover : ℕ) (spot : Spot) (kept : Kept) (l : Life Body H.Asked Reply) →
            StopSpot spot s → StopUnder lens s l (seen lens octets) → StopLived s x recover spot l →
            StandKept s.stand kept l → StopPassing s l → StopPassing t (given_where (gives && s.under) recover spot number (life_lost x H.acknowledged H.more H.passed spot (news_lost s.side.station kept (seen lens octets)) (seen lens octets) l l.stand))) self.old.stops.items self.new.stops.items }
        ensures join { EachPair (λ s t. (gives && s.under) ≡ false → H.join t.side.hand ≡ H.join s.side.hand) self.old.stops.items self.new.stops.items }
        ensures again { EachPair (λ s t. gives ≡ false → LosesAgain s t) self.old.stops.items self.new.stops.items }
        ensures recalled { EachPair (λ s t. StopLost gives (H.knows s.side.hand) (H.knows t.side.hand) s t) self.old.stops.items self.new.stops.items }
        ensures counts { EachPair (λ s t. LostCounts s t) self.old.stops.items self.new.stops.items }
        ensures pace { EachPair (λ s t. t.side.pace ≡ s.side.pace) self.old.stops.items self.new.stops.items }
    {
        for i in 0..self.stops.len() {
            self.stops[i].lost_for(gives);
        }
    }

    // No slave has a datagram in the frame that is made.
    fn rewind(&mut self)
        ensures long { length self.new.stops.items ≡ length self.old.stops.items }
        ensures each { EachPair (λ s t. (t.side ≡ s.side) × (t.stand ≡ s.stand) × (t.place ≡ s.place) × (t.start ≡ s.start) × (t.spare ≡ s.spare) × (t.under ≡ false)) self.old.stops.items self.new.stops.items }
        ensures tour { (self.new.again ≡ self.old.again) × (self.new.visit ≡ self.old.visit) × (self.new.opened ≡ self.old.opened) × (self.new.last ≡ self.old.last) × (self.new.missed ≡ self.old.missed) × (self.new.retry ≡ self.old.retry) }
    {
        for i in 0..self.stops.len() {
            self.stops[i].under = false;
        }
    }

    // The slaves of the last frame are forgotten, unless they come again.
    fn forget(&mut self)
        ensures stops { self.new.stops ≡ self.old.stops }
        ensures kept { (self.new.again ≡ self.old.again) × (self.new.opened ≡ self.old.opened) × (self.new.last ≡ self.old.last) × (self.new.missed ≡ self.old.missed) × (self.new.retry ≡ self.old.retry) }
        ensures again { self.old.again ≡ true → self.new.visit ≡ self.old.visit }
        ensures anew { self.old.again ≡ false → self.new.visit.items ≡ [] }
    {
        if !self.again {
            self.visit.clear();
        }
    }

    /// Begins the next frame.
    pub fn begin(&mut self, frame: &mut FrameBuf)
        ensures begun { IsBegun frame.new.items [] }
        ensures long { length self.new.stops.items ≡ length self.old.stops.items }
        ensures count { self.new.count ≡ 0 }
        ensures empty { length frame.new.items ≡ 16 }
        ensures made { (x : Spot → Speech Body H.Asked Reply) (more : Body → Bool) (passed : H.Asked → Bool) (made recover index : ℕ) (lens : ℕ → Lens) (left : List ℕ) (lives : List (Lived H.Asked Reply)) (begun : ℕ → Option (Service H.Asked)) → ((k : ℕ) → begun k ≡ None) →
            AllBoth (λ a s. LivesAt s (x a.spot) lens recover a × (s.stand ≡ Stand.Open → is_some a.life.era.passing ≡ is_some s.side.passing)) lives self.old.stops.items →
            FrameMade (λ ds i a s. MadeBy s x more passed made begun lens recover index left ds i a) frame.new.items 0 lives self.new.stops.items }
        ensures tour { (self.new.again ≡ self.old.again) × (self.new.opened ≡ self.old.opened) × (self.new.last ≡ self.old.last) × (self.new.missed ≡ self.old.missed) × (self.new.retry ≡ self.old.retry) × (self.new.passed ≡ 0) }
        ensures again { self.old.again ≡ true → self.new.visit ≡ self.old.visit }
        ensures anew { self.old.again ≡ false → self.new.visit.items ≡ [] }
        ensures each { EachPair (λ s t. (t.side ≡ s.side) × (t.stand ≡ s.stand) × (t.place ≡ s.place) × (t.start ≡ s.start) × (t.spare ≡ s.spare) × (t.under ≡ false)) self.old.stops.items self.new.stops.items }
    {
        self.rewind();
        datagrams::begin(frame);
        self.forget();
        self.count = 0;
        self.passed = 0;
    }

    // The place of the slave number `k` of the round, which begins behind the last one carried.
    fn place_of(&self, k: usize) -> usize
        requires { k < length self.now.stops.items }
        ensures inside { result < length self.now.stops.items }
        ensures is { result ≡ place_in (start_of (length self.now.stops.items) self.now.last) (length self.now.stops.items) k }
    {
        let count = self.stops.len();
        let start = match self.last {
            Some(last) if last < count => last + 1,
            _ => 0,
        };
        if k < count - start {
            start + k
        } else {
            k - (count - start)
        }
    }

    // The number of the next live slave of the round.
    fn next_live(&self) -> Option<usize>
        ensures inside { IfSome result (λ k. k < length self.now.stops.items) }
        ensures later { IfSome result (λ k. self.now.passed ≤ k) }
        ensures live { IfSome result (λ k. holds_at (λ s. is_live s.stand) self.now.stops.items (place_in (start_of (length self.now.stops.items) self.now.last) (length self.now.stops.items) k) ≡ true) }
        ensures passes { IfSome result (λ k. (j : ℕ) → self.now.passed ≤ j → j < k → holds_at (λ s. is_live s.stand) self.now.stops.items (place_in (start_of (length self.now.stops.items) self.now.last) (length self.now.stops.items) j) ≡ false) }
        ensures none { result ≡ None → (k : ℕ) → self.now.passed ≤ k → k < length self.now.stops.items → holds_at (λ s. is_live s.stand) self.now.stops.items (place_in (start_of (length self.now.stops.items) self.now.last) (length self.now.stops.items) k) ≡ false }
    {
        for k in self.passed..self.stops.len() {
            if self.stops[self.place_of(k)].is_live() {
                return Some(k);
            }
        }
        None
    }

    // Behind a lost frame: the next of the slaves that it carried.
    fn carried_again(&mut self) -> Option<usize>
        ensures kept { (self.new.stops ≡ self.old.stops) × (self.new.count ≡ self.old.count) × (self.new.again ≡ self.old.again) × (self.new.visit ≡ self.old.visit) × (self.new.opened ≡ self.old.opened) × (self.new.last ≡ self.old.last) }
        ensures rest { (self.new.missed ≡ self.old.missed) × (self.new.retry ≡ self.old.retry) }
        ensures inside { IfSome result (λ p. p < length self.new.stops.items) }
        ensures left { (p : ℕ) → result ≡ Some p → AreOnce self.old.visit.items → IsNextOf p (drop self.old.passed self.old.visit.items) (drop self.new.passed self.old.visit.items) }
        ensures order { (p : ℕ) → result ≡ Some p → (self.new.passed ≡ self.old.passed + 1) × (drop self.old.passed self.old.visit.items ≡ p ∷ drop self.new.passed self.old.visit.items) }
        ensures first { self.old.passed ≡ 0 → BeginsLive (λ s. is_live s.stand) true self.old.visit.items self.old.opened self.old.stops.items → Passes (λ s. is_live s.stand) self.old.stops.items result }
        ensures none { result ≡ None → IfSome (slice_get self.old.visit.items self.old.passed) (λ p. length self.old.stops.items ≤ p) }
    {
        let place = *self.visit.get(self.passed)?;
        self.passed += 1;
        if place < self.stops.len() {
            Some(place)
        } else {
            None
        }
    }

    // In the first bring-up: the slave that is brought up.
    fn brought_up(&mut self) -> Option<usize>
        requires { self.old.opened < length self.old.stops.items }
        ensures kept { (self.new.stops ≡ self.old.stops) × (self.new.count ≡ self.old.count) × (self.new.again ≡ self.old.again) × (self.new.visit ≡ self.old.visit) × (self.new.opened ≡ self.old.opened) × (self.new.last ≡ self.old.last) }
        ensures rest { (self.new.missed ≡ self.old.missed) × (self.new.retry ≡ self.old.retry) }
        ensures inside { IfSome result (λ p. p < length self.new.stops.items) }
        ensures left { (p : ℕ) → result ≡ Some p → IsNextOf p (drop self.old.passed (self.old.opened ∷ [])) (drop self.new.passed (self.old.opened ∷ [])) }
        ensures order { (p : ℕ) → result ≡ Some p → (self.new.passed ≡ self.old.passed + 1) × (drop self.old.passed (self.old.opened ∷ []) ≡ p ∷ drop self.new.passed (self.old.opened ∷ [])) }
        ensures none { result ≡ None → 1 ≤ self.old.passed }
        ensures first { self.old.passed ≡ 0 → result ≡ Some self.old.opened }
    {
        if self.passed > 0 {
            return None;
        }
        self.passed = 1;
        Some(self.opened)
    }

    // The next live slave of a round.
    fn next_in_round(&mut self) -> Option<usize>
        ensures kept { (self.new.stops ≡ self.old.stops) × (self.new.count ≡ self.old.count) × (self.new.again ≡ self.old.again) × (self.new.visit ≡ self.old.visit) × (self.new.opened ≡ self.old.opened) × (self.new.last ≡ self.old.last) }
        ensures rest { (self.new.missed ≡ self.old.missed) × (self.new.retry ≡ self.old.retry) }
        ensures inside { IfSome result (λ p. p < length self.new.stops.items) }
        ensures left { (p : ℕ) → result ≡ Some p → IsNextOf p (round_left (start_of (length self.old.stops.items) self.old.last) (length self.old.stops.items) self.old.passed) (round_left (start_of (length self.old.stops.items) self.old.last) (length self.old.stops.items) self.new.passed) }
        ensures order { (p : ℕ) → result ≡ Some p → (self.old.passed < self.new.passed) × (filter (λ k. holds_at (λ s. is_live s.stand) self.old.stops.items k) (round_left (start_of (length self.old.stops.items) self.old.last) (length self.old.stops.items) self.old.passed) ≡ p ∷ filter (λ k. holds_at (λ s. is_live s.stand) self.old.stops.items k) (round_left (start_of (length self.old.stops.items) self.old.last) (length self.old.stops.items) self.new.passed)) }
        ensures none { result ≡ None → filter (λ k. holds_at (λ s. is_live s.stand) self.old.stops.items k) (round_left (start_of (length self.old.stops.items) self.old.last) (length self.old.stops.items) self.old.passed) ≡ [] }
        ensures first { self.old.passed ≡ 0 → list_any (λ s. is_live s.stand) self.old.stops.items ≡ true → Passes (λ s. is_live s.stand) self.old.stops.items result }
    {
        let k = self.next_live()?;
        self.passed = k + 1;
        Some(self.place_of(k))
    }

    // The slave whose datagram stands next, if the frame has room for it: behind a lost frame the slaves of that one, in the first
    // bring-up the one that is brought up, else those of a round.
    fn candidate(&mut self) -> Option<usize>
        ensures kept { (self.new.stops ≡ self.old.stops) × (self.new.count ≡ self.old.count) × (self.new.again ≡ self.old.again) × (self.new.visit ≡ self.old.visit) × (self.new.opened ≡ self.old.opened) × (self.new.last ≡ self.old.last) }
        ensures rest { (self.new.missed ≡ self.old.missed) × (self.new.retry ≡ self.old.retry) }
        ensures inside { IfSome result (λ p. p < length self.new.stops.items) }
        ensures left { (p : ℕ) → result ≡ Some p → (self.old.again ≡ true → AreOnce self.old.visit.items) →
            IsNextOf p (visits_left self.old.again self.old.visit.items self.old.opened (length self.old.stops.items) self.old.last self.old.passed) (visits_left self.old.again self.old.visit.items self.old.opened (length self.old.stops.items) self.old.last self.new.passed) }
        ensures order { (p : ℕ) → result ≡ Some p → (self.old.passed < self.new.passed) × (visited_of (is_fixed self.old.again self.old.opened (length self.old.stops.items)) (λ k. holds_at (λ s. is_live s.stand) self.old.stops.items k) (visits_left self.old.again self.old.visit.items self.old.opened (length self.old.stops.items) self.old.last self.old.passed) ≡ p ∷ visited_of (is_fixed self.old.again self.old.opened (length self.old.stops.items)) (λ k. holds_at (λ s. is_live s.stand) self.old.stops.items k) (visits_left self.old.again self.old.visit.items self.old.opened (length self.old.stops.items) self.old.last self.new.passed)) }
        ensures fixed { (p : ℕ) → result ≡ Some p → self.old.again ≡ true → self.new.passed ≡ self.old.passed + 1 }
        ensures none { result ≡ None → self.old.again ≡ false → visited_of (is_fixed self.old.again self.old.opened (length self.old.stops.items)) (λ k. holds_at (λ s. is_live s.stand) self.old.stops.items k) (visits_left self.old.again self.old.visit.items self.old.opened (length self.old.stops.items) self.old.last self.old.passed) ≡ [] }
        ensures first { self.old.passed ≡ 0 → BeginsLive (λ s. is_live s.stand) self.old.again self.old.visit.items self.old.opened self.old.stops.items → list_any (λ s. is_live s.stand) self.old.stops.items ≡ true → Passes (λ s. is_live s.stand) self.old.stops.items result }
        ensures ends { result ≡ None → self.old.again ≡ true → IfSome (slice_get self.old.visit.items self.old.passed) (λ p. length self.old.stops.items ≤ p) }
    {
        if self.again {
            return self.carried_again();
        }
        if self.opened < self.stops.len() {
            return self.brought_up();
        }
        self.next_in_round()
    }

    /// The place of the slave whose datagram stands next, if it fits: `None` where no slave is left for the frame.
    pub fn due(&mut self) -> Option<usize>
        ensures inside { IfSome result (λ p. p < length self.new.stops.items) }
        ensures few { IfSome result (λ p. self.new.count < 16) }
        ensures stops { self.new.stops ≡ self.old.stops }
        ensures kept { (self.new.count ≡ self.old.count) × (self.new.again ≡ self.old.again) × (self.new.visit ≡ self.old.visit) × (self.new.opened ≡ self.old.opened) × (self.new.last ≡ self.old.last) }
        ensures rest { (self.new.missed ≡ self.old.missed) × (self.new.retry ≡ self.old.retry) }
        ensures left { (p : ℕ) → result ≡ Some p → (self.old.again ≡ true → AreOnce self.old.visit.items) →
            IsNextOf p (visits_left self.old.again self.old.visit.items self.old.opened (length self.old.stops.items) self.old.last self.old.passed) (visits_left self.old.again self.old.visit.items self.old.opened (length self.old.stops.items) self.old.last self.new.passed) }
        ensures order { (p : ℕ) → result ≡ Some p → (self.old.passed < self.new.passed) × (visited_of (is_fixed self.old.again self.old.opened (length self.old.stops.items)) (λ k. holds_at (λ s. is_live s.stand) self.old.stops.items k) (visits_left self.old.again self.old.visit.items self.old.opened (length self.old.stops.items) self.old.last self.old.passed) ≡ p ∷ visited_of (is_fixed self.old.again self.old.opened (length self.old.stops.items)) (λ k. holds_at (λ s. is_live s.stand) self.old.stops.items k) (visits_left self.old.again self.old.visit.items self.old.opened (length self.old.stops.items) self.old.last self.new.passed)) }
        ensures fixed { (p : ℕ) → result ≡ Some p → self.old.again ≡ true → self.new.passed ≡ self.old.passed + 1 }
        ensures none { result ≡ None → self.old.count < 16 → self.old.again ≡ false → visited_of (is_fixed self.old.again self.old.opened (length self.old.stops.items)) (λ k. holds_at (λ s. is_live s.stand) self.old.stops.items k) (visits_left self.old.again self.old.visit.items self.old.opened (length self.old.stops.items) self.old.last self.old.passed) ≡ [] }
        ensures first { self.old.count ≡ 0 → self.old.passed ≡ 0 → BeginsLive (λ s. is_live s.stand) self.old.again self.old.visit.items self.old.opened self.old.stops.items → list_any (λ s. is_live s.stand) self.old.stops.items ≡ true → Passes (λ s. is_live s.stand) self.old.stops.items result }
        ensures ends { result ≡ None → self.old.count < 16 → self.old.again ≡ true → IfSome (slice_get self.old.visit.items self.old.passed) (λ p. length self.old.stops.items ≤ p) }
    {
        if self.count >= 16 {
            return None;
        }
        self.candidate()
    }

    /// Whether the frame has room for the datagram of a visit with this wish of the slave at this place.
    pub fn fits(&mut self, place: usize, wish: Option<Wish>, frame: &FrameBuf) -> bool
        requires inside { place < length self.old.stops.items }
        ensures count { self.new.count ≡ self.old.count }
        ensures lives { StepsAt (λ s t. ((x : Speech Body H.Asked Reply) (more : Body → Bool) (passed : H.Asked → Bool) (made recover : ℕ) (spot : Spot) (l : Life Body H.Asked Reply) → StopLived s x recover spot l →
            HoldShows x H.acknowledged more passed made l (StopLived t x recover spot)) × (t.place ≡ s.place) × (t.start ≡ s.start) × (t.under ≡ s.under) × (t.at ≡ s.at)) place self.old.stops.items self.new.stops.items }
        ensures long { length self.new.stops.items ≡ length self.old.stops.items }
        ensures step { StepsAt (λ s t. LinkStays s.side t.side × (t.stand ≡ s.stand) × (t.side.passing ≡ s.side.passing) × (H.script t.side.hand ≡ H.script s.side.hand)) place self.old.stops.items self.new.stops.items }
        ensures made { (x : Spot → Speech Body H.Asked Reply) (more : Body → Bool) (passed : H.Asked → Bool) (made recover index count : ℕ) (lens : ℕ → Lens) (left : List ℕ) (lives : List (Lived H.Asked Reply)) (octets : List ℕ) (begun : ℕ → Option (Service H.Asked)) → AreDistinct lives → is_in place left ≡ true →
            FrameMade (λ ds i a s. MadeBy s x more passed made begun lens recover index left ds i a) octets count lives self.old.stops.items →
            FrameMade (λ ds i a s. MadeBy s x more passed made begun lens recover index left ds i a) octets count lives self.new.stops.items }
        ensures tour { (self.new.again ≡ self.old.again) × (self.new.visit ≡ self.old.visit) × (self.new.opened ≡ self.old.opened) × (self.new.last ≡ self.old.last) × (self.new.missed ≡ self.old.missed) × (self.new.retry ≡ self.old.retry) × (self.new.passed ≡ self.old.passed) }
        ensures first { length frame.now.items ≡ 16 → result ≡ true }
        ensures join { StepsAt (λ s t. H.join t.side.hand ≡ H.join s.side.hand) place self.old.stops.items self.new.stops.items }
        ensures room { StepsAt (λ s t. Looks frame.now.items result s t) place self.old.stops.items self.new.stops.items }
        ensures recalled { StepsAt (λ s t. recall_in t.side ≡ recall_in s.side) place self.old.stops.items self.new.stops.items }
        ensures read { StepsAt (λ s t. ReadStays s t × (H.awaits s.side.hand ≡ true → H.awaits t.side.hand ≡ true)) place self.old.stops.items self.new.stops.items }
        ensures still { StepsAt (λ s t. is_free_side s.side ≡ true → is_some wish ≡ true → t.side ≡ s.side) place self.old.stops.items self.new.stops.items }
        ensures begins { result ≡ true → StepsAt (λ s t. FitsFirst frame.now.items wish s) place self.old.stops.items self.new.stops.items }
    {
        self.stops[place].ahead(wish) <= datagrams::room(frame)
    }

    /// The slave at this place is visited: a service comes into hand where one may, and its datagram stands next in
    /// the frame, with this index, which is the frame's number modulo 256, if there is room for it. Tells whether a service came into hand.
    pub fn visit(
        &mut self,
        place: usize,
        wish: Option<Wish>,
        index: u8,
        frame: &mut FrameBuf,
    ) -> bool
        requires inside { place < length self.old.stops.items }
        requires few { self.old.count < 16 }
        requires begun { (ds : List Raw.Datagram) × IsBegun frame.old.items ds }
        ensures begun { (ds : List Raw.Datagram) × IsBegun frame.new.items ds }
        ensures lives { StepsAt (λ s t. ((x : Speech Body H.Asked Reply) (more : Body → Bool) (passed : H.Asked → Bool) (made recover : ℕ) (spot : Spot) (lens : ℕ → Lens) (l : Life Body H.Asked Reply) →
            (lens s.side.station).out ≡ s.side.out.len → (lens s.side.station).back ≡ in_area_len s.side.inn → StopSpot spot s → (s.stand ≡ Stand.Open → is_some l.era.passing ≡ is_some s.side.passing) → StopLived s x recover spot l →
            NextShows x H.acknowledged more passed made l (wish_begun result wish (H.ready s.side.hand)) (λ n. StopLived t x recover spot n ×
            (t.under ≡ true → StandMeant lens t.side.station index t.side.carried t.stand n (datagram_seen lens (stand_gram t.side.station index t.stand t.side.out t.side.inn t.side.duty t.side.carried))))) × ((ds : List Raw.Datagram) → IsBegun frame.old.items ds → t.under ≡ true → IsBegun frame.new.items (ds ++ (stand_gram t.side.station index t.stand t.side.out t.side.inn t.side.duty t.side.carried) ∷ [])) × (t.under ≡ false → frame.new.items ≡ frame.old.items) × (t.under ≡ true → t.at ≡ self.old.count) × (t.place ≡ s.place) × (t.start ≡ s.start)) place self.old.stops.items self.new.stops.items }
        ensures long { length self.new.stops.items ≡ length self.old.stops.items }
        ensures step { StepsAt (λ s t. LinkStays s.side t.side × (t.stand ≡ s.stand) × (t.under ≡ true → IsClearFor t.stand t.side.carried t.side.inn) × (t.under ≡ true → self.new.count ≡ self.old.count + 1) × (t.under ≡ false → self.new.count ≡ self.old.count)) place self.old.stops.items self.new.stops.items }
        ensures made { (x : Spot → Speech Body H.Asked Reply) (more : Body → Bool) (passed : H.Asked → Bool) (made recover : ℕ) (lens : ℕ → Lens) (left next : List ℕ) (lives : List (Lived H.Asked Reply)) (begun now : ℕ → Option (Service H.Asked)) → AreDistinct lives → is_in place left ≡ true → is_in place next ≡ false → ((k : ℕ) → is_in k next ≡ true → is_in k left ≡ true) → IfSome (slice_get self.old.stops.items place) (λ s. ComesAt begun now s.place (wish_begun result wish (H.ready s.side.hand))) →
            FrameMade (λ ds i a s. MadeBy s x more passed made begun lens recover index left ds i a) frame.old.items self.old.count lives self.old.stops.items →
            FrameMade (λ ds i a s. MadeBy s x more passed made now lens recover index next ds i a) frame.new.items self.new.count lives self.new.stops.items }
        ensures tour { (self.new.again ≡ self.old.again) × (self.new.opened ≡ self.old.opened) × (self.new.last ≡ self.old.last) × (self.new.missed ≡ self.old.missed) × (self.new.retry ≡ self.old.retry) × (self.new.passed ≡ self.old.passed) }
        ensures visits { (self.old.again ≡ false → length self.old.visit.items < 16) → IsCarried (nat_lt self.old.count self.new.count) self.old.again place self.old.visit.items self.new.visit.items }
        ensures first { length frame.old.items ≡ 16 → holds_at (λ s. is_live s.stand) self.old.stops.items place ≡ true → self.new.count ≡ self.old.count + 1 }
        ensures began { StepsAt (λ s t. (takes_ready result wish ≡ true → is_some (H.ready s.side.hand) ≡ true) × (H.script t.side.hand ≡ (if takes_ready result wish then H.behind s.side.hand else H.script s.side.hand)) ×
            (s.side.passing ≡ None → (takes_ready result wish ≡ true → (q : H.Asked) → H.ready s.side.hand ≡ Some q → H.passed q ≡ false) → t.side.passing ≡ None)) place self.old.stops.items self.new.stops.items }
        ensures join { StepsAt (λ s t. H.join t.side.hand ≡ H.join s.side.hand) place self.old.stops.items self.new.stops.items }
        ensures passing { StepsAt (λ s t. (x : Speech Body H.Asked Reply) (made recover : ℕ) (spot : Spot) (hold : Bool) (l : Life Body H.Asked Reply) → StopLived s x recover spot l → StopPassing s l →
            (let n = life_next x H.acknowledged H.more H.passed made l l.stand (record { begin = wish_begun result wish (H.ready s.side.hand); hold = hold }) in
            Counts made (wish_begun result wish (H.ready s.side.hand)) l n → StopPassing t (n))) place self.old.stops.items self.new.stops.items }
        ensures room { StepsAt (λ s t. Visits frame.old.items frame.new.items s t) place self.old.stops.items self.new.stops.items }
        ensures recalled { StepsAt (λ s t. recall_in t.side ≡ recall_in s.side) place self.old.stops.items self.new.stops.items }
        ensures takes { StepsAt (λ s t. TakesUp t.stand t.side.out.state (H.knows t.side.hand) (λ x d a. ShowsOf t.side x d a)) place self.old.stops.items self.new.stops.items }
        ensures begins { StepsAt (λ s t. BeginsAll s.stand result (H.knows s.side.hand) s.side.duty s.side.passing H.acknowledged (λ x d a. ShowsOf s.side x d a) wish (H.ready s.side.hand)) place self.old.stops.items self.new.stops.items }
        ensures read { StepsAt (λ s t. ReadStays s t) place self.old.stops.items self.new.stops.items }
        ensures did { StepsAt (λ s t. result ≡ stop_begins s wish) place self.old.stops.items self.new.stops.items }
        ensures lacks { StepsAt (λ s t. LacksFirst frame.old.items result wish s t) place self.old.stops.items self.new.stops.items }
    {
        let at = self.count;
        let began = self.stops[place].visit(wish, at, index, frame);
        let under = self.stops[place].under;
        self.carry_where(under, place);
        began
    }

    // The same, where the slave has it.
    fn carry_where(&mut self, under: bool, place: usize)
        requires few { self.old.count < 16 }
        ensures stops { self.new.stops ≡ self.old.stops }
        ensures carried { under ≡ true → self.new.count ≡ self.old.count + 1 }
        ensures still { under ≡ false → self.new.count ≡ self.old.count }
        ensures tour { (self.new.again ≡ self.old.again) × (self.new.opened ≡ self.old.opened) × (self.new.last ≡ self.old.last) × (self.new.missed ≡ self.old.missed) × (self.new.retry ≡ self.old.retry) × (self.new.passed ≡ self.old.passed) }
        ensures visits { (self.old.again ≡ false → length self.old.visit.items < 16) → IsCarried under self.old.again place self.old.visit.items self.new.visit.items }
    {
        if under {
            self.carry(place);
        }
    }

    // The slave at this place has the next datagram of the frame.
    fn carry(&mut self, place: usize)
        requires few { self.old.count < 16 }
        ensures stops { self.new.stops ≡ self.old.stops }
        ensures count { self.new.count ≡ self.old.count + 1 }
        ensures tour { (self.new.again ≡ self.old.again) × (self.new.opened ≡ self.old.opened) × (self.new.last ≡ self.old.last) × (self.new.missed ≡ self.old.missed) × (self.new.retry ≡ self.old.retry) × (self.new.passed ≡ self.old.passed) }
        ensures visits { (self.old.again ≡ false → length self.old.visit.items < 16) → IsCarried true self.old.again place self.old.visit.items self.new.visit.items }
    {
        if !self.again {
            let _room = self.visit.try_push(place);
        }
        self.count += 1;
    }

    /// Ends the frame: `false` where it has no datagram, since no slave is live.
    pub fn finish(&self, frame: &mut FrameBuf) -> bool
        requires { (ds : List Raw.Datagram) × IsBegun frame.old.items ds }
        ensures some { result ≡ not (self.now.count == 0) }
        ensures reads { result ≡ true → (ds : List Raw.Datagram) → IsBegun frame.old.items ds → length ds ≡ self.now.count → Each (λ d. IsNamed d.head.command) ds → IsFrame frame.new.items (chained ds) }
        ensures made { result ≡ true → (x : Spot → Speech Body H.Asked Reply) (more : Body → Bool) (passed : H.Asked → Bool) (made recover index : ℕ) (lens : ℕ → Lens) (left : List ℕ) (lives : List (Lived H.Asked Reply)) (begun : ℕ → Option (Service H.Asked)) →
            FrameMade (λ ds i a s. MadeBy s x more passed made begun lens recover index left ds i a) frame.old.items self.now.count lives self.now.stops.items →
            FrameSent (λ ds a b s. SentBy s x more passed made begun lens recover ds a b) frame.new.items lives self.now.stops.items }
        ensures size { result ≡ true → frame_size frame.new.items ≡ length frame.old.items - 16 }
    {
        if self.count == 0 {
            return false;
        }
        datagrams::finish(frame);
        true
    }
}
