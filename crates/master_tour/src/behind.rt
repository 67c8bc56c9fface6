//! Where a tour goes on behind a frame.

ghost use Rattle.std.specs.Prelude.{◌≡◌};

use crate::tour::Tour;
use datagrams::FrameBuf;
use master_side::Hand;

impl<H: Hand> Tour<H> {
    ghost use Rattle.std.specs.Prelude.{◌≡◌, ◌≤◌, ◌<◌, ◌-◌, ℕ, List, length, true, ◌+◌, Option, Some, Bool, false, not, nat_lt, ◌&&◌, if◌then◌else◌, None};
    ghost use Rattle.master_side.specs.of_exchange_model.Exchange.{Speech};
    ghost use Rattle.master_side.specs.of_link_mails.Body.{Body};
    ghost use Rattle.master_side.specs.of_segment_model.Slaves.{Datagram};
    ghost use Rattle.master_side.specs.of_segment_model.Returned.{Returns};
    ghost use Rattle.master_side.specs.of_frame_view.View.{Lens};
    ghost use Rattle.master_side.specs.of_frame_view.Seen.{seen};
    ghost use Rattle.master_side.specs.of_master_duty.Reply.{Reply};
    ghost use Rattle.master_tour.specs.Walks.{EachPair};
    ghost use Rattle.master_tour.specs.Stands.{came_at, given_where};
    ghost use Rattle.master_tour.specs.Orders.{last_behind};
    ghost use Rattle.master_side.specs.of_frame_view.Shares.{Lived, AllBoth, AllThree, lived_back, lived_lost};
    ghost use Rattle.master_side.specs.Heard.{Brought};
    ghost use Rattle.master_tour.specs.Brings.{accepted_in};
    ghost use Rattle.master_tour.specs.Joins.{Joins};
    ghost use Rattle.master_tour.specs.Replied.{StopReplies};
    ghost use Rattle.master_side.specs.of_life_model.Lives.{Life, Spot, life_back, life_lost};
    ghost use Rattle.master_side.specs.of_segment_model.Record.{News, Kept};
    ghost use Rattle.master_side.specs.Passing.{counts_at, news_back, news_lost};
    ghost use Rattle.master_tour.specs.Passing.{StandKept};
    ghost use Rattle.master_side.specs.Sides.{LinkStays};
    ghost use Rattle.master_tour.specs.Stops.{StopSpot, StopLived, StopFollows, StopUnder, StopPassing, StopSized, LivesAt};
    ghost use Rattle.master_tour.specs.Counting.{CameCounts, LostCounts};
    ghost use Rattle.master_tour.specs.Goes.{is_opened, opened_behind};
    ghost use Rattle.master_tour.specs.Rooms.{LosesAgain};
    ghost use Rattle.master_tour.specs.Behind.{StopBack, StopLost};

    // The place carried last, as the tour goes on from it: a first bring-up leaves none.
    fn last_behind(&self) -> Option<usize>
        ensures { result ≡ last_behind self.now.opened (length self.now.stops.items) self.now.last self.now.visit.items }
    {
        match self.visit.last() {
            Some(place) if self.opened >= self.stops.len() => Some(*place),
            Some(_) => None,
            None => self.last,
        }
    }

    // How many slaves from the first on have ended their first bring-up, or were given up in it.
    fn opened_behind(&self) -> usize
        ensures { result ≡ opened_behind (λ s. is_opened s.stand) self.now.opened self.now.stops.items }
    {
        if self.opened >= self.stops.len() {
            return self.opened;
        }
        if self.stops[self.opened].is_opened() {
            self.opened
        } else {
            self.opened + 1
        }
    }

    // The slaves hear their datagrams of the frame that came back.
    fn hear(&mut self, frame: &FrameBuf, made: u32)
        ensures lives { (lens : ℕ → Lens) (sent : List (Datagram Body)) → Returns sent (seen lens frame.now.items) → 1 ≤ length sent →
            EachPair (λ s t. ((x : Speech Body H.Asked Reply) (more : Body → Bool) (passed : H.Asked → Bool) (number recover : ℕ) (spot : Spot) (ns : List (News Body)) (l : Life Body H.Asked Reply) →
            StopSpot spot s → StopUnder lens s l sent → StopLived s x recover spot l →
            StopFollows t x recover spot l (life_back x H.acknowledged more passed number spot ns (seen lens frame.now.items) (came_at s.under s.at (seen lens frame.now.items)) l l.stand)) × (t.place ≡ s.place) × (t.start ≡ s.start)) self.old.stops.items self.new.stops.items }
        ensures long { length self.new.stops.items ≡ length self.old.stops.items }
        ensures kept { EachPair (λ s t. LinkStays s.side t.side × (StopSized s → StopSized t)) self.old.stops.items self.new.stops.items }
        ensures tour { (self.new.again ≡ self.old.again) × (self.new.visit ≡ self.old.visit) × (self.new.opened ≡ self.old.opened) × (self.new.last ≡ self.old.last) × (self.new.missed ≡ self.old.missed) × (self.new.retry ≡ self.old.retry) }
        ensures stays { EachPair (λ s t. (H.script t.side.hand ≡ H.script s.side.hand) × (s.side.passing ≡ None → t.side.passing ≡ None)) self.old.stops.items self.new.stops.items }
        ensures passing { (lens : ℕ → Lens) (sent : List (Datagram Body)) → Returns sent (seen lens frame.now.items) → 1 ≤ length sent → EachPair (λ s t. (x : Speech Body H.Asked Reply) (number recover : ℕ) (spot : Spot) (kept : Kept) (l : Life Body H.Asked Reply) →
            StopSpot spot s → StopUnder lens s l sent → StopLived s x recover spot l →
            StandKept s.stand kept l → StopPassing s l → StopPassing t (life_back x H.acknowledged H.more H.passed number spot (news_back s.side.station kept (counts_at s.side.read_at s.side.pace made) (seen lens frame.now.items)) (seen lens frame.now.items) (came_at s.under s.at (seen lens frame.now.items)) l l.stand)) self.old.stops.items self.new.stops.items }
        ensures brought { (lens : ℕ → Lens) (sent : List (Datagram Body)) → Returns sent (seen lens frame.now.items) → 1 ≤ length sent → EachPair (λ s t. (x : Speech Body H.Asked Reply) (recover : ℕ) (spot : Spot) (l : Life Body H.Asked Reply) →
            StopSpot spot s → StopUnder lens s l sent → StopLived s x recover spot l →
            Brought (H.brings t.side.hand) t.side.heard (accepted_in spot l (seen lens frame.now.items))) self.old.stops.items self.new.stops.items }
        ensures replied { EachPair (λ s t. StopReplies frame.now.items s t) self.old.stops.items self.new.stops.items }
        ensures joined { (lens : ℕ → Lens) (sent : List (Datagram Body)) → Returns sent (seen lens frame.now.items) → 1 ≤ length sent → EachPair (λ s t. (x : Speech Body H.Asked Reply) (recover : ℕ) (spot : Spot) (l : Life Body H.Asked Reply) →
            StopSpot spot s → StopUnder lens s l sent → StopLived s x recover spot l →
            Joins H.unjoined H.joined (H.completed t.side.hand) t.news t.side.heard (H.join s.side.hand) (H.join t.side.hand) (accepted_in spot l (seen lens frame.now.items))) self.old.stops.items self.new.stops.items }
        ensures recalls { (lens : ℕ → Lens) (sent : List (Datagram Body)) → Returns sent (seen lens frame.now.items) → 1 ≤ length sent → EachPair (λ s t. (x : Speech Body H.Asked Reply) (recover : ℕ) (spot : Spot) (l : Life Body H.Asked Reply) →
            StopSpot spot s → StopUnder lens s l sent → StopLived s x recover spot l →
            StopBack x spot l (seen lens frame.now.items) (H.knows s.side.hand) (H.knows t.side.hand) s t) self.old.stops.items self.new.stops.items }
        ensures counts { (lens : ℕ → Lens) (sent : List (Datagram Body)) → Returns sent (seen lens frame.now.items) → 1 ≤ length sent → EachPair (λ s t. CameCounts lens sent (seen lens frame.now.items) made s t) self.old.stops.items self.new.stops.items }
        ensures pace { EachPair (λ s t. t.side.pace ≡ s.side.pace) self.old.stops.items self.new.stops.items }
    {
        let octets = frame.as_slice();
        if datagrams::fault(octets).is_none() {
            self.all_back(octets, made);
        }
    }

    /// The frame under way came back. `made` is its number.
    pub fn returned(&mut self, frame: &FrameBuf, made: u32)
        ensures lives { (lens : ℕ → Lens) (sent : List (Datagram Body)) → Returns sent (seen lens frame.now.items) → 1 ≤ length sent →
            EachPair (λ s t. ((x : Speech Body H.Asked Reply) (more : Body → Bool) (passed : H.Asked → Bool) (number recover : ℕ) (spot : Spot) (ns : List (News Body)) (l : Life Body H.Asked Reply) →
            StopSpot spot s → StopUnder lens s l sent → StopLived s x recover spot l →
            StopFollows t x recover spot l (life_back x H.acknowledged more passed number spot ns (seen lens frame.now.items) (came_at s.under s.at (seen lens frame.now.items)) l l.stand)) × (t.place ≡ s.place) × (t.start ≡ s.start)) self.old.stops.items self.new.stops.items }
        ensures long { length self.new.stops.items ≡ length self.old.stops.items }
        ensures shown { (lens : ℕ → Lens) (sent : List (Datagram Body)) → Returns sent (seen lens frame.now.items) → 1 ≤ length sent → (x : Spot → Speech Body H.Asked Reply) (more : Body → Bool) (passed : H.Asked → Bool) (number recover : ℕ) (lives : List (Lived H.Asked Reply)) →
            AllBoth (λ a s. LivesAt s (x a.spot) lens recover a × StopUnder lens s a.life sent) lives self.old.stops.items →
            AllThree (λ a s t. (ns : List (News Body)) → LivesAt t (x a.spot) lens recover (lived_back (x a.spot) H.acknowledged more passed number (seen lens frame.now.items) a (record { under = s.under; at = s.at }) ns)) lives self.old.stops.items self.new.stops.items }
        ensures tour { (self.new.visit ≡ self.old.visit) × (self.new.again ≡ false) × (self.new.missed ≡ 0) × (self.new.retry ≡ self.old.retry) }
        ensures opened { self.new.opened ≡ opened_behind (λ s. is_opened s.stand) self.old.opened self.new.stops.items }
        ensures last { self.new.last ≡ last_behind self.old.opened (length self.old.stops.items) self.old.last self.old.visit.items }
        ensures stays { EachPair (λ s t. (H.script t.side.hand ≡ H.script s.side.hand) × (s.side.passing ≡ None → t.side.passing ≡ None)) self.old.stops.items self.new.stops.items }
        ensures passing { (lens : ℕ → Lens) (sent : List (Datagram Body)) → Returns sent (seen lens frame.now.items) → 1 ≤ length sent → EachPair (λ s t. (x : Speech Body H.Asked Reply) (number recover : ℕ) (spot : Spot) (kept : Kept) (l : Life Body H.Asked Reply) →
            StopSpot spot s → StopUnder lens s l sent → StopLived s x recover spot l →
            StandKept s.stand kept l → StopPassing s l → StopPassing t (life_back x H.acknowledged H.more H.passed number spot (news_back s.side.station kept (counts_at s.side.read_at s.side.pace made) (seen lens frame.now.items)) (seen lens frame.now.items) (came_at s.under s.at (seen lens frame.now.items)) l l.stand)) self.old.stops.items self.new.stops.items }
        ensures brought { (lens : ℕ → Lens) (sent : List (Datagram Body)) → Returns sent (seen lens frame.now.items) → 1 ≤ length sent → EachPair (λ s t. (x : Speech Body H.Asked Reply) (recover : ℕ) (spot : Spot) (l : Life Body H.Asked Reply) →
            StopSpot spot s → StopUnder lens s l sent → StopLived s x recover spot l →
            Brought (H.brings t.side.hand) t.side.heard (accepted_in spot l (seen lens frame.now.items))) self.old.stops.items self.new.stops.items }
        ensures replied { EachPair (λ s t. StopReplies frame.now.items s t) self.old.stops.items self.new.stops.items }
        ensures joined { (lens : ℕ → Lens) (sent : List (Datagram Body)) → Returns sent (seen lens frame.now.items) → 1 ≤ length sent → EachPair (λ s t. (x : Speech Body H.Asked Reply) (recover : ℕ) (spot : Spot) (l : Life Body H.Asked Reply) →
            StopSpot spot s → StopUnder lens s l sent → StopLived s x recover spot l →
            Joins H.unjoined H.joined (H.completed t.side.hand) t.news t.side.heard (H.join s.side.hand) (H.join t.side.hand) (accepted_in spot l (seen lens frame.now.items))) self.old.stops.items self.new.stops.items }
        ensures recalls { (lens : ℕ → Lens) (sent : List (Datagram Body)) → Returns sent (seen lens frame.now.items) → 1 ≤ length sent → EachPair (λ s t. (x : Speech Body H.Asked Reply) (recover : ℕ) (spot : Spot) (l : Life Body H.Asked Reply) →
            StopSpot spot s → StopUnder lens s l sent → StopLived s x recover spot l →
            StopBack x spot l (seen lens frame.now.items) (H.knows s.side.hand) (H.knows t.side.hand) s t) self.old.stops.items self.new.stops.items }
        ensures counts { (lens : ℕ → Lens) (sent : List (Datagram Body)) → Returns sent (seen lens frame.now.items) → 1 ≤ length sent → EachPair (λ s t. CameCounts lens sent (seen lens frame.now.items) made s t) self.old.stops.items self.new.stops.items }
        ensures pace { EachPair (λ s t. t.side.pace ≡ s.side.pace) self.old.stops.items self.new.stops.items }
    {
        self.hear(frame, made);
        let last = self.last_behind();
        let opened = self.opened_behind();
        self.again = false;
        self.missed = 0;
        self.last = last;
        self.opened = opened;
    }

    /// The frame under way was lost: the same slaves come again, or, behind one lost frame more than `retry` in a row,
    /// are given up.
    pub fn lost(&mut self)
        ensures lives { (lens : ℕ → Lens) (octets : List ℕ) → EachPair (λ s t. ((x : Speech Body H.Asked Reply) (more : Body → Bool) (passed : H.Asked → Bool) (number recover : ℕ) (spot : Spot) (ns : List (News Body)) (l : Life Body H.Asked Reply) →
            StopSpot spot s → StopUnder lens s l (seen lens octets) → StopLived s x recover spot l →
            StopFollows t x recover spot l (given_where (not (nat_lt self.old.missed self.old.retry) && s.under) recover spot number (life_lost x H.acknowledged more passed spot ns (seen lens octets) l l.stand))) × (t.place ≡ s.place) × (t.start ≡ s.start)) self.old.stops.items self.new.stops.items }
        ensures long { length self.new.stops.items ≡ length self.old.stops.items }
        ensures shown { (lens : ℕ → Lens) (octets : List ℕ) (x : Spot → Speech Body H.Asked Reply) (more : Body → Bool) (passed : H.Asked → Bool) (number recover : ℕ) (lives : List (Lived H.Asked Reply)) →
            AllBoth (λ a s. LivesAt s (x a.spot) lens recover a × StopUnder lens s a.life (seen lens octets)) lives self.old.stops.items →
            AllThree (λ a s t. (ns : List (News Body)) → LivesAt t (x a.spot) lens recover (lived_lost (x a.spot) H.acknowledged more passed (not (nat_lt self.old.missed self.old.retry)) recover number (seen lens octets) a (record { under = s.under; at = s.at }) ns)) lives self.old.stops.items self.new.stops.items }
        ensures tour { (self.new.visit ≡ self.old.visit) × (self.new.again ≡ nat_lt self.old.missed self.old.retry) × (self.new.missed ≡ (if nat_lt self.old.missed self.old.retry then self.old.missed + 1 else 0)) × (self.new.retry ≡ self.old.retry) }
        ensures opened { self.new.opened ≡ (if nat_lt self.old.missed self.old.retry then self.old.opened else opened_behind (λ s. is_opened s.stand) self.old.opened self.new.stops.items) }
        ensures last { self.new.last ≡ (if nat_lt self.old.missed self.old.retry then self.old.last else last_behind self.old.opened (length self.old.stops.items) self.old.last self.old.visit.items) }
        ensures stays { EachPair (λ s t. (H.script t.side.hand ≡ H.script s.side.hand) × (s.side.passing ≡ None → t.side.passing ≡ None)) self.old.stops.items self.new.stops.items }
        ensures passing { (lens : ℕ → Lens) (octets : List ℕ) → EachPair (λ s t. (x : Speech Body H.Asked Reply) (number recover : ℕ) (spot : Spot) (kept : Kept) (l : Life Body H.Asked Reply) →
            StopSpot spot s → StopUnder lens s l (seen lens octets) → StopLived s x recover spot l →
            StandKept s.stand kept l → StopPassing s l → StopPassing t (given_where (not (nat_lt self.old.missed self.old.retry) && s.under) recover spot number (life_lost x H.acknowledged H.more H.passed spot (news_lost s.side.station kept (seen lens octets)) (seen lens octets) l l.stand))) self.old.stops.items self.new.stops.items }
        ensures join { EachPair (λ s t. (not (nat_lt self.old.missed self.old.retry) && s.under) ≡ false → H.join t.side.hand ≡ H.join s.side.hand) self.old.stops.items self.new.stops.items }
        ensures again { EachPair (λ s t. nat_lt self.old.missed self.old.retry ≡ true → LosesAgain s t) self.old.stops.items self.new.stops.items }
        ensures recalled { EachPair (λ s t. StopLost (not (nat_lt self.old.missed self.old.retry)) (H.knows s.side.hand) (H.knows t.side.hand) s t) self.old.stops.items self.new.stops.items }
        ensures counts { EachPair (λ s t. LostCounts s t) self.old.stops.items self.new.stops.items }
        ensures pace { EachPair (λ s t. t.side.pace ≡ s.side.pace) self.old.stops.items self.new.stops.items }
    {
        let missed = self.missed;
        let comes_again = missed < self.retry;
        self.all_lost(!comes_again);
        if comes_again {
            self.again = true;
            self.missed = missed + 1;
            return;
        }
        let last = self.last_behind();
        let opened = self.opened_behind();
        self.again = false;
        self.missed = 0;
        self.last = last;
        self.opened = opened;
    }
}
