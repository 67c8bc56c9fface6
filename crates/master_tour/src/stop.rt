ghost use Rattle.std.specs.Prelude.{◌≡◌, ◌+◌, take, drop, true, nat_lt, nat_le};
ghost use Rattle.master_side.specs.of_datagrams.Frame.{IsPart};

use crate::cursor::Cursor;
use al_state::{BringUp, reopen_new};
use datagrams::Part;
use master_side::{Hand, Side};

/// How the master stands to a slave.
#[derive(Clone, Copy)]
pub enum Stand {
    /// It is brought up, or opened anew.
    Opening(BringUp),
    /// It is open: its mailboxes are accessed.
    Open,
    /// It was given up for good, and gets no further datagram.
    Gone,
}

/// What a frame has turned a slave's stand into.
#[derive(Clone, Copy)]
pub enum Turned {
    /// It was seen in Init: what its mailboxes and services were is gone.
    Cleared,
    /// It is open.
    Opened,
    /// It was given up, for good or not.
    GivenUp,
}

/// A slave of the tour.
#[derive(Drop)]
pub struct Stop<H: Hand> {
    pub side: Side<H>,
    pub stand: Stand,
    /// Its place in the ring, below 16.
    pub place: u32,
    /// The AL state that it is brought up in, 2 or 3.
    pub start: u8,
    /// How often it may be given up and is opened anew.
    pub spare: u32,
    /// What the last frame turned its stand into.
    pub news: Option<Turned>,
    /// The frame under way has a datagram of it.
    pub under: bool,
    /// The place of that among the frame's datagrams, below 16.
    pub at: usize,
    pub ghost near: { nat_lt place 16 ≡ true },
    pub ghost few: { nat_lt at 16 ≡ true },
    pub ghost named: { nat_le 1 side.station ≡ true },
}

// The body of a datagram of a frame.
pub(crate) fn body_of(octets: &[u8], part: Part) -> &[u8]
    requires { IsPart octets.now part }
    ensures { result.now ≡ take part.head.len (drop (part.at + 10) octets.now) }
{
    let start = part.at + 10;
    let rest = &octets[start..];
    &rest[..part.head.len as usize]
}

impl<H: Hand> Stop<H> {
    ghost use Rattle.std.specs.Prelude.{◌≡◌, ◌≤◌, ◌<◌, ◌-◌, ℕ, List, true, false, ◌&&◌, None, ◌%◌, Bool, Option, Some, suc};
    ghost use Rattle.master_side.specs.of_datagrams.Datagram as Raw;
    ghost use Rattle.master_side.specs.of_datagrams.Frame.{IsFrame};
    ghost use Rattle.master_side.specs.of_exchange_model.Exchange.{Speech};
    ghost use Rattle.master_side.specs.of_link_mails.Body.{Body};
    ghost use Rattle.master_side.specs.of_segment_model.Slaves.{Datagram, grams};
    ghost use Rattle.master_side.specs.of_link_model.Frames.{all_accepted};
    ghost use Rattle.master_side.specs.Heard.{Brought, HasJoined};
    ghost use Rattle.master_tour.specs.Brings.{accepted_in};
    ghost use Rattle.master_tour.specs.Joins.{Joins};
    ghost use Rattle.master_tour.specs.Replied.{OpenReplies, StopReplies};
    ghost use Rattle.master_side.specs.of_segment_model.Seats as Seats;
    ghost use Rattle.master_side.specs.of_state_model.Accounts.{Account, duty_access, account_back};
    ghost use Rattle.master_side.specs.of_frame_view.View.{Lens};
    ghost use Rattle.master_side.specs.of_frame_view.Seen.{seen};
    ghost use Rattle.master_side.specs.of_master_duty.Reply.{Reply};
    ghost use Rattle.master_tour.specs.Under.{Under, mine};
    ghost use Rattle.master_tour.specs.Cursor.{IsAtOne};
    ghost use Rattle.master_tour.specs.Goes.{is_live, is_opened};
    ghost use Rattle.master_tour.specs.Stands.{came_at, given_where};
    ghost use Rattle.master_side.specs.Again.{IsOnWay, Repeats, sent_len};
    ghost use Rattle.master_tour.specs.Rooms.{LosesAgain};
    ghost use Rattle.master_side.specs.of_segment_model.Returned.{Returns};
    ghost use Rattle.master_side.specs.of_al_state.declared.bringing.BringStep.{BringStep};
    ghost use Rattle.master_side.specs.of_life_model.Lives.{Life, Spot, passes, life_back, life_lost, reopens, gives_up};
    ghost use Rattle.master_side.specs.of_segment_model.Record.{News, Kept};
    ghost use Rattle.master_side.specs.of_segment_model.Ends as Ends;
    ghost use Rattle.master_side.specs.of_state_model.Accounts as Accounts;
    ghost use Rattle.master_side.specs.Passing.{PassingShows, IsKept, counts_at, news_back, news_lost};
    ghost use Rattle.master_side.specs.declared.passing.Passing.{Passing};
    ghost use Rattle.master_tour.specs.Passing.{StandPassing, StandKept};
    ghost use Rattle.master_tour.specs.declared.stop.Stand.{Stand};
    ghost use Rattle.master_tour.specs.Behind.{SameRecall, StopBack, StopLost, VisitBack};
    ghost use Rattle.master_side.specs.Carried.{one};
    ghost use Rattle.master_side.specs.Due.{EachDue};
    ghost use Rattle.master_side.specs.Sides.{ShowsOf, LinkStays};
    ghost use Rattle.master_tour.specs.Stops.{StopSpot, StopLived, StopFollows, StopUnder, StopPassing, StopSized};
    ghost use Rattle.master_tour.specs.Counting.{StandCounts, CameCounts, LostCounts, ReadStays};
    ghost use Rattle.master_side.specs.Counts.{CountsAt, counts_behind};

    /// Whether it gets datagrams: it was not given up for good.
    pub fn is_live(&self) -> bool
        ensures { result ≡ is_live self.now.stand }
    {
        !matches!(self.stand, Stand::Gone)
    }

    /// Whether it is brought up, or opened anew.
    pub fn is_opened(&self) -> bool
        ensures { result ≡ is_opened self.now.stand }
    {
        matches!(self.stand, Stand::Opening(_))
    }

    /// Its datagram of the frame that came back, while it is open. `made` is the frame's number.
    pub fn open_back(&mut self, cursor: &mut Cursor, octets: &[u8], made: u32)
        requires frame { (ds : List Raw.Datagram) × IsFrame octets.now ds }
        requires stands { IsAtOne octets.now cursor.old.number cursor.old.part }
        ensures stands { IsAtOne octets.now cursor.new.number cursor.new.part }
        ensures shown { (x : Speech Body H.Asked Reply) (frame : ℕ) (lens : ℕ → Lens) (back : List (Datagram Body)) (d : Seats.Side Body H.Asked Reply) (a : Account H.Asked Reply) → back ≡ seen lens octets.now →
            ShowsOf self.old.side x d a →
            Under self.old.side.station self.old.at self.old.under self.old.side.carried d.halves (duty_access a.hand) back →
            ShowsOf self.new.side x (Seats.side_back x frame self.old.side.station back d) (account_back self.old.side.station frame a back) }
        ensures link { LinkStays self.old.side self.new.side }
        ensures kept { (self.new.place ≡ self.old.place) × (self.new.start ≡ self.old.start) × (self.new.spare ≡ self.old.spare) × (self.new.news ≡ self.old.news) }
        ensures stand { self.new.stand ≡ self.old.stand }
        ensures script { H.script self.new.side.hand ≡ H.script self.old.side.hand }
        ensures unpassed { self.old.side.passing ≡ None → self.new.side.passing ≡ None }
        ensures passing { (x : Speech Body H.Asked Reply) (lens : ℕ → Lens) (kept : Kept) (p : Option Ends.Passing) (back : List (Datagram Body)) (d : Seats.Side Body H.Asked Reply) (a : Account H.Asked Reply) → back ≡ seen lens octets.now →
            ShowsOf self.old.side x d a → IsKept kept d → PassingShows (H.awaits self.old.side.hand) self.old.side.passing p →
            Under self.old.side.station self.old.at self.old.under self.old.side.carried d.halves (duty_access a.hand) back →
            PassingShows (H.awaits self.new.side.hand) self.new.side.passing (passes x H.acknowledged H.more H.passed p (news_back self.old.side.station kept (counts_at self.old.side.read_at self.old.side.pace made) back)) }
        ensures brought { self.old.side.heard ≡ None → (x : Speech Body H.Asked Reply) (lens : ℕ → Lens) (back : List (Datagram Body)) (d : Seats.Side Body H.Asked Reply) (a : Account H.Asked Reply) → back ≡ seen lens octets.now →
            ShowsOf self.old.side x d a →
            Under self.old.side.station self.old.at self.old.under self.old.side.carried d.halves (duty_access a.hand) back →
            Brought (H.brings self.new.side.hand) self.new.side.heard (all_accepted self.old.side.station d.halves (grams back)) }
        ensures replied { OpenReplies octets.now self.old self.new }
        ensures joined { self.old.side.heard ≡ None → (x : Speech Body H.Asked Reply) (lens : ℕ → Lens) (back : List (Datagram Body)) (d : Seats.Side Body H.Asked Reply) (a : Account H.Asked Reply) → back ≡ seen lens octets.now →
            ShowsOf self.old.side x d a →
            Under self.old.side.station self.old.at self.old.under self.old.side.carried d.halves (duty_access a.hand) back →
            HasJoined H.joined (H.completed self.new.side.hand) (H.join self.old.side.hand) (H.join self.new.side.hand) self.new.side.heard (all_accepted self.old.side.station d.halves (grams back)) }
        ensures met { self.old.under ≡ true → (x : Speech Body H.Asked Reply) (lens : ℕ → Lens) (back : List (Datagram Body)) (d : Seats.Side Body H.Asked Reply) (a : Account H.Asked Reply) → back ≡ seen lens octets.now →
            ShowsOf self.old.side x d a → Under self.old.side.station self.old.at self.old.under self.old.side.carried d.halves (duty_access a.hand) back →
            (b : Datagram Body) → mine self.old.side.station back ≡ one b → VisitBack a b self.old.side self.new.side }
        ensures unmet { self.old.under ≡ false → self.new.side ≡ self.old.side }
        ensures knows { (x : Speech Body H.Asked Reply) (lens : ℕ → Lens) (back : List (Datagram Body)) (d : Seats.Side Body H.Asked Reply) (a : Account H.Asked Reply) → back ≡ seen lens octets.now →
            ShowsOf self.old.side x d a → Under self.old.side.station self.old.at self.old.under self.old.side.carried d.halves (duty_access a.hand) back →
            H.knows self.old.side.hand ≡ true → EachDue x d.now (all_accepted self.old.side.station d.halves (grams back)) → H.knows self.new.side.hand ≡ true }
        ensures sure { H.knows self.new.side.hand ≡ true → H.knows self.old.side.hand ≡ true }
        ensures counts { (x : Speech Body H.Asked Reply) (lens : ℕ → Lens) (counts : Bool) (back : List (Datagram Body)) (d : Seats.Side Body H.Asked Reply) (a : Account H.Asked Reply) → back ≡ seen lens octets.now →
            ShowsOf self.old.side x d a → Under self.old.side.station self.old.at self.old.under self.old.side.carried d.halves (duty_access a.hand) back → CountsAt self.old.side.read_at self.old.side.pace made counts →
            CountsAt self.new.side.read_at self.new.side.pace (suc made) (counts_behind self.old.side.station self.old.side.pace made back counts) }
        ensures pace { self.new.side.pace ≡ self.old.side.pace }
    {
        if !self.under {
            return;
        }
        if cursor.seek(octets, self.at) {
            let part = cursor.part;
            let body = body_of(octets, part);
            self.side.returned(part.head.counter, body, made);
        }
    }

    /// The frame under way was lost, while it is open.
    pub fn open_lost(&mut self)
        ensures shown { (x : Speech Body H.Asked Reply) (sent : List (Datagram Body)) (d : Seats.Side Body H.Asked Reply) (a : Account H.Asked Reply) →
            ShowsOf self.old.side x d a →
            Under self.old.side.station self.old.at self.old.under self.old.side.carried d.halves (duty_access a.hand) sent →
            ShowsOf self.new.side x (Seats.side_lost self.old.side.station sent d) a }
        ensures link { LinkStays self.old.side self.new.side }
        ensures kept { (self.new.place ≡ self.old.place) × (self.new.start ≡ self.old.start) × (self.new.spare ≡ self.old.spare) × (self.new.news ≡ self.old.news) }
        ensures under { self.new.under ≡ self.old.under }
        ensures stand { self.new.stand ≡ self.old.stand }
        ensures script { H.script self.new.side.hand ≡ H.script self.old.side.hand }
        ensures unpassed { self.old.side.passing ≡ None → self.new.side.passing ≡ None }
        ensures passing { (x : Speech Body H.Asked Reply) (kept : Kept) (p : Option Ends.Passing) (sent : List (Datagram Body)) (d : Seats.Side Body H.Asked Reply) (a : Account H.Asked Reply) →
            ShowsOf self.old.side x d a → IsKept kept d → PassingShows (H.awaits self.old.side.hand) self.old.side.passing p →
            Under self.old.side.station self.old.at self.old.under self.old.side.carried d.halves (duty_access a.hand) sent →
            PassingShows (H.awaits self.new.side.hand) self.new.side.passing (passes x H.acknowledged H.more H.passed p (news_lost self.old.side.station kept sent)) }
        ensures join { H.join self.new.side.hand ≡ H.join self.old.side.hand }
        ensures again { IsOnWay self.old.side → self.old.under ≡ true → Repeats self.new.side × (sent_len self.new.side ≤ sent_len self.old.side) }
        ensures recalled { SameRecall (H.knows self.old.side.hand) (H.knows self.new.side.hand) self.old.side self.new.side }
        ensures read { ReadStays self.old self.new }
    {
        if self.under {
            self.side.lost();
        }
    }

    // A state service that has drained and returns its slave to Init begins a reopening.
    fn reopen(&mut self)
        ensures side { self.new.side ≡ self.old.side }
        ensures lives { self.old.stand ≡ Stand.Open → (x : Speech Body H.Asked Reply) (recover : ℕ) (spot : Spot) (l : Life Body H.Asked Reply) → StopSpot spot self.old → StopLived self.old x recover spot l →
            StopLived self.new x recover spot (reopens l l.era.account.hand) }
        ensures kept { (self.new.place ≡ self.old.place) × (self.new.start ≡ self.old.start) × (self.new.spare ≡ self.old.spare) × (self.new.news ≡ self.old.news) }
        ensures passing { (l : Life Body H.Asked Reply) (hand : Option Accounts.Duty) (awaits : Bool) (p : Option Passing) → StandPassing self.old.stand awaits p l → StandPassing self.new.stand awaits p (reopens l hand) }
        ensures sized { StopSized self.old → StopSized self.new }
        ensures counts { (at : Option ℕ) (pace made : ℕ) (counts : Bool) → StandCounts self.old.stand at pace made counts → StandCounts self.new.stand at pace made counts }
    {
        let Some(duty) = self.side.state_in_hand() else {
            return;
        };
        if let Some(state) = duty.reopens() {
            let up = self.opening(state);
            self.stand = Stand::Opening(up);
        }
    }

    // The accesses that return the slave to Init and open it anew, into this state.
    fn opening(&self, state: u8) -> BringUp
        ensures { result ≡ record { adp = (65536 - self.now.place) % 65536; station = self.now.side.station; out_len = self.now.side.out_len; in_len = self.now.side.in_len; start = state; again = true; step = BringStep.Return } }
    {
        reopen_new(
            self.place,
            self.side.station,
            self.side.out_len,
            self.side.in_len,
            state,
        )
    }

    // Its datagram of the frame that came back, while it is open, and the reopening that this may begin.
    fn open_met(&mut self, cursor: &mut Cursor, octets: &[u8], made: u32)
        requires frame { (ds : List Raw.Datagram) × IsFrame octets.now ds }
        requires stands { IsAtOne octets.now cursor.old.number cursor.old.part }
        ensures stands { IsAtOne octets.now cursor.new.number cursor.new.part }
        ensures lives { self.old.stand ≡ Stand.Open → self.old.news ≡ None → (x : Speech Body H.Asked Reply) (more : Body → Bool) (passed : H.Asked → Bool) (number recover : ℕ) (spot : Spot) (lens : ℕ → Lens) (ns : List (News Body)) (sent : List (Datagram Body)) (l : Life Body H.Asked Reply) →
            StopSpot spot self.old → Returns sent (seen lens octets.now) → StopUnder lens self.old l sent → StopLived self.old x recover spot l →
            StopFollows self.new x recover spot l (life_back x H.acknowledged more passed number spot ns (seen lens octets.now) (came_at self.old.under self.old.at (seen lens octets.now)) l l.stand) }
        ensures kept { (self.new.place ≡ self.old.place) × (self.new.start ≡ self.old.start) }
        ensures station { self.new.side.station ≡ self.old.side.station }
        ensures link { LinkStays self.old.side self.new.side }
        ensures sized { StopSized self.old → StopSized self.new }
        ensures script { H.script self.new.side.hand ≡ H.script self.old.side.hand }
        ensures unpassed { self.old.side.passing ≡ None → self.new.side.passing ≡ None }
        ensures passing { self.old.stand ≡ Stand.Open → (x : Speech Body H.Asked Reply) (number recover : ℕ) (spot : Spot) (lens : ℕ → Lens) (kept : Kept) (sent : List (Datagram Body)) (l : Life Body H.Asked Reply) →
            StopSpot spot self.old → Returns sent (seen lens octets.now) → StopUnder lens self.old l sent → StopLived self.old x recover spot l →
            StandKept self.old.stand kept l → StopPassing self.old l →
            StopPassing self.new (life_back x H.acknowledged H.more H.passed number spot (news_back self.old.side.station kept (counts_at self.old.side.read_at self.old.side.pace made) (seen lens octets.now)) (seen lens octets.now) (came_at self.old.under self.old.at (seen lens octets.now)) l l.stand) }
        ensures brought { self.old.stand ≡ Stand.Open → self.old.side.heard ≡ None → (x : Speech Body H.Asked Reply) (recover : ℕ) (spot : Spot) (lens : ℕ → Lens) (sent : List (Datagram Body)) (l : Life Body H.Asked Reply) →
            StopSpot spot self.old → Returns sent (seen lens octets.now) → StopUnder lens self.old l sent → StopLived self.old x recover spot l →
            Brought (H.brings self.new.side.hand) self.new.side.heard (accepted_in spot l (seen lens octets.now)) }
        ensures replied { self.old.stand ≡ Stand.Open → self.old.side.heard ≡ None → StopReplies octets.now self.old self.new }
        ensures joined { self.old.stand ≡ Stand.Open → self.old.news ≡ None → self.old.side.heard ≡ None → (x : Speech Body H.Asked Reply) (recover : ℕ) (spot : Spot) (lens : ℕ → Lens) (sent : List (Datagram Body)) (l : Life Body H.Asked Reply) →
            StopSpot spot self.old → Returns sent (seen lens octets.now) → StopUnder lens self.old l sent → StopLived self.old x recover spot l →
            Joins H.unjoined H.joined (H.completed self.new.side.hand) self.new.news self.new.side.heard (H.join self.old.side.hand) (H.join self.new.side.hand) (accepted_in spot l (seen lens octets.now)) }
        ensures recalls { self.old.stand ≡ Stand.Open → (x : Speech Body H.Asked Reply) (recover : ℕ) (spot : Spot) (lens : ℕ → Lens) (sent : List (Datagram Body)) (l : Life Body H.Asked Reply) →
            StopSpot spot self.old → Returns sent (seen lens octets.now) → StopUnder lens self.old l sent → StopLived self.old x recover spot l →
            StopBack x spot l (seen lens octets.now) (H.knows self.old.side.hand) (H.knows self.new.side.hand) self.old self.new }
        ensures counts { self.old.stand ≡ Stand.Open → (lens : ℕ → Lens) (sent : List (Datagram Body)) → Returns sent (seen lens octets.now) → CameCounts lens sent (seen lens octets.now) made self.old self.new }
        ensures pace { self.new.side.pace ≡ self.old.side.pace }
    {
        self.open_back(cursor, octets, made);
        self.reopen();
    }

    /// The frame under way came back. `made` is its number.
    pub fn back(&mut self, cursor: &mut Cursor, octets: &[u8], made: u32)
        requires frame { (ds : List Raw.Datagram) × IsFrame octets.now ds }
        requires stands { IsAtOne octets.now cursor.old.number cursor.old.part }
        ensures stands { IsAtOne octets.now cursor.new.number cursor.new.part }
        ensures lives { (x : Speech Body H.Asked Reply) (more : Body → Bool) (passed : H.Asked → Bool) (number recover : ℕ) (spot : Spot) (lens : ℕ → Lens) (ns : List (News Body)) (sent : List (Datagram Body)) (l : Life Body H.Asked Reply) →
            StopSpot spot self.old → Returns sent (seen lens octets.now) → StopUnder lens self.old l sent → StopLived self.old x recover spot l →
            StopFollows self.new x recover spot l (life_back x H.acknowledged more passed number spot ns (seen lens octets.now) (came_at self.old.under self.old.at (seen lens octets.now)) l l.stand) }
        ensures kept { (self.new.place ≡ self.old.place) × (self.new.start ≡ self.old.start) }
        ensures station { self.new.side.station ≡ self.old.side.station }
        ensures link { LinkStays self.old.side self.new.side }
        ensures sized { StopSized self.old → StopSized self.new }
        ensures script { H.script self.new.side.hand ≡ H.script self.old.side.hand }
        ensures unpassed { self.old.side.passing ≡ None → self.new.side.passing ≡ None }
        ensures passing { (x : Speech Body H.Asked Reply) (number recover : ℕ) (spot : Spot) (lens : ℕ → Lens) (kept : Kept) (sent : List (Datagram Body)) (l : Life Body H.Asked Reply) →
            StopSpot spot self.old → Returns sent (seen lens octets.now) → StopUnder lens self.old l sent → StopLived self.old x recover spot l →
            StandKept self.old.stand kept l → StopPassing self.old l →
            StopPassing self.new (life_back x H.acknowledged H.more H.passed number spot (news_back self.old.side.station kept (counts_at self.old.side.read_at self.old.side.pace made) (seen lens octets.now)) (seen lens octets.now) (came_at self.old.under self.old.at (seen lens octets.now)) l l.stand) }
        ensures brought { (x : Speech Body H.Asked Reply) (recover : ℕ) (spot : Spot) (lens : ℕ → Lens) (sent : List (Datagram Body)) (l : Life Body H.Asked Reply) →
            StopSpot spot self.old → Returns sent (seen lens octets.now) → StopUnder lens self.old l sent → StopLived self.old x recover spot l →
            Brought (H.brings self.new.side.hand) self.new.side.heard (accepted_in spot l (seen lens octets.now)) }
        ensures replied { StopReplies octets.now self.old self.new }
        ensures joined { (x : Speech Body H.Asked Reply) (recover : ℕ) (spot : Spot) (lens : ℕ → Lens) (sent : List (Datagram Body)) (l : Life Body H.Asked Reply) →
            StopSpot spot self.old → Returns sent (seen lens octets.now) → StopUnder lens self.old l sent → StopLived self.old x recover spot l →
            Joins H.unjoined H.joined (H.completed self.new.side.hand) self.new.news self.new.side.heard (H.join self.old.side.hand) (H.join self.new.side.hand) (accepted_in spot l (seen lens octets.now)) }
        ensures recalls { (x : Speech Body H.Asked Reply) (recover : ℕ) (spot : Spot) (lens : ℕ → Lens) (sent : List (Datagram Body)) (l : Life Body H.Asked Reply) →
            StopSpot spot self.old → Returns sent (seen lens octets.now) → StopUnder lens self.old l sent → StopLived self.old x recover spot l →
            StopBack x spot l (seen lens octets.now) (H.knows self.old.side.hand) (H.knows self.new.side.hand) self.old self.new }
        ensures counts { (lens : ℕ → Lens) (sent : List (Datagram Body)) → Returns sent (seen lens octets.now) → CameCounts lens sent (seen lens octets.now) made self.old self.new }
        ensures pace { self.new.side.pace ≡ self.old.side.pace }
    {
        self.news = None;
        self.side.heard = None;
        match self.stand {
            Stand::Gone => {}
            Stand::Opening(up) => self.opening_back(up, cursor, octets),
            Stand::Open => self.open_met(cursor, octets, made),
        }
    }

    /// The frame under way was lost.
    pub fn lost(&mut self)
        ensures lives { (x : Speech Body H.Asked Reply) (more : Body → Bool) (passed : H.Asked → Bool) (recover : ℕ) (spot : Spot) (lens : ℕ → Lens) (ns : List (News Body)) (octets : List ℕ) (l : Life Body H.Asked Reply) →
            StopSpot spot self.old → StopUnder lens self.old l (seen lens octets) → StopLived self.old x recover spot l →
            StopFollows self.new x recover spot l (life_lost x H.acknowledged more passed spot ns (seen lens octets) l l.stand) }
        ensures kept { (self.new.place ≡ self.old.place) × (self.new.start ≡ self.old.start) }
        ensures under { self.new.under ≡ self.old.under }
        ensures station { self.new.side.station ≡ self.old.side.station }
        ensures link { LinkStays self.old.side self.new.side }
        ensures sized { StopSized self.old → StopSized self.new }
        ensures script { H.script self.new.side.hand ≡ H.script self.old.side.hand }
        ensures unpassed { self.old.side.passing ≡ None → self.new.side.passing ≡ None }
        ensures passing { (x : Speech Body H.Asked Reply) (recover : ℕ) (spot : Spot) (lens : ℕ → Lens) (kept : Kept) (octets : List ℕ) (l : Life Body H.Asked Reply) →
            StopSpot spot self.old → StopUnder lens self.old l (seen lens octets) → StopLived self.old x recover spot l →
            StandKept self.old.stand kept l → StopPassing self.old l →
            StopPassing self.new (life_lost x H.acknowledged H.more H.passed spot (news_lost self.old.side.station kept (seen lens octets)) (seen lens octets) l l.stand) }
        ensures join { H.join self.new.side.hand ≡ H.join self.old.side.hand }
        ensures again { LosesAgain self.old self.new }
        ensures recalled { SameRecall (H.knows self.old.side.hand) (H.knows self.new.side.hand) self.old.side self.new.side }
        ensures counts { LostCounts self.old self.new }
        ensures pace { self.new.side.pace ≡ self.old.side.pace }
    {
        self.news = None;
        match self.stand {
            Stand::Gone => {}
            Stand::Opening(_) => {}
            Stand::Open => self.open_lost(),
        }
    }

    /// The slave is given up: while it has a spare, it is opened anew, else it gets no further datagram.
    pub fn give_up(&mut self)
        ensures lives { (x : Speech Body H.Asked Reply) (number recover : ℕ) (spot : Spot) (l : Life Body H.Asked Reply) → StopSpot spot self.old → StopLived self.old x recover spot l →
            StopFollows self.new x recover spot l (gives_up recover spot number l) }
        ensures kept { (self.new.place ≡ self.old.place) × (self.new.start ≡ self.old.start) }
        ensures station { self.new.side.station ≡ self.old.side.station }
        ensures link { LinkStays self.old.side self.new.side }
        ensures sized { StopSized self.old → StopSized self.new }
        ensures script { H.script self.new.side.hand ≡ H.script self.old.side.hand }
        ensures unpassed { self.old.side.passing ≡ None → self.new.side.passing ≡ None }
        ensures passing { (awaits : Bool) (p : Option Passing) (l : Life Body H.Asked Reply) → StandPassing self.new.stand awaits p l }
        ensures knows { H.knows self.old.side.hand ≡ true → H.knows self.new.side.hand ≡ true }
        ensures counts { (at : Option ℕ) (pace made : ℕ) (counts : Bool) → StandCounts self.new.stand at pace made counts }
        ensures pace { self.new.side.pace ≡ self.old.side.pace }
    {
        self.news = Some(Turned::GivenUp);
        if self.spare == 0 {
            self.stand = Stand::Gone;
            return;
        }
        self.spare -= 1;
        let up = self.opening(self.start);
        self.stand = Stand::Opening(up);
        self.side.renew();
    }

    /// The frame under way was lost; where `gives` says so, a slave that it carries is given up.
    pub fn lost_for(&mut self, gives: bool)
        ensures lives { (x : Speech Body H.Asked Reply) (more : Body → Bool) (passed : H.Asked → Bool) (number recover : ℕ) (spot : Spot) (lens : ℕ → Lens) (ns : List (News Body)) (octets : List ℕ) (l : Life Body H.Asked Reply) →
            StopSpot spot self.old → StopUnder lens self.old l (seen lens octets) → StopLived self.old x recover spot l →
            StopFollows self.new x recover spot l (given_where (gives && self.old.under) recover spot number (life_lost x H.acknowledged more passed spot ns (seen lens octets) l l.stand)) }
        ensures kept { (self.new.place ≡ self.old.place) × (self.new.start ≡ self.old.start) }
        ensures station { self.new.side.station ≡ self.old.side.station }
        ensures link { LinkStays self.old.side self.new.side }
        ensures sized { StopSized self.old → StopSized self.new }
        ensures script { H.script self.new.side.hand ≡ H.script self.old.side.hand }
        ensures unpassed { self.old.side.passing ≡ None → self.new.side.passing ≡ None }
        ensures passing { (x : Speech Body H.Asked Reply) (number recover : ℕ) (spot : Spot) (lens : ℕ → Lens) (kept : Kept) (octets : List ℕ) (l : Life Body H.Asked Reply) →
            StopSpot spot self.old → StopUnder lens self.old l (seen lens octets) → StopLived self.old x recover spot l →
            StandKept self.old.stand kept l → StopPassing self.old l →
            StopPassing self.new (given_where (gives && self.old.under) recover spot number (life_lost x H.acknowledged H.more H.passed spot (news_lost self.old.side.station kept (seen lens octets)) (seen lens octets) l l.stand)) }
        ensures join { (gives && self.old.under) ≡ false → H.join self.new.side.hand ≡ H.join self.old.side.hand }
        ensures again { gives ≡ false → LosesAgain self.old self.new }
        ensures recalled { StopLost gives (H.knows self.old.side.hand) (H.knows self.new.side.hand) self.old self.new }
        ensures counts { LostCounts self.old self.new }
        ensures pace { self.new.side.pace ≡ self.old.side.pace }
    {
        self.lost();
        if !gives {
            return;
        }
        if self.under {
            self.give_up();
        }
    }
}
