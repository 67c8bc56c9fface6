ghost use Rattle.std.specs.Prelude.{◌≡◌, ◌≤◌, vec_len};

use crate::coming::{Coming, wish_of};
use crate::event::{Event, EventList};
use crate::happened::Happening;
use crate::lan::Lan;
use crate::laying::pass_by;
use crate::post::{Post, Work};
use datagrams::FrameBuf;
use mailbox_mail::Mail;
use master_hand::InHand;
use master_tour::{Stand, Tour};

/// The most slaves of a segment.
const SLAVES: usize = 16;

/// What `next` made.
#[derive(Clone, Copy)]
pub enum Next {
    /// The next frame.
    Frame,
    /// None: no slave is live.
    Idle,
}

/// The master of a segment.
#[derive(Drop)]
pub struct MasterNode {
    /// The slaves in the order of their tour.
    pub(crate) tour: Tour<InHand>,
    /// What else there is of each slave, in ring order.
    pub(crate) posts: Vec<Post>,
    /// The switch and the packets of the host.
    pub(crate) lan: Lan,
    /// What happened.
    pub(crate) list: EventList,
    /// How many frames were made.
    pub(crate) made: u32,
    pub ghost paired: { vec_len tour.stops ≡ vec_len posts },
    pub ghost few: { vec_len posts ≤ 16 },
}

impl MasterNode {
    ghost use Rattle.master_node.specs.Entering.{IsIdle, AllStopsRest, EntersFirst, HostMayEnter};
    ghost use Rattle.std.specs.Prelude.{◌≡◌, ◌<◌, ◌≤◌, ◌^◌, suc, ℕ, List, true, false, vec_len, length, ◌↔◌, All, IfSome, Some, slice_get, ◌⊎◌, ◌+◌, [], nat_lt, map, take, if◌then◌else◌, None};
    ghost use Rattle.life_runs.specs.of_datagrams.Datagram as Raw;
    ghost use Rattle.life_runs.specs.of_datagrams.Frame.{IsBegun};
    ghost use Rattle.master_node.specs.Listed.{listed, listed_last};
    ghost use Rattle.master_node.specs.Lives.{holds_at, waiting_at};
    ghost use Rattle.life_runs.specs.of_master_tour.Goes.{is_live};
    ghost use Rattle.std.specs.List.{list_any};
    ghost use Rattle.master_node.specs.declared.node.Next.{Next};
    ghost use Rattle.life_runs.specs.of_master_tour.Walks.{StepsAt};
    ghost use Rattle.master_node.specs.declared.coming.Coming.{Coming};
    ghost use Rattle.master_node.specs.Appends.{AppendsMail};
    ghost use Rattle.master_node.specs.Serving.{FitsAt, IsAsked, ServedShows, ServedUnder, mails_in, run_lead, run_turn};
    ghost use Rattle.master_node.specs.Passes.{BeginsFrame, EndsFrame, IsPassing};
    ghost use Rattle.master_node.specs.Events.{ServedBegin};
    ghost use Rattle.master_node.specs.ServedEager.{AllServedBegin};
    ghost use Rattle.master_node.specs.Touring.{IsServedVisit};
    ghost use Rattle.master_node.specs.Handed.{work_from};
    ghost use Rattle.life_runs.specs.Served.{Keyed, Serves, ServedTurn, IsServedFrame, MayAsk, asked_at};
    ghost use Rattle.master_node.specs.Shows.{WaitsNone, GoesOn, lived_of, MasterShows, MasterUnder, is_live_lead};
    ghost use Rattle.master_node.specs.Kept.{TourKept, TourOn};
    ghost use Rattle.master_node.specs.Coming.{PassesBy, CameBy};
    ghost use Rattle.life_runs.specs.of_frame_view.View.{Lens};
    ghost use Rattle.life_runs.specs.of_frame_view.Seen.{seen};
    ghost use Rattle.life_runs.specs.of_frame_view.Shares.{AreDistinct};
    ghost use Rattle.life_runs.specs.Led.{Leads, Turn, IsLedFrame};
    ghost use Rattle.life_runs.specs.of_master_tour.Made.{is_in};
    ghost use Rattle.life_runs.specs.of_master_tour.Orders.{IsCarried};
    ghost use Rattle.master_node.specs.Filling.{IsFilling, IsEmpty, IsFilled};
    ghost use Rattle.master_node.specs.Joined.{JoinsKept};
    ghost use Rattle.life_runs.specs.of_master_tour.Toured.{IsOfTour};
    ghost use Rattle.life_runs.specs.of_master_side.Again.{HasNoRoom};
    ghost use Rattle.life_runs.specs.of_master_tour.Sizes.{frame_size};
    ghost use Rattle.master_node.specs.Rooms.{FitAgain, SendsSame, Takes, area_at, area_in};
    ghost use Rattle.master_node.specs.Asks.{AllAsk};
    ghost use Rattle.master_node.specs.Eager.{AllTakeUp, AllVisit, EagerFrom, EagerOn, recalls};
    ghost use Rattle.master_node.specs.Starts.{AllBegin, AllUnvisited};
    ghost use Rattle.life_runs.specs.of_master_tour.declared.stop.Stand.{Stand};
    ghost use Rattle.master_node.specs.Toured.{StaysPut, TakesPart, IsBare, HasVisited, stop_share, turn_share, tour_of};
    ghost use Rattle.master_node.specs.Happened.{Happens, HappensSo};
    ghost use Rattle.master_node.specs.Made.{Makes, AreOfMaking};
    ghost use Rattle.master_node.specs.Resting.{AllRest, StopRests};
    ghost use Rattle.master_node.specs.Listing.{Before, IsUnlisted, ListsOne, ServicesBegin, events_before, events_in, where_began};
    ghost use Rattle.master_node.specs.Origins.{forwards_at};
    ghost use Rattle.master_node.specs.Answered.{AnswersOn, AnswersSo, answer_at};
    ghost use Rattle.master_node.specs.Begins.{HasTaken, NoneMore, PacketsBegin, TakesOn, taken_for, taken_where};

    // Whether a slave is live.
    pub(crate) fn has_live(&self) -> bool
        ensures { result ≡ list_any (λ s. is_live s.stand) self.now.tour.stops.items }
    {
        self.tour.stops.iter().any(|stop| stop.is_live())
    }

    // Whether an open slave has a packet in hand.
    fn holds_packet(&self, place: usize) -> bool
        requires { place < vec_len self.now.posts }
        ensures { IfSome (slice_get self.now.tour.stops.items place) (λ s. StopRests self.now.lan place s) → result ≡ false }
    {
        let stop = &self.tour.stops[place];
        if !matches!(stop.stand, Stand::Open) || stop.side.is_free() {
            return false;
        }
        matches!(self.posts[place].work, Work::Packet)
    }

    // Whether one of them has.
    fn has_packet(&self) -> bool
        ensures { AllStopsRest self.now → result ≡ false }
    {
        for place in 0..self.posts.len() {
            if self.holds_packet(place) {
                return true;
            }
        }
        false
    }

    // A packet of the host comes into the switch, where one may.
    fn admit(&mut self)
        ensures enters { AllStopsRest self.old → HostMayEnter self.old.lan → self.old.lan.happened ≡ [] → EntersFirst self.new.lan.happened }
        ensures same { (self.new.posts ≡ self.old.posts) × (self.new.tour ≡ self.old.tour) }
        ensures lan { Happens 1 self.old.lan self.new.lan }
        ensures made { Makes self.old.lan self.new.lan }
        ensures takes { TakesOn [] self.old.lan self.new.lan }
        ensures list { self.new.list ≡ self.old.list }
        ensures number { self.new.made ≡ self.old.made }
    {
        if self.tour.opened < self.tour.stops.len() || !self.lan.has_host() {
            return;
        }
        if self.lan.is_quiet() && !self.has_packet() {
            self.lan.enter();
        }
    }

    // A change of state that came into hand is passed by in the script, and a packet waits no longer.
    fn pass_by(&mut self, place: usize, coming: Coming)
        requires { place < vec_len self.old.posts }
        ensures begun { StepsAt (λ s t. PassesBy (Some coming) s t) place self.old.tour.stops.items self.new.tour.stops.items }
        ensures put { StepsAt (λ s t. StaysPut s t) place self.old.tour.stops.items self.new.tour.stops.items }
        ensures tour { TourKept self.old self.new }
        ensures posts { self.new.posts ≡ self.old.posts }
        ensures joins { JoinsKept self.old self.new }
        ensures sends { StepsAt (λ s t. SendsSame s t) place self.old.tour.stops.items self.new.tour.stops.items }
        ensures lan { Happens 1 self.old.lan self.new.lan }
        ensures made { Makes self.old.lan self.new.lan }
        ensures takes { TakesOn (taken_for self.old.lan place (Some coming)) self.old.lan self.new.lan }
        ensures fewer { NoneMore self.old.lan self.new.lan }
        ensures list { self.new.list ≡ self.old.list }
    {
        match coming {
            Coming::State(_) => pass_by(&mut self.tour.stops[place].side),
            Coming::Packet => self.lan.begin(place),
            Coming::Mail => {}
            Coming::Script => {}
        }
    }

    // What was laid ready came into hand.
    fn begun(&mut self, place: usize, coming: Option<Coming>)
        requires { place < vec_len self.old.posts }
        ensures posts { vec_len self.new.posts ≡ vec_len self.old.posts }
        ensures begun { StepsAt (λ s t. PassesBy coming s t) place self.old.tour.stops.items self.new.tour.stops.items }
        ensures put { StepsAt (λ s t. StaysPut s t) place self.old.tour.stops.items self.new.tour.stops.items }
        ensures kept { TourKept self.old self.new × (All WaitsNone self.old.posts.items → All WaitsNone self.new.posts.items) }
        ensures joins { JoinsKept self.old self.new }
        ensures sends { StepsAt (λ s t. SendsSame s t) place self.old.tour.stops.items self.new.tour.stops.items }
        ensures lan { Happens 1 self.old.lan self.new.lan }
        ensures made { Makes self.old.lan self.new.lan }
        ensures takes { TakesOn (taken_for self.old.lan place coming) self.old.lan self.new.lan }
        ensures fewer { NoneMore self.old.lan self.new.lan }
        ensures events { self.new.list.count ≤ self.old.list.count + 1 }
        ensures head { events_before self.new ≡ events_before self.old }
        ensures lists { StepsAt (λ p q. ListsOne place coming self.old self.new p q) place self.old.posts.items self.new.posts.items }
        ensures mails { mails_in self.new ≡ mails_in self.old }
        ensures works { StepsAt (λ p q. q.work ≡ work_from coming p) place self.old.posts.items self.new.posts.items }
    {
        match coming {
            None => {}
            Some(what) => {
                let origin = self.posts[place].begin();
                self.list.put(Event::Began {
                    slave: place as u32,
                    origin,
                });
                self.pass_by(place, what);
            }
        }
    }

    // So it does where something did.
    fn came(&mut self, place: usize, coming: Option<Coming>, began: bool)
        requires { place < vec_len self.old.posts }
        ensures posts { vec_len self.new.posts ≡ vec_len self.old.posts }
        ensures came { StepsAt (λ s t. CameBy began coming s t) place self.old.tour.stops.items self.new.tour.stops.items }
        ensures put { StepsAt (λ s t. StaysPut s t) place self.old.tour.stops.items self.new.tour.stops.items }
        ensures kept { TourKept self.old self.new × (All WaitsNone self.old.posts.items → All WaitsNone self.new.posts.items) }
        ensures joins { JoinsKept self.old self.new }
        ensures sends { StepsAt (λ s t. SendsSame s t) place self.old.tour.stops.items self.new.tour.stops.items }
        ensures lan { Happens 1 self.old.lan self.new.lan }
        ensures made { Makes self.old.lan self.new.lan }
        ensures takes { TakesOn (taken_where began self.old.lan place coming) self.old.lan self.new.lan }
        ensures fewer { NoneMore self.old.lan self.new.lan }
        ensures events { self.new.list.count ≤ self.old.list.count + 1 }
        ensures head { events_before self.new ≡ events_before self.old }
        ensures lists { StepsAt (λ p q. ListsOne place (where_began began coming) self.old self.new p q) place self.old.posts.items self.new.posts.items }
        ensures mails { mails_in self.new ≡ mails_in self.old }
        ensures works { StepsAt (λ p q. q.work ≡ work_from (where_began began coming) p) place self.old.posts.items self.new.posts.items }
    {
        if began {
            self.begun(place, coming);
        }
    }

    // A slave is visited: its datagram stands next in the frame, and `false` where that has no room for it.
    fn visit(&mut self, place: usize, into: &mut FrameBuf) -> bool
        requires inside { place < vec_len self.old.posts }
        requires few { self.old.tour.count < 16 }
        requires begun { (ds : List Raw.Datagram) × IsBegun into.old.items ds }
        ensures begun { (ds : List Raw.Datagram) × IsBegun into.new.items ds }
        ensures posts { vec_len self.new.posts ≡ vec_len self.old.posts }
        ensures on { TourOn self.old self.new × (self.new.tour.passed ≡ self.old.tour.passed) }
        ensures quiet { All WaitsNone self.old.posts.items → All WaitsNone self.new.posts.items }
        ensures visits { (self.old.tour.again ≡ false → length self.old.tour.visit.items < 16) → IsCarried (nat_lt self.old.tour.count self.new.tour.count) self.old.tour.again place self.old.tour.visit.items self.new.tour.visit.items }
        ensures shares { StepsAt (λ s t. TakesPart (nat_lt self.old.tour.count self.new.tour.count) self.old.tour.count s t) place self.old.tour.stops.items self.new.tour.stops.items }
        ensures counts { (self.new.tour.count ≡ self.old.tour.count) ⊎ (self.new.tour.count ≡ self.old.tour.count + 1) }
        ensures still { result ≡ false → (self.new.tour.count ≡ self.old.tour.count) × (self.new.tour.visit ≡ self.old.tour.visit) }
        ensures first { length into.old.items ≡ 16 → holds_at (λ s. is_live s.stand) self.old.tour.stops.items place ≡ true → (result ≡ true) × (self.new.tour.count ≡ self.old.tour.count + 1) }
        ensures led { (lens : ℕ → Lens) (recover made : ℕ) (from : Before) (left next : List ℕ) (as' : List Leads) → length self.old.lan.happened < 17 → self.old.list.count < 97 → All WaitsNone self.old.posts.items → AreDistinct (map lived_of as') → is_in place left ≡ true → is_in place next ≡ false → ((k : ℕ) → is_in k next ≡ true → is_in k left ≡ true) →
            IsFilling lens recover made from left self.old into.old.items as' → IsFilling lens recover made from (if result then next else left) self.new into.new.items as' }
        ensures joins { JoinsKept self.old self.new }
        ensures room { self.new.tour.count ≡ self.old.tour.count → holds_at (λ s. is_live s.stand) self.new.tour.stops.items place ≡ true → HasNoRoom into.new.items (area_in self.new.tour.stops.items place) }
        ensures takes { StepsAt (λ s t. Takes into.old.items into.new.items (nat_lt self.old.tour.count self.new.tour.count) s t) place self.old.tour.stops.items self.new.tour.stops.items }
        ensures lan { Happens 1 self.old.lan self.new.lan }
        ensures made { Makes self.old.lan self.new.lan }
        ensures eager { holds_at (λ s. s.under) self.old.tour.stops.items place ≡ false → EagerOn self.old self.new }
        ensures events { self.new.list.count ≤ self.old.list.count + 1 }
        ensures head { events_before self.new ≡ events_before self.old }
        ensures serves { (lens : ℕ → Lens) (recover made : ℕ) (from : Before) (left next : List ℕ) (ws : List Serves) → length self.old.lan.happened < 17 → self.old.list.count < 97 → AreDistinct (map (λ w. lived_of (run_lead w)) ws) → is_in place left ≡ true → is_in place next ≡ false → ((k : ℕ) → is_in k next ≡ true → is_in k left ≡ true) →
            IsPassing lens recover made from left self.old into.old.items ws → IsPassing lens recover made from (if result then next else left) self.new into.new.items ws }
        ensures answers { self.old.list.count < 97 → AnswersOn self.old self.new }
    {
        let index = (self.made % 256) as u8;
        let coming = self.coming(place);
        let wish = wish_of(coming);
        if !self.tour.fits(place, wish, into) {
            return false;
        }
        self.lay(place, coming);
        let began = self.tour.visit(place, wish, index, into);
        self.came(place, coming, began);
        true
    }

    // The slaves that the frame carries are visited, up to the first that has no datagram in it.
    fn fill(&mut self, into: &mut FrameBuf)
        requires { (ds : List Raw.Datagram) × IsBegun into.old.items ds }
        ensures begun { (ds : List Raw.Datagram) × IsBegun into.new.items ds }
        ensures posts { vec_len self.new.posts ≡ vec_len self.old.posts }
        ensures on { TourOn self.old self.new }
        ensures visited { IsBare self.old → length into.old.items ≡ 16 → HasVisited into.new.items self.old self.new }
        ensures filled { (lens : ℕ → Lens) (recover made : ℕ) (from : Before) (as' : List Leads) → AreDistinct (map lived_of as') → IsEmpty lens recover made from self.old into.old.items as' → IsFilled lens recover made from self.new into.new.items as' }
        ensures joins { JoinsKept self.old self.new }
        ensures lan { Happens 16 self.old.lan self.new.lan }
        ensures made { Makes self.old.lan self.new.lan }
        ensures eager { IsBare self.old → length into.old.items ≡ 16 → EagerOn self.old self.new }
        ensures serves { (lens : ℕ → Lens) (recover made : ℕ) (from : Before) (ws : List Serves) → AreDistinct (map (λ w. lived_of (run_lead w)) ws) → ((left : List ℕ) → IsPassing lens recover made from left self.old into.old.items ws) → BeginsFrame self.old into.old.items (map run_lead ws) →
            (left : List ℕ) × IsPassing lens recover made from left self.new into.new.items ws × EndsFrame left self.new (map run_lead ws) }
        ensures events { self.new.list.count ≤ self.old.list.count + 16 }
        ensures head { events_before self.new ≡ events_before self.old }
        ensures answers { self.old.list.count ≤ 81 → AnswersOn self.old self.new }
    {
        for _ in 0..SLAVES {
            let Some(place) = self.tour.due() else {
                return;
            };
            let count = self.tour.count;
            if !self.visit(place, into) {
                return;
            }
            if self.tour.count == count {
                return;
            }
        }
    }

    // The next frame is made, of the slaves that it carries.
    fn make(&mut self, into: &mut FrameBuf)
        ensures posts { vec_len self.new.posts ≡ vec_len self.old.posts }
        ensures led { (lens : ℕ → Lens) (recover retry missed number : ℕ) (from : Before) (as' : List Leads) → length self.old.lan.happened ≤ 1 → HasTaken from.switch [] self.old.lan → IsUnlisted from.forwards self.old → list_any (λ s. is_live s.stand) self.old.tour.stops.items ≡ true → MasterShows lens recover retry self.old missed as' →
            (us : List Turn) × IsLedFrame lens number into.new.items as' us × MasterUnder lens recover retry self.new into.new.items missed us × PacketsBegin from.switch us self.new.lan × (tour_of self.new ≡ tour_of self.old) ×
            IsOfTour (λ s. stop_share s) (λ k. holds_at is_live_lead as' k) (frame_size into.new.items) (λ k. area_at lens as' k) (tour_of self.old) self.new.tour.stops.items (length (seen lens into.new.items)) self.new.tour.visit.items × ServicesBegin from.forwards as' us self.new ×
            AllBegin lens self.new.lan 0 (recalls self.new) as' us × AllUnvisited us }
        ensures joins { JoinsKept self.old self.new }
        ensures lan { Happens 16 self.old.lan self.new.lan }
        ensures made { Makes self.old.lan self.new.lan }
        ensures eager { (as' : List Leads) → GoesOn self.old.tour.again self.old.tour.visit.items self.old.tour.opened as' → (self.old.tour.again ≡ true → FitAgain self.old.tour.visit.items self.old.tour.stops.items) → EagerFrom self.old self.new }
        ensures serves { (lens : ℕ → Lens) (recover retry missed made : ℕ) (from : Before) (ws : List Serves) → list_any (λ s. is_live s.stand) self.old.tour.stops.items ≡ true → suc made < 2 ^ 32 → length self.old.lan.happened ≤ 1 → HasTaken from.switch [] self.old.lan → IsUnlisted from.forwards self.old → ServedShows lens recover retry self.old missed made ws →
            (vs : List ServedTurn) × IsServedFrame lens made into.new.items ws vs × ServedUnder lens recover retry (record self.new { made = suc made }) into.new.items missed made vs × (self.new.made ≡ made) × ServedBegin from.forwards ws vs self.new × (tour_of self.new ≡ tour_of self.old) × PacketsBegin from.switch (map run_turn vs) self.new.lan ×
            AllServedBegin lens self.new.lan 0 (recalls self.new) ws (map run_turn vs) × AllUnvisited (map run_turn vs) ×
            IsOfTour (λ s. stop_share s) (λ k. holds_at is_live_lead (map run_lead ws) k) (frame_size into.new.items) (λ k. area_at lens (map run_lead ws) k) (tour_of self.old) self.new.tour.stops.items (length (seen lens into.new.items)) self.new.tour.visit.items }
        ensures events { self.new.list.count ≤ self.old.list.count + 16 }
        ensures head { events_before self.new ≡ events_before self.old }
        ensures answers { self.old.list.count ≤ 81 → AnswersOn self.old self.new }
    {
        self.tour.begin(into);
        self.fill(into);
        let _some = self.tour.finish(into);
    }

    /// Makes the next frame; `Idle` exactly where no slave is live. The frame has just the datagrams that the lives of the slaves ask for, and
    /// what came into hand of each is next of its script, or a packet. It carries the slaves of its visit of the tour, in this order: behind a lost frame
    /// just the same again; of a round the first, and it leaves out none that would fit. Of an open slave whose last read was lost it has no datagram but the
    /// one by which that read is repeated; with nothing in doubt it has the write of the mail held, the read of mailbox 1 or that of the status of mailbox 0, by
    /// what is remembered of its visits; and behind its visit no mail is left that could be held. Where each slave was given up for good or rests and no packet
    /// waits at any port, a packet of the host comes in, if one is left. The packets that came into hand are just those that leave their ports of the switch, each the oldest there.
    /// Just the services that came into hand are listed as begun, each with where it comes from and its number there; no such one has its answer yet.
    /// The events of the frame are then those of its making, and just these stand before those of its return or loss.
    /// Of a slave that has no datagram in the frame nothing came into hand. While mails are passed on the frame is just so that of a serving, and a mail that
    /// came into hand is listed by its number among all that were asked of its slave.
    pub fn next(&mut self, into: &mut FrameBuf) -> Next
        ensures idle { (result ≡ Next.Idle) ↔ (list_any (λ s. is_live s.stand) self.old.tour.stops.items ≡ false) }
        ensures posts { vec_len self.new.posts ≡ vec_len self.old.posts }
        ensures led { result ≡ Next.Frame → (lens : ℕ → Lens) (recover retry missed number : ℕ) (as' : List Leads) → MasterShows lens recover retry self.old missed as' →
            (us : List Turn) × IsLedFrame lens number into.new.items as' us × MasterUnder lens recover retry self.new into.new.items missed us }
        ensures begun { result ≡ Next.Frame → (lens : ℕ → Lens) (recover retry missed number : ℕ) (as' : List Leads) → MasterShows lens recover retry self.old missed as' →
            (us : List Turn) × IsLedFrame lens number into.new.items as' us × MasterUnder lens recover retry self.new into.new.items missed us × PacketsBegin self.old.lan.switch us self.new.lan × ServicesBegin (λ k. forwards_at self.old.posts.items k) as' us self.new × AllBegin lens self.new.lan 0 (recalls self.new) as' us × AllUnvisited us }
        ensures toured { result ≡ Next.Frame → (lens : ℕ → Lens) (recover retry missed : ℕ) (as' : List Leads) (us : List Turn) → MasterShows lens recover retry self.old missed as' → MasterUnder lens recover retry self.new into.new.items missed us →
            (tour_of self.new ≡ tour_of self.old) × IsOfTour (λ u. turn_share u) (λ k. holds_at is_live_lead as' k) (frame_size into.new.items) (λ k. area_at lens as' k) (tour_of self.old) us (length (seen lens into.new.items)) self.new.tour.visit.items }
        ensures asks { result ≡ Next.Frame → (lens : ℕ → Lens) (recover retry missed : ℕ) (us : List Turn) → MasterUnder lens recover retry self.new into.new.items missed us → AllAsk (seen lens into.new.items) us }
        ensures visits { result ≡ Next.Frame → (lens : ℕ → Lens) (recover retry missed : ℕ) (as' : List Leads) (us : List Turn) → MasterShows lens recover retry self.old missed as' → MasterUnder lens recover retry self.new into.new.items missed us → AllVisit (seen lens into.new.items) (recalls self.new) us }
        ensures takes { result ≡ Next.Frame → (lens : ℕ → Lens) (recover retry missed : ℕ) (as' : List Leads) (us : List Turn) → MasterShows lens recover retry self.old missed as' → MasterUnder lens recover retry self.new into.new.items missed us → AllTakeUp lens (recalls self.new) us }
        ensures recalled { result ≡ Next.Frame → (lens : ℕ → Lens) (recover retry missed : ℕ) (as' : List Leads) → MasterShows lens recover retry self.old missed as' → recalls self.new ≡ recalls self.old }
        ensures enters { result ≡ Next.Frame → (lens : ℕ → Lens) (recover retry missed : ℕ) (as' : List Leads) → MasterShows lens recover retry self.old missed as' → AllRest lens self.old.lan 0 (recalls self.old) as' → HostMayEnter self.old.lan → EntersFirst self.new.lan.happened }
        ensures joins { JoinsKept self.old self.new }
        ensures happened { HappensSo self.old.lan self.new.lan }
        ensures made { (self.new.lan.ports ≡ self.old.lan.ports) × AreOfMaking self.new.lan.happened }
        ensures services { result ≡ Next.Frame → (lens : ℕ → Lens) (recover retry missed made : ℕ) (ws : List Serves) → suc made < 2 ^ 32 → ServedShows lens recover retry self.old missed made ws →
            (vs : List ServedTurn) × IsServedFrame lens made into.new.items ws vs × ServedUnder lens recover retry self.new into.new.items missed made vs × ServedBegin (λ k. forwards_at self.old.posts.items k) ws vs self.new × IsServedVisit lens into.new.items ws vs self.old self.new }
        ensures few { self.new.list.before ≤ 16 }
        ensures answers { AnswersSo self.old self.new }
        ensures whole { (listed self.new.list.rows.items self.new.list.count ≡ events_in self.new) × (take self.new.list.before self.new.list.rows.items ≡ events_in self.new) }
    {
        self.list.clear();
        self.lan.begins();
        if !self.has_live() {
            return Next::Idle;
        }
        self.admit();
        self.make(into);
        self.list.made();
        self.made = self.made.wrapping_add(1);
        Next::Frame
    }

    /// What happened in the last `next`, `returned` or `lost`.
    pub fn events(&self) -> &[Event]
        ensures { result.now ≡ listed_last self.now.list.rows.items self.now.list.first self.now.list.count }
    {
        self.list.last()
    }

    /// What happened at the switch in the last `next`, `returned` or `lost`.
    pub fn happened(&self) -> &[Happening]
        ensures { result.now ≡ self.now.lan.happened }
    {
        self.lan.happened()
    }

    /// What happened in the last `next` and in the `returned` or `lost` behind it.
    pub fn step_events(&self) -> &[Event]
        ensures { result.now ≡ listed self.now.list.rows.items self.now.list.count }
    {
        self.list.all()
    }

    /// Whether a slave was not given up for good.
    pub fn is_live(&self, slave: u32) -> bool
        requires { slave < vec_len self.now.posts }
        ensures { result ≡ holds_at (λ s. is_live s.stand) self.now.tour.stops.items slave }
    {
        self.tour.stops[slave as usize].is_live()
    }

    /// A mail waits to be passed on to a slave, behind those that do; `false` exactly where 64 do already, and then nothing changed. `key` names its asker. So
    /// it does in the lives of a serving, where it fits the slave's mailbox. What the last step told stays, with all that is counted and answered.
    pub fn ask(&mut self, slave: u32, key: usize, mail: &Mail) -> bool
        requires { slave < vec_len self.old.posts }
        ensures full { (result ≡ false) ↔ (waiting_at self.old.posts.items slave ≡ 64) }
        ensures posts { vec_len self.new.posts ≡ vec_len self.old.posts }
        ensures waits { waiting_at self.old.posts.items slave < 64 → StepsAt (λ p q. AppendsMail key mail.now p.mails.items q.mails.items) slave self.old.posts.items self.new.posts.items }
        ensures stays { result ≡ false → StepsAt (λ p q. q ≡ p) slave self.old.posts.items self.new.posts.items }
        ensures works { StepsAt (λ p q. q.work ≡ p.work) slave self.old.posts.items self.new.posts.items }
        ensures kept { (self.new.tour ≡ self.old.tour) × (self.new.lan ≡ self.old.lan) × (self.new.made ≡ self.old.made) × (self.new.list ≡ self.old.list) }
        ensures idle { IsIdle self.new → IsIdle self.old }
        ensures counts { (k : ℕ) → forwards_at self.new.posts.items k ≡ forwards_at self.old.posts.items k }
        ensures answers { (k : ℕ) → answer_at self.new.posts.items k ≡ answer_at self.old.posts.items k }
        ensures served { (lens : ℕ → Lens) (recover retry missed made : ℕ) (ws : List Serves) → waiting_at self.old.posts.items slave < 64 → FitsAt lens slave (length mail.now.body.items) ws → ServedShows lens recover retry self.old missed made ws →
            (k : Keyed) × IsAsked key mail.now k × MayAsk lens slave k ws × ServedShows lens recover retry self.new missed made (asked_at slave k ws) }
    {
        self.posts[slave as usize].ask(key, mail)
    }
}
