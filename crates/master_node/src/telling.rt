//! What the return or the loss of a frame brings.

ghost use Rattle.std.specs.Prelude.{◌≡◌, ◌<◌, vec_len};
ghost use Rattle.master_node.specs.Downs.{is_given_up};

use crate::event::Event;
use crate::node::MasterNode;
use crate::post::{Work, bare};
use datagrams::FrameBuf;
use ec_fields::buffer_of;
use mailbox_mail::ReplyKind;
use master_duty::Met;
use master_side::Heard;
use master_tour::{Stand, Turned};

// Whether a frame turned a slave into one that is given up.
fn is_given_up(news: Option<Turned>) -> bool
    ensures { result ≡ is_given_up news }
{
    matches!(news, Some(Turned::GivenUp))
}

impl MasterNode {
    ghost use Rattle.std.specs.Prelude.{◌≡◌, ◌<◌, ◌≤◌, ◌&&◌, not, ℕ, Option, List, map, length, slice_get, ◌∷◌, suc, [], ◌++◌, take, true, Some, None};
    ghost use Rattle.life_runs.specs.of_master_tour.Goes.{is_live, holds_at};
    ghost use Rattle.master_node.specs.Arrivals.{arrive_by, arrivals_in, packets_of, kept_at, heard_at, completed_at, ComeIn};
    ghost use Rattle.master_node.specs.Downs.{Lists, down_by, downs_in, is_given_up, gives_at, GoDown};
    ghost use Rattle.master_node.specs.Forwards.{port_by};
    ghost use Rattle.eoe_switch.specs.of_eoe.declared.joining.Unfinished.{Unfinished};
    ghost use Rattle.life_runs.specs.of_frame_view.View.{Lens};
    ghost use Rattle.life_runs.specs.of_frame_view.Seen.{seen};
    ghost use Rattle.life_runs.specs.of_segment_model.Returned.{Returns};
    ghost use Rattle.life_runs.specs.of_segment_ring.declared.wire.Fate.{Fate};
    ghost use Rattle.life_runs.specs.Led.{Leads, Turn, Exchanged, led_behind, gives_up_at, missed_behind};
    ghost use Rattle.master_node.specs.Brought.{HasBrought};
    ghost use Rattle.master_node.specs.Joined.{HasUnfinished, HasCompleted, stand_before, stand_under, unfinished_after, mails_back, mails_lost};
    ghost use Rattle.master_node.specs.Kept.{NodeKept};
    ghost use Rattle.master_node.specs.Origins.{forwards_at};
    ghost use Rattle.master_node.specs.Happened.{Happens, HappensSo};
    ghost use Rattle.master_node.specs.Shows.{IsUnderWay, MasterShows, MasterUnder, is_opening_lead, lived_of};
    ghost use Rattle.master_node.specs.Serving.{TellsOnly, ServedShows, ServedUnder, mails_in, run_lead, run_turn};
    ghost use Rattle.master_node.specs.Dropped.{Drops, gave_at};
    ghost use Rattle.master_node.specs.Besides.{DoesAt, DoesSo, HasBack, TellsAll, accepted_does, answers, back_does, back_told, complete_does, emitted_does, given_at, handed_does, heard_does, is_state, met_does, over_does, passed_does, replied_does, turned_does};
    ghost use Rattle.master_node.specs.Listed.{listed};
    ghost use Rattle.master_node.specs.Listing.{events_before, events_in, told_in};
    ghost use Rattle.master_node.specs.Gateways.{TellsGateway, lives_told};
    ghost use Rattle.master_node.specs.Lifetold.{TellsJust, lost_at};
    ghost use Rattle.master_node.specs.Backtold.{returned_at};
    ghost use Rattle.life_runs.specs.of_master_tour.Orders.{AreOnce};
    ghost use Rattle.master_node.specs.Handed.{DropsWork, EndsWork, NonePassed, passing_at, work_at};
    ghost use Rattle.master_node.specs.declared.post.Work.{Work};
    ghost use Rattle.life_runs.specs.of_master_tour.Walks.{StepsAt};
    ghost use Rattle.life_runs.specs.Served.{ServedTurn, served_behind};
    ghost use Rattle.life_runs.specs.of_master_tour.Toured.{goes_on, lost_on};
    ghost use Rattle.master_node.specs.Told.{HasLives};
    ghost use Rattle.master_node.specs.Toured.{tour_of};
    ghost use Rattle.master_node.specs.Answered.{AnswersSo};
    ghost use Rattle.master_node.specs.Eager.{AllVisit, recalls};
    ghost use Rattle.master_node.specs.Recalled.{AllRecall};
    ghost use Rattle.master_node.specs.ServedEager.{AllServedAsk, AllServedRecall};

    // The service in hand has its answer.
    fn answered(&mut self, place: usize, kind: ReplyKind)
        requires { place < vec_len self.old.posts }
        ensures posts { vec_len self.new.posts ≡ vec_len self.old.posts }
        ensures kept { NodeKept self.old self.new }
        ensures lan { self.new.lan ≡ self.old.lan }
        ensures tells { TellsOnly self.old self.new }
        ensures works { StepsAt (λ p q. q.work ≡ Work.Nothing) place self.old.posts.items self.new.posts.items }
        ensures answers { StepsAt (λ p q. q.answer ≡ Some kind) place self.old.posts.items self.new.posts.items }
        ensures told { DoesAt place (answers place kind) self.old self.new }
    {
        let post = &mut self.posts[place];
        post.work = Work::Nothing;
        post.answer = Some(kind);
        self.list.put(Event::Answered {
            slave: place as u32,
            kind,
        });
    }

    // The mail heard last was an emergency, or wasn't.
    fn alerted(&mut self, place: usize)
        requires { place < vec_len self.old.posts }
        ensures posts { self.new.posts ≡ self.old.posts }
        ensures lan { self.new.lan ≡ self.old.lan }
        ensures tour { (self.new.tour ≡ self.old.tour) × (self.new.made ≡ self.old.made) }
        ensures told { DoesSo (λ s w. emitted_does place s w) place self.old self.new }
    {
        if let Some(octets) = self.tour.stops[place].side.hand.emergency() {
            let octets = buffer_of(octets.as_slice());
            self.list.put(Event::Emergency {
                slave: place as u32,
                octets,
            });
        }
    }

    // It was one, or the last fragment of a packet, or neither.
    fn emitted(&mut self, place: usize)
        requires { place < vec_len self.old.posts }
        ensures posts { vec_len self.new.posts ≡ vec_len self.old.posts }
        ensures kept { NodeKept self.old self.new }
        ensures lan { Happens 1 self.old.lan self.new.lan }
        ensures listed { Lists (arrive_by (port_by (slice_get self.old.lan.ports.items place)) (kept_at self.old.tour.stops.items place)) self.old.lan self.new.lan }
        ensures tells { TellsOnly self.old self.new }
        ensures works { EndsWork (λ k. passing_at self.old.tour.stops.items k) [] self.old.posts.items self.new.posts.items }
        ensures told { DoesSo (λ s w. emitted_does place s w) place self.old self.new }
    {
        self.alerted(place);
        if let Some(packet) = self.tour.stops[place].side.hand.packet() {
            let packet = buffer_of(packet.as_slice());
            self.lan.came(place, packet);
        }
    }

    // A reply of the mail that is passed on.
    fn replied(&mut self, place: usize, key: usize)
        requires { place < vec_len self.old.posts }
        ensures posts { vec_len self.new.posts ≡ vec_len self.old.posts }
        ensures kept { NodeKept self.old self.new }
        ensures lan { self.new.lan ≡ self.old.lan }
        ensures tells { TellsOnly self.old self.new }
        ensures works { EndsWork (λ k. passing_at self.old.tour.stops.items k) [] self.old.posts.items self.new.posts.items }
        ensures told { DoesSo (λ s w. replied_does key s w) place self.old self.new }
    {
        if let Some(mail) = self.tour.stops[place].side.hand.replied() {
            let mail = bare(mail);
            self.list.put(Event::GatewayReply { key, mail });
        }
    }

    // The last reply of a scripted service was accepted.
    fn complete(&mut self, place: usize)
        requires { place < vec_len self.old.posts }
        ensures posts { vec_len self.new.posts ≡ vec_len self.old.posts }
        ensures kept { NodeKept self.old self.new }
        ensures lan { self.new.lan ≡ self.old.lan }
        ensures tells { TellsOnly self.old self.new }
        ensures works { NonePassed self.old.posts.items place → EndsWork (λ k. passing_at self.old.tour.stops.items k) [] self.old.posts.items self.new.posts.items }
        ensures told { DoesSo (λ s w. complete_does place s w) place self.old self.new }
    {
        if let Some(kind) = self.tour.stops[place].side.hand.answer() {
            self.answered(place, kind);
        }
    }

    // A mail was accepted. A service by mails has no answer before its last reply.
    fn heard(&mut self, place: usize)
        requires { place < vec_len self.old.posts }
        ensures posts { vec_len self.new.posts ≡ vec_len self.old.posts }
        ensures kept { NodeKept self.old self.new }
        ensures lan { Happens 1 self.old.lan self.new.lan }
        ensures listed { Lists (arrive_by (port_by (slice_get self.old.lan.ports.items place)) (kept_at self.old.tour.stops.items place)) self.old.lan self.new.lan }
        ensures tells { TellsOnly self.old self.new }
        ensures works { EndsWork (λ k. passing_at self.old.tour.stops.items k) [] self.old.posts.items self.new.posts.items }
        ensures told { DoesSo (λ s w. accepted_does place s w) place self.old self.new }
    {
        self.emitted(place);
        match self.posts[place].work {
            Work::Passed { key } => self.replied(place, key),
            Work::Mails => self.complete(place),
            Work::Nothing | Work::State | Work::Packet => {}
        }
    }

    // A packet is over once the write of its last fragment is done.
    fn handed(&mut self, place: usize)
        requires { place < vec_len self.old.posts }
        ensures posts { vec_len self.new.posts ≡ vec_len self.old.posts }
        ensures kept { NodeKept self.old self.new }
        ensures lan { self.new.lan ≡ self.old.lan }
        ensures tells { TellsOnly self.old self.new }
        ensures works { NonePassed self.old.posts.items place → EndsWork (λ k. passing_at self.old.tour.stops.items k) [] self.old.posts.items self.new.posts.items }
        ensures told { DoesSo (λ s w. handed_does place s w) place self.old self.new }
    {
        if self.tour.stops[place].side.is_free() {
            self.answered(place, ReplyKind::Handed);
        }
    }

    // A mail that is passed on is over once its side forgets it.
    fn passed(&mut self, place: usize, key: usize)
        requires { place < vec_len self.old.posts }
        ensures posts { vec_len self.new.posts ≡ vec_len self.old.posts }
        ensures kept { NodeKept self.old self.new }
        ensures lan { self.new.lan ≡ self.old.lan }
        ensures tells { TellsOnly self.old self.new }
        ensures works { EndsWork (λ k. passing_at self.old.tour.stops.items k) (place ∷ []) self.old.posts.items self.new.posts.items }
        ensures told { DoesSo (λ s w. passed_does place key s w) place self.old self.new }
    {
        if self.tour.stops[place].side.passing.is_none() {
            self.answered(place, ReplyKind::Handed);
            self.list.put(Event::GatewayDone { key });
        }
    }

    // A state service of an open slave is over once it has met its target or a refusal. One that is opened answers it once it is open.
    fn met(&mut self, place: usize)
        requires { place < vec_len self.old.posts }
        ensures posts { vec_len self.new.posts ≡ vec_len self.old.posts }
        ensures kept { NodeKept self.old self.new }
        ensures lan { self.new.lan ≡ self.old.lan }
        ensures tells { TellsOnly self.old self.new }
        ensures works { NonePassed self.old.posts.items place → EndsWork (λ k. passing_at self.old.tour.stops.items k) [] self.old.posts.items self.new.posts.items }
        ensures told { DoesSo (λ s w. met_does place s w) place self.old self.new }
    {
        let stop = &self.tour.stops[place];
        if !matches!(stop.stand, Stand::Open) {
            return;
        }
        match stop.side.duty {
            Some(Met::Reached) => self.answered(place, ReplyKind::Done),
            Some(Met::Refused(code)) => self.answered(place, ReplyKind::StateRefused(code)),
            Some(Met::On(_)) => {}
            None => {}
        }
    }

    // What the slave has in hand is over, where it has no reply by mails of its own.
    fn over(&mut self, place: usize)
        requires { place < vec_len self.old.posts }
        ensures posts { vec_len self.new.posts ≡ vec_len self.old.posts }
        ensures kept { NodeKept self.old self.new }
        ensures lan { self.new.lan ≡ self.old.lan }
        ensures tells { TellsOnly self.old self.new }
        ensures works { EndsWork (λ k. passing_at self.old.tour.stops.items k) (place ∷ []) self.old.posts.items self.new.posts.items }
        ensures told { DoesSo (λ s w. over_does place s w) place self.old self.new }
    {
        match self.posts[place].work {
            Work::Nothing | Work::Mails => {}
            Work::Packet => self.handed(place),
            Work::Passed { key } => self.passed(place, key),
            Work::State => self.met(place),
        }
    }

    // Whether a change of state is in hand.
    fn has_state(&self, place: usize) -> bool
        requires { place < vec_len self.now.posts }
        ensures { result ≡ is_state (work_at self.now.posts.items place) }
    {
        matches!(self.posts[place].work, Work::State)
    }

    // The slave was seen in Init, or is open.
    fn turned(&mut self, place: usize)
        requires { place < vec_len self.old.posts }
        ensures posts { vec_len self.new.posts ≡ vec_len self.old.posts }
        ensures kept { NodeKept self.old self.new }
        ensures lan { self.new.lan ≡ self.old.lan }
        ensures tells { TellsOnly self.old self.new }
        ensures works { EndsWork (λ k. passing_at self.old.tour.stops.items k) [] self.old.posts.items self.new.posts.items }
        ensures told { DoesSo (λ s w. turned_does place s w) place self.old self.new }
    {
        let slave = place as u32;
        let own = self.has_state(place);
        match self.tour.stops[place].news {
            Some(Turned::Cleared) => self.list.put(Event::Cleared { slave, own }),
            Some(Turned::Opened) => {
                self.list.put(Event::Opened { slave });
                if own {
                    self.answered(place, ReplyKind::Done);
                }
            }
            Some(Turned::GivenUp) => {}
            None => {}
        }
    }

    // A mail was accepted, or none was.
    fn heard_where(&mut self, place: usize, what: Option<Heard>)
        requires { place < vec_len self.old.posts }
        ensures posts { vec_len self.new.posts ≡ vec_len self.old.posts }
        ensures kept { NodeKept self.old self.new }
        ensures lan { Happens 1 self.old.lan self.new.lan }
        ensures listed { Lists (arrive_by (port_by (slice_get self.old.lan.ports.items place)) (packets_of what (kept_at self.old.tour.stops.items place))) self.old.lan self.new.lan }
        ensures tells { TellsOnly self.old self.new }
        ensures works { EndsWork (λ k. passing_at self.old.tour.stops.items k) [] self.old.posts.items self.new.posts.items }
        ensures told { DoesSo (λ s w. heard_does place what s w) place self.old self.new }
    {
        if what.is_some() {
            self.heard(place);
        }
    }

    // What the frame brought of a slave that it carried.
    fn back(&mut self, place: usize)
        requires { place < vec_len self.old.posts }
        ensures posts { vec_len self.new.posts ≡ vec_len self.old.posts }
        ensures kept { NodeKept self.old self.new }
        ensures lan { Happens 1 self.old.lan self.new.lan }
        ensures listed { Lists (arrive_by (port_by (slice_get self.old.lan.ports.items place)) (heard_at self.old.tour.stops.items place)) self.old.lan self.new.lan }
        ensures tells { TellsOnly self.old self.new }
        ensures works { EndsWork (λ k. passing_at self.old.tour.stops.items k) (place ∷ []) self.old.posts.items self.new.posts.items }
        ensures told { DoesSo (λ s w. back_does place s w) place self.old self.new }
    {
        let what = self.tour.stops[place].side.heard;
        self.heard_where(place, what);
        self.over(place);
        self.turned(place);
    }

    // The same of the one at this place, where a slave stands there.
    fn back_at(&mut self, place: usize)
        ensures posts { vec_len self.new.posts ≡ vec_len self.old.posts }
        ensures kept { NodeKept self.old self.new }
        ensures lan { Happens 1 self.old.lan self.new.lan }
        ensures listed { Lists (arrive_by (port_by (slice_get self.old.lan.ports.items place)) (heard_at self.old.tour.stops.items place)) self.old.lan self.new.lan }
        ensures tells { TellsOnly self.old self.new }
        ensures works { EndsWork (λ k. passing_at self.old.tour.stops.items k) (place ∷ []) self.old.posts.items self.new.posts.items }
        ensures told { DoesSo (λ s w. back_does place s w) place self.old self.new }
    {
        if place < self.posts.len() {
            self.back(place);
        }
    }

    // What it brought of all that it carried.
    fn all_back(&mut self)
        ensures posts { vec_len self.new.posts ≡ vec_len self.old.posts }
        ensures kept { NodeKept self.old self.new }
        ensures lan { Happens 16 self.old.lan self.new.lan }
        ensures listed { Lists (arrivals_in self.old.lan.ports.items (λ p. heard_at self.old.tour.stops.items p) self.old.tour.visit.items) self.old.lan self.new.lan }
        ensures tells { TellsOnly self.old self.new }
        ensures works { EndsWork (λ k. passing_at self.old.tour.stops.items k) self.old.tour.visit.items self.old.posts.items self.new.posts.items }
        ensures head { events_before self.new ≡ events_before self.old }
        ensures told { AreOnce self.old.tour.visit.items → TellsAll (told_in (back_told self.old) self.old.tour.visit.items) self.old self.new }
        ensures has { AreOnce self.old.tour.visit.items → HasBack self.old self.new }
        ensures few { length self.old.tour.visit.items ≤ 16 }
    {
        for k in 0..self.tour.visit.len() {
            let place = self.tour.visit.as_slice()[k];
            self.back_at(place);
        }
    }

    /// The frame that `next` made came back. Just what the lives of the slaves that it carried tell is told; of a mail that is passed on its replies, under the key of its asker, and that no more follows.
    pub fn returned(&mut self, frame: &FrameBuf)
        ensures posts { vec_len self.new.posts ≡ vec_len self.old.posts }
        ensures leads { (lens : ℕ → Lens) (recover retry missed number : ℕ) (octets : List ℕ) (us : List Turn) (f : Exchanged) → f.fate ≡ Fate.Pass → f.back ≡ frame.now.items → MasterUnder lens recover retry self.old octets missed us → Returns (seen lens octets) (seen lens frame.now.items) →
            MasterShows lens recover retry self.new 0 (map (led_behind lens recover retry (gives_up_at lens recover retry missed) number f) us) }
        ensures toured { (lens : ℕ → Lens) (recover : ℕ) (as' : List Leads) → HasLives lens recover self.new (map lived_of as') → tour_of self.new ≡ goes_on is_opening_lead as' (tour_of self.old) self.old.tour.visit.items }
        ensures brought { (lens : ℕ → Lens) (recover : ℕ) (octets : List ℕ) (us : List Turn) → IsUnderWay lens recover self.old octets us → Returns (seen lens octets) (seen lens frame.now.items) → HasBrought self.new us (seen lens frame.now.items) }
        ensures joined { (lens : ℕ → Lens) (recover retry missed number : ℕ) (octets : List ℕ) (us : List Turn) (befores : List (Option Unfinished)) (f : Exchanged) → f.fate ≡ Fate.Pass → f.back ≡ frame.now.items → MasterUnder lens recover retry self.old octets missed us → Returns (seen lens octets) (seen lens frame.now.items) →
            HasUnfinished self.old (map stand_under us) befores → HasCompleted self.new us befores (seen lens frame.now.items) × HasUnfinished self.new (map stand_before (map (led_behind lens recover retry (gives_up_at lens recover retry missed) number f) us)) (unfinished_after (mails_back (seen lens frame.now.items)) us befores) }
        ensures joins { (lens : ℕ → Lens) (recover retry missed made : ℕ) (octets : List ℕ) (vs : List ServedTurn) (befores : List (Option Unfinished)) (f : Exchanged) → f.fate ≡ Fate.Pass → f.back ≡ frame.now.items → ServedUnder lens recover retry self.old octets missed made vs →
            Returns (seen lens octets) (seen lens frame.now.items) → HasUnfinished self.old (map stand_under (map run_turn vs)) befores → HasCompleted self.new (map run_turn vs) befores (seen lens frame.now.items) ×
            HasUnfinished self.new (map stand_before (map run_lead (map (served_behind lens recover retry (gives_up_at lens recover retry missed) made f) vs))) (unfinished_after (mails_back (seen lens frame.now.items)) (map run_turn vs) befores) }
        ensures happened { HappensSo self.old.lan self.new.lan }
        ensures arrivals { (lens : ℕ → Lens) (recover : ℕ) (octets : List ℕ) (us : List Turn) (befores : List (Option Unfinished)) → IsUnderWay lens recover self.old octets us → Returns (seen lens octets) (seen lens frame.now.items) →
            HasUnfinished self.old (map stand_under us) befores → ComeIn self.old (λ p. completed_at (seen lens frame.now.items) us befores p) self.new }
        ensures served { (lens : ℕ → Lens) (recover retry missed made : ℕ) (octets : List ℕ) (vs : List ServedTurn) (f : Exchanged) → f.fate ≡ Fate.Pass → f.back ≡ frame.now.items → ServedUnder lens recover retry self.old octets missed made vs → Returns (seen lens octets) (seen lens frame.now.items) →
            ServedShows lens recover retry self.new 0 (suc made) (map (served_behind lens recover retry (gives_up_at lens recover retry missed) made f) vs) }
        ensures counts { (k : ℕ) → forwards_at self.new.posts.items k ≡ forwards_at self.old.posts.items k }
        ensures recalls { (lens : ℕ → Lens) (recover retry missed : ℕ) (octets : List ℕ) (us : List Turn) → MasterUnder lens recover retry self.old octets missed us → Returns (seen lens octets) (seen lens frame.now.items) →
            AllVisit (seen lens octets) (recalls self.old) us → AllRecall lens (seen lens frame.now.items) us (recalls self.old) (recalls self.new) }
        ensures remembers { (lens : ℕ → Lens) (recover retry missed made : ℕ) (octets : List ℕ) (vs : List ServedTurn) (f : Exchanged) → f.fate ≡ Fate.Pass → f.back ≡ frame.now.items → ServedUnder lens recover retry self.old octets missed made vs → Returns (seen lens octets) (seen lens frame.now.items) →
            AllServedAsk (seen lens octets) (recalls self.old) (map run_turn vs) → AllServedRecall lens (seen lens frame.now.items) (λ v. served_behind lens recover retry (gives_up_at lens recover retry missed) made f v) vs (recalls self.old) (recalls self.new) }
        ensures gateway { (lens : ℕ → Lens) (recover retry missed made : ℕ) (octets : List ℕ) (vs : List ServedTurn) (f : Exchanged) → f.fate ≡ Fate.Pass → f.back ≡ frame.now.items → ServedUnder lens recover retry self.old octets missed made vs → Returns (seen lens octets) (seen lens frame.now.items) →
            TellsGateway (λ k. lives_told (seen lens frame.now.items) vs (map (served_behind lens recover retry (gives_up_at lens recover retry missed) made f) vs) k) self.old self.new }
        ensures told { (lens : ℕ → Lens) (recover retry missed made : ℕ) (octets : List ℕ) (vs : List ServedTurn) (f : Exchanged) → f.fate ≡ Fate.Pass → f.back ≡ frame.now.items → ServedUnder lens recover retry self.old octets missed made vs → Returns (seen lens octets) (seen lens frame.now.items) →
            TellsJust (λ k. returned_at lens (seen lens frame.now.items) (recalls self.new) vs (map (served_behind lens recover retry (gives_up_at lens recover retry missed) made f) vs) k) self.old self.new }
        ensures answers { AreOnce self.old.tour.visit.items → self.old.list.before ≤ 16 → AnswersSo self.old self.new }
        ensures whole { listed self.new.list.rows.items self.new.list.count ≡ take self.old.list.before self.old.list.rows.items ++ events_in self.new }
    {
        self.list.ends();
        self.lan.begins();
        self.tour.returned(frame, self.made.wrapping_sub(1));
        self.all_back();
    }

    // Nothing is in hand of the slave any more, and no mail waits to be passed on to it.
    fn dropped(&mut self, place: usize)
        requires { place < vec_len self.old.posts }
        ensures posts { vec_len self.new.posts ≡ vec_len self.old.posts }
        ensures kept { NodeKept self.old self.new }
        ensures lan { self.new.lan ≡ self.old.lan }
        ensures tour { self.new.tour ≡ self.old.tour }
        ensures mails { StepsAt (λ ks ls. ls ≡ []) place (mails_in self.old) (mails_in self.new) }
        ensures works { StepsAt (λ p q. q.work ≡ Work.Nothing) place self.old.posts.items self.new.posts.items }
        ensures answers { StepsAt (λ p q. q.answer ≡ None) place self.old.posts.items self.new.posts.items }
        ensures list { self.new.list ≡ self.old.list }
    {
        self.posts[place].drop_all();
    }

    // The slave's port is down, where it was given up for good.
    fn down_where(&mut self, place: usize)
        requires { place < vec_len self.old.posts }
        ensures posts { vec_len self.new.posts ≡ vec_len self.old.posts }
        ensures kept { NodeKept self.old self.new }
        ensures lan { Happens 1 self.old.lan self.new.lan }
        ensures tour { self.new.tour ≡ self.old.tour }
        ensures mails { mails_in self.new ≡ mails_in self.old }
        ensures listed { Lists (down_by (port_by (slice_get self.old.lan.ports.items place)) (holds_at (λ s. not (is_live s.stand)) self.old.tour.stops.items place)) self.old.lan self.new.lan }
        ensures works { self.new.posts ≡ self.old.posts }
        ensures list { self.new.list ≡ self.old.list }
    {
        if !self.tour.stops[place].is_live() {
            self.lan.down(place);
        }
    }

    // A slave was given up, where it was.
    fn given_up(&mut self, place: usize)
        requires { place < vec_len self.old.posts }
        ensures posts { vec_len self.new.posts ≡ vec_len self.old.posts }
        ensures kept { NodeKept self.old self.new }
        ensures lan { Happens 1 self.old.lan self.new.lan }
        ensures tour { self.new.tour ≡ self.old.tour }
        ensures mails { Drops (λ p. gave_at self.old.tour.stops.items p) (place ∷ []) (mails_in self.old) (mails_in self.new) }
        ensures listed { Lists (down_by (port_by (slice_get self.old.lan.ports.items place)) (gives_at self.old.tour.stops.items place)) self.old.lan self.new.lan }
        ensures works { DropsWork (λ p. gave_at self.old.tour.stops.items p) (place ∷ []) self.old.posts.items self.new.posts.items }
        ensures told { TellsAll (given_at self.old.tour.stops.items place) self.old self.new }
    {
        if !is_given_up(self.tour.stops[place].news) {
            return;
        }
        self.dropped(place);
        self.list.put(Event::GivenUp {
            slave: place as u32,
        });
        self.down_where(place);
    }

    // The one at this place, where a slave stands there.
    fn given_up_at(&mut self, place: usize)
        ensures posts { vec_len self.new.posts ≡ vec_len self.old.posts }
        ensures kept { NodeKept self.old self.new }
        ensures lan { Happens 1 self.old.lan self.new.lan }
        ensures tour { self.new.tour ≡ self.old.tour }
        ensures mails { Drops (λ p. gave_at self.old.tour.stops.items p) (place ∷ []) (mails_in self.old) (mails_in self.new) }
        ensures listed { Lists (down_by (port_by (slice_get self.old.lan.ports.items place)) (gives_at self.old.tour.stops.items place)) self.old.lan self.new.lan }
        ensures works { DropsWork (λ p. gave_at self.old.tour.stops.items p) (place ∷ []) self.old.posts.items self.new.posts.items }
        ensures told { TellsAll (given_at self.old.tour.stops.items place) self.old self.new }
    {
        if place < self.posts.len() {
            self.given_up(place);
        }
    }

    // Those of all that the frame carried that were.
    fn all_given_up(&mut self)
        ensures posts { vec_len self.new.posts ≡ vec_len self.old.posts }
        ensures kept { NodeKept self.old self.new }
        ensures lan { Happens 16 self.old.lan self.new.lan }
        ensures tour { self.new.tour ≡ self.old.tour }
        ensures mails { Drops (λ p. gave_at self.old.tour.stops.items p) self.old.tour.visit.items (mails_in self.old) (mails_in self.new) }
        ensures listed { Lists (downs_in self.old.lan.ports.items (λ p. gives_at self.old.tour.stops.items p) self.old.tour.visit.items) self.old.lan self.new.lan }
        ensures works { DropsWork (λ p. gave_at self.old.tour.stops.items p) self.old.tour.visit.items self.old.posts.items self.new.posts.items }
        ensures told { TellsAll (told_in (λ k. given_at self.old.tour.stops.items k) self.old.tour.visit.items) self.old self.new }
        ensures few { length self.old.tour.visit.items ≤ 16 }
    {
        for k in 0..self.tour.visit.len() {
            let place = self.tour.visit.as_slice()[k];
            self.given_up_at(place);
        }
    }

    /// The frame that `next` made was lost. Just that slaves were given up is told.
    pub fn lost(&mut self)
        ensures posts { vec_len self.new.posts ≡ vec_len self.old.posts }
        ensures leads { (lens : ℕ → Lens) (recover retry missed number after : ℕ) (octets : List ℕ) (us : List Turn) (f : Exchanged) → f.fate ≡ Fate.Lost after → f.sent ≡ octets → MasterUnder lens recover retry self.old octets missed us →
            MasterShows lens recover retry self.new (missed_behind lens recover retry f.fate missed) (map (led_behind lens recover retry (gives_up_at lens recover retry missed) number f) us) }
        ensures joined { (lens : ℕ → Lens) (recover retry missed number after : ℕ) (octets : List ℕ) (us : List Turn) (befores : List (Option Unfinished)) (f : Exchanged) → f.fate ≡ Fate.Lost after → f.sent ≡ octets → MasterUnder lens recover retry self.old octets missed us →
            HasUnfinished self.old (map stand_under us) befores → HasUnfinished self.new (map stand_before (map (led_behind lens recover retry (gives_up_at lens recover retry missed) number f) us)) (unfinished_after mails_lost us befores) }
        ensures toured { (lens : ℕ → Lens) (recover : ℕ) (as' : List Leads) → HasLives lens recover self.new (map lived_of as') → tour_of self.new ≡ lost_on is_opening_lead self.old.tour.retry as' (tour_of self.old) self.old.tour.visit.items }
        ensures joins { (lens : ℕ → Lens) (recover retry missed made after : ℕ) (octets : List ℕ) (vs : List ServedTurn) (befores : List (Option Unfinished)) (f : Exchanged) → f.fate ≡ Fate.Lost after → f.sent ≡ octets → ServedUnder lens recover retry self.old octets missed made vs →
            HasUnfinished self.old (map stand_under (map run_turn vs)) befores →
            HasUnfinished self.new (map stand_before (map run_lead (map (served_behind lens recover retry (gives_up_at lens recover retry missed) made f) vs))) (unfinished_after mails_lost (map run_turn vs) befores) }
        ensures leaves { (lens : ℕ → Lens) (recover retry missed made after : ℕ) (octets : List ℕ) (vs : List ServedTurn) (f : Exchanged) → f.fate ≡ Fate.Lost after → f.sent ≡ octets → ServedUnder lens recover retry self.old octets missed made vs →
            GoDown self.old (map run_turn vs) (map run_lead (map (served_behind lens recover retry (gives_up_at lens recover retry missed) made f) vs)) self.new }
        ensures happened { HappensSo self.old.lan self.new.lan }
        ensures downs { (lens : ℕ → Lens) (recover retry missed number after : ℕ) (octets : List ℕ) (us : List Turn) (f : Exchanged) → f.fate ≡ Fate.Lost after → f.sent ≡ octets → MasterUnder lens recover retry self.old octets missed us →
            GoDown self.old us (map (led_behind lens recover retry (gives_up_at lens recover retry missed) number f) us) self.new }
        ensures served { (lens : ℕ → Lens) (recover retry missed made after : ℕ) (octets : List ℕ) (vs : List ServedTurn) (f : Exchanged) → f.fate ≡ Fate.Lost after → f.sent ≡ octets → ServedUnder lens recover retry self.old octets missed made vs →
            ServedShows lens recover retry self.new (missed_behind lens recover retry f.fate missed) (suc made) (map (served_behind lens recover retry (gives_up_at lens recover retry missed) made f) vs) }
        ensures counts { (k : ℕ) → forwards_at self.new.posts.items k ≡ forwards_at self.old.posts.items k }
        ensures recalls { (lens : ℕ → Lens) (recover retry missed : ℕ) (octets : List ℕ) (us : List Turn) → MasterUnder lens recover retry self.old octets missed us → AllRecall lens [] us (recalls self.old) (recalls self.new) }
        ensures remembers { (lens : ℕ → Lens) (recover retry missed made : ℕ) (octets : List ℕ) (vs : List ServedTurn) (f : Exchanged) → ServedUnder lens recover retry self.old octets missed made vs →
            AllServedRecall lens [] (λ v. served_behind lens recover retry (gives_up_at lens recover retry missed) made f v) vs (recalls self.old) (recalls self.new) }
        ensures told { (lens : ℕ → Lens) (recover retry missed made after : ℕ) (octets : List ℕ) (vs : List ServedTurn) (f : Exchanged) → f.fate ≡ Fate.Lost after → f.sent ≡ octets → ServedUnder lens recover retry self.old octets missed made vs →
            TellsJust (λ k. lost_at vs (map (served_behind lens recover retry (gives_up_at lens recover retry missed) made f) vs) k) self.old self.new }
        ensures answers { self.old.list.before ≤ 16 → AnswersSo self.old self.new }
        ensures whole { listed self.new.list.rows.items self.new.list.count ≡ take self.old.list.before self.old.list.rows.items ++ events_in self.new }
    {
        self.list.ends();
        self.lan.begins();
        self.tour.lost();
        self.all_given_up();
    }
}
