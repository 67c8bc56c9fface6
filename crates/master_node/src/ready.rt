//! What may come into hand of a slave, and how it is laid ready.

ghost use Rattle.std.specs.Prelude.{◌≡◌, vec_len};

use crate::coming::{Coming, scripted};
use crate::event::Origin;
use crate::laying::{lay_mail, lay_nothing, lay_packet, lay_script};
use crate::node::MasterNode;
use crate::post::Work;
use master_tour::Stand;

impl MasterNode {
    ghost use Rattle.std.specs.Prelude.{◌≡◌, ◌<◌, vec_len};
    ghost use Rattle.std.specs.Prelude.{All, IfSome, Some, List, [], slice_get};
    ghost use Rattle.life_runs.specs.of_master_tour.Walks.{StepsAt};
    ghost use Rattle.master_node.specs.declared.coming.Coming.{Coming};
    ghost use Rattle.master_node.specs.Shows.{WaitsNone};
    ghost use Rattle.master_node.specs.Kept.{StopStays, TourKept};
    ghost use Rattle.master_node.specs.Coming.{next_of, IsComing, IsLaid};
    ghost use Rattle.std.specs.Prelude.{if◌then◌else◌};
    ghost use Rattle.master_node.specs.Joined.{JoinsKept};
    ghost use Rattle.master_node.specs.Starts.{IsByMails, LaysPacket, NoPacket, NoneComes, SideFrees, WaitsFor};
    ghost use Rattle.life_runs.specs.of_master_hand.declared.laying.Laid.{Laid};
    ghost use Rattle.life_runs.specs.of_master_tour.declared.stop.Stand.{Stand};
    ghost use Rattle.std.specs.Prelude.{None, is_some, true};
    ghost use Rattle.life_runs.specs.of_master_side.Free.{is_free_side};
    ghost use Rattle.master_node.specs.Numbered.{StaysNumbered};
    ghost use Rattle.master_node.specs.Origins.{LaysFrom};
    ghost use Rattle.master_node.specs.Begins.{IsOldest, LaysOldest, PacketFirst};
    ghost use Rattle.master_node.specs.Handed.{LaysWork};
    ghost use Rattle.life_runs.specs.of_master_side.declared.carried.Target.{Target};
    ghost use Rattle.master_node.specs.Serving.{mails_in};
    ghost use Rattle.master_node.specs.Passes.{IsNextState, IsReady, LaysMail, MailWaits, ScriptLast, waits_behind, waits_in};

    // What may come into hand of an open slave: a packet first, then a mail that is passed on, then the script. One that has something in hand takes
    // nothing.
    fn coming_open(&self, place: usize) -> Option<Coming>
        requires { place < vec_len self.now.posts }
        ensures comes { All WaitsNone self.now.posts.items → IfSome (slice_get self.now.tour.stops.items place) (λ s. IsComing (next_of s) result) }
        ensures first { PacketFirst self.now.lan place result }
        ensures none { result ≡ None → IfSome (slice_get self.now.tour.stops.items place) (λ s. s.stand ≡ Stand.Open → SideFrees s.side → NoneComes self.now.lan place (next_of s) × (waits_in (mails_in self.now) place ≡ [])) }
        ensures mails { IfSome (slice_get self.now.tour.stops.items place) (λ s. result ≡ Some Coming.Script → IsByMails (next_of s)) }
        ensures waits { WaitsFor self.now.lan place result }
        ensures free { IfSome (slice_get self.now.tour.stops.items place) (λ s. is_some result ≡ true → is_free_side s.side ≡ true) }
        ensures states { IfSome (slice_get self.now.tour.stops.items place) (λ s. IsNextState (next_of s) result) }
        ensures oldest { MailWaits (waits_in (mails_in self.now) place) result }
        ensures last { ScriptLast (waits_in (mails_in self.now) place) result }
    {
        let stop = &self.tour.stops[place];
        if !stop.side.is_free() {
            return None;
        }
        if self.lan.waits(place) {
            return Some(Coming::Packet);
        }
        if self.posts[place].has_mail() {
            return Some(Coming::Mail);
        }
        scripted(&stop.side.hand)
    }

    // A slave that isn't open takes nothing.
    pub(crate) fn coming(&self, place: usize) -> Option<Coming>
        requires { place < vec_len self.now.posts }
        ensures comes { All WaitsNone self.now.posts.items → IfSome (slice_get self.now.tour.stops.items place) (λ s. IsComing (next_of s) result) }
        ensures first { PacketFirst self.now.lan place result }
        ensures none { result ≡ None → IfSome (slice_get self.now.tour.stops.items place) (λ s. s.stand ≡ Stand.Open → SideFrees s.side → NoneComes self.now.lan place (next_of s) × (waits_in (mails_in self.now) place ≡ [])) }
        ensures mails { IfSome (slice_get self.now.tour.stops.items place) (λ s. result ≡ Some Coming.Script → IsByMails (next_of s)) }
        ensures waits { WaitsFor self.now.lan place result }
        ensures free { IfSome (slice_get self.now.tour.stops.items place) (λ s. is_some result ≡ true → (s.stand ≡ Stand.Open) × (is_free_side s.side ≡ true)) }
        ensures states { IfSome (slice_get self.now.tour.stops.items place) (λ s. IsNextState (next_of s) result) }
        ensures oldest { MailWaits (waits_in (mails_in self.now) place) result }
        ensures last { ScriptLast (waits_in (mails_in self.now) place) result }
    {
        let stop = &self.tour.stops[place];
        match stop.stand {
            Stand::Gone => None,
            Stand::Opening(_) => None,
            Stand::Open => self.coming_open(place),
        }
    }

    // The oldest packet that waits at the slave's port is laid ready; it goes on waiting there.
    fn lay_packet(&mut self, place: usize)
        requires { place < vec_len self.old.posts }
        ensures posts { vec_len self.new.posts ≡ vec_len self.old.posts }
        ensures laid { StepsAt (λ s t. StopStays s t × IsLaid (Some Coming.Packet) t.side.hand.laying.laid) place self.old.tour.stops.items self.new.tour.stops.items }
        ensures kept { TourKept self.old self.new × (All WaitsNone self.old.posts.items → All WaitsNone self.new.posts.items) }
        ensures oldest { StepsAt (λ s t. IsOldest self.old.lan place t) place self.old.tour.stops.items self.new.tour.stops.items }
        ensures sure { (NoPacket self.old.lan place → ⊥) → StepsAt (λ s t. t.side.hand.laying.laid ≡ Laid.Packet) place self.old.tour.stops.items self.new.tour.stops.items }
        ensures lan { self.new.lan ≡ self.old.lan }
        ensures list { self.new.list ≡ self.old.list }
        ensures origins { StepsAt (λ s t. StepsAt (λ p q. LaysFrom (Some Coming.Packet) s.side.hand.laying.number p q) place self.old.posts.items self.new.posts.items) place self.old.tour.stops.items self.new.tour.stops.items }
        ensures mails { mails_in self.new ≡ mails_in self.old }
        ensures works { StepsAt (λ p q. LaysWork (Some Coming.Packet) p q) place self.old.posts.items self.new.posts.items }
    {
        let post = &mut self.posts[place];
        post.next = Work::Packet;
        post.origin = Origin::Forward(post.forwards);
        match self.lan.oldest(place) {
            Some(packet) => lay_packet(&mut self.tour.stops[place].side, packet),
            None => lay_nothing(&mut self.tour.stops[place].side),
        }
    }

    // The oldest mail that waits to be passed on is laid ready.
    fn lay_mail(&mut self, place: usize)
        requires { place < vec_len self.old.posts }
        ensures posts { vec_len self.new.posts ≡ vec_len self.old.posts }
        ensures laid { StepsAt (λ s t. StopStays s t) place self.old.tour.stops.items self.new.tour.stops.items }
        ensures kept { TourKept self.old self.new × (All WaitsNone self.old.posts.items → All WaitsNone self.new.posts.items) }
        ensures lan { self.new.lan ≡ self.old.lan }
        ensures list { self.new.list ≡ self.old.list }
        ensures origins { StepsAt (λ s t. StepsAt (λ p q. LaysFrom (Some Coming.Mail) s.side.hand.laying.number p q) place self.old.posts.items self.new.posts.items) place self.old.tour.stops.items self.new.tour.stops.items }
        ensures mails { StepsAt (λ ks ls. ls ≡ waits_behind (Some Coming.Mail) ks) place (mails_in self.old) (mails_in self.new) }
        ensures ready { StepsAt (λ s t. IsReady t.side.out.len (waits_in (mails_in self.old) place) t.side.hand.laying) place self.old.tour.stops.items self.new.tour.stops.items }
        ensures works { StepsAt (λ p q. LaysWork (Some Coming.Mail) p q) place self.old.posts.items self.new.posts.items }
    {
        let post = &mut self.posts[place];
        post.origin = Origin::Gateway(post.oldest());
        if let Some(asked) = post.take() {
            post.next = Work::Passed { key: asked.key };
            lay_mail(&mut self.tour.stops[place].side, &asked.mail);
        }
    }

    // The next scripted service is laid ready.
    fn lay_script(&mut self, place: usize)
        requires { place < vec_len self.old.posts }
        ensures posts { vec_len self.new.posts ≡ vec_len self.old.posts }
        ensures laid { StepsAt (λ s t. StopStays s t × IsLaid (Some Coming.Script) t.side.hand.laying.laid) place self.old.tour.stops.items self.new.tour.stops.items }
        ensures kept { TourKept self.old self.new × (All WaitsNone self.old.posts.items → All WaitsNone self.new.posts.items) }
        ensures lan { self.new.lan ≡ self.old.lan }
        ensures list { self.new.list ≡ self.old.list }
        ensures origins { StepsAt (λ s t. StepsAt (λ p q. LaysFrom (Some Coming.Script) s.side.hand.laying.number p q) place self.old.posts.items self.new.posts.items) place self.old.tour.stops.items self.new.tour.stops.items }
        ensures mails { mails_in self.new ≡ mails_in self.old }
        ensures works { StepsAt (λ p q. LaysWork (Some Coming.Script) p q) place self.old.posts.items self.new.posts.items }
    {
        let side = &mut self.tour.stops[place].side;
        let number = side.hand.number();
        lay_script(side);
        let post = &mut self.posts[place];
        post.next = Work::Mails;
        post.origin = Origin::Script(number);
    }

    // So it is where it is a change of state, which is its side's own.
    fn lay_state(&mut self, place: usize)
        requires { place < vec_len self.old.posts }
        ensures posts { vec_len self.new.posts ≡ vec_len self.old.posts }
        ensures tour { (self.new.tour ≡ self.old.tour) × (self.new.made ≡ self.old.made) }
        ensures quiet { All WaitsNone self.old.posts.items → All WaitsNone self.new.posts.items }
        ensures lan { self.new.lan ≡ self.old.lan }
        ensures list { self.new.list ≡ self.old.list }
        ensures origins { StepsAt (λ s t. StepsAt (λ p q. (q.forwards ≡ p.forwards) × (q.origin ≡ Origin.Script s.side.hand.laying.number) × StaysNumbered p q × (q.answer ≡ p.answer)) place self.old.posts.items self.new.posts.items) place self.old.tour.stops.items self.new.tour.stops.items }
        ensures mails { mails_in self.new ≡ mails_in self.old }
        ensures works { (target : Target) → StepsAt (λ p q. LaysWork (Some (Coming.State target)) p q) place self.old.posts.items self.new.posts.items }
    {
        let number = self.tour.stops[place].side.hand.number();
        let post = &mut self.posts[place];
        post.next = Work::State;
        post.origin = Origin::Script(number);
    }

    // What comes is laid ready.
    fn lay_coming(&mut self, place: usize, coming: Coming)
        requires { place < vec_len self.old.posts }
        ensures posts { vec_len self.new.posts ≡ vec_len self.old.posts }
        ensures laid { StepsAt (λ s t. StopStays s t × IsLaid (Some coming) t.side.hand.laying.laid) place self.old.tour.stops.items self.new.tour.stops.items }
        ensures kept { TourKept self.old self.new × (All WaitsNone self.old.posts.items → All WaitsNone self.new.posts.items) }
        ensures oldest { StepsAt (λ s t. LaysOldest self.old.lan place (Some coming) t) place self.old.tour.stops.items self.new.tour.stops.items }
        ensures sure { WaitsFor self.old.lan place (Some coming) → StepsAt (λ s t. LaysPacket (Some coming) t.side.hand.laying.laid) place self.old.tour.stops.items self.new.tour.stops.items }
        ensures lan { self.new.lan ≡ self.old.lan }
        ensures list { self.new.list ≡ self.old.list }
        ensures origins { StepsAt (λ s t. StepsAt (λ p q. LaysFrom (Some coming) s.side.hand.laying.number p q) place self.old.posts.items self.new.posts.items) place self.old.tour.stops.items self.new.tour.stops.items }
        ensures mails { StepsAt (λ ks ls. ls ≡ waits_behind (Some coming) ks) place (mails_in self.old) (mails_in self.new) }
        ensures ready { StepsAt (λ s t. LaysMail (Some coming) t.side.out.len (waits_in (mails_in self.old) place) t.side.hand.laying) place self.old.tour.stops.items self.new.tour.stops.items }
        ensures works { StepsAt (λ p q. LaysWork (Some coming) p q) place self.old.posts.items self.new.posts.items }
    {
        match coming {
            Coming::Packet => self.lay_packet(place),
            Coming::Mail => self.lay_mail(place),
            Coming::Script => self.lay_script(place),
            Coming::State(_) => self.lay_state(place),
        }
    }

    // So is what may come into hand, if something may.
    pub(crate) fn lay(&mut self, place: usize, coming: Option<Coming>)
        requires { place < vec_len self.old.posts }
        ensures posts { vec_len self.new.posts ≡ vec_len self.old.posts }
        ensures laid { StepsAt (λ s t. StopStays s t × IsLaid coming t.side.hand.laying.laid) place self.old.tour.stops.items self.new.tour.stops.items }
        ensures kept { TourKept self.old self.new × (All WaitsNone self.old.posts.items → All WaitsNone self.new.posts.items) }
        ensures joins { JoinsKept self.old self.new }
        ensures oldest { StepsAt (λ s t. LaysOldest self.old.lan place coming t) place self.old.tour.stops.items self.new.tour.stops.items }
        ensures sure { WaitsFor self.old.lan place coming → StepsAt (λ s t. LaysPacket coming t.side.hand.laying.laid) place self.old.tour.stops.items self.new.tour.stops.items }
        ensures lan { self.new.lan ≡ self.old.lan }
        ensures list { self.new.list ≡ self.old.list }
        ensures origins { StepsAt (λ s t. StepsAt (λ p q. LaysFrom coming s.side.hand.laying.number p q) place self.old.posts.items self.new.posts.items) place self.old.tour.stops.items self.new.tour.stops.items }
        ensures mails { StepsAt (λ ks ls. ls ≡ waits_behind coming ks) place (mails_in self.old) (mails_in self.new) }
        ensures ready { StepsAt (λ s t. LaysMail coming t.side.out.len (waits_in (mails_in self.old) place) t.side.hand.laying) place self.old.tour.stops.items self.new.tour.stops.items }
        ensures works { StepsAt (λ p q. LaysWork coming p q) place self.old.posts.items self.new.posts.items }
    {
        match coming {
            None => {}
            Some(what) => self.lay_coming(place, what),
        }
    }
}
