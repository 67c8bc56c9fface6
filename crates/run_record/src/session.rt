ghost use Rattle.std.specs.Prelude.{◌≡◌, ◌≢◌, ◌<◌, ◌≤◌, ◌==◌, ◌++◌, ◌∷◌, ◌⊎◌, ◌↔◌, [], ℕ, vec_len, length, map, take, Ok, Some, IfOk, OnOk, OnErr, All, true, false, slice_get};
ghost use Rattle.std.specs.Bool.{OnTrue, OnFalse};
ghost use Rattle.std.specs.List.{list_any};
ghost use Rattle.run_notes.specs.Notes.{has_given_up, stations_of};
ghost use Rattle.packets_heard.specs.of_segment_plan.Sound.{IsPlan, IsLaid, IsSlave};
ghost use Rattle.packets_heard.specs.of_slave_server.Spec.{node_of};
ghost use Rattle.run_notes.specs.of_run_book.declared.book.SentFrame.{SentFrame as Recorded};
ghost use Rattle.run_notes.specs.of_run_book.declared.book.Ending.TheVariants as endings;
ghost use Rattle.packets_heard.specs.of_master_node.Happened.{HasHappened, HappensSo};
ghost use Rattle.packets_heard.specs.of_master_node.Listed.{listed};
ghost use Rattle.packets_heard.specs.of_master_node.Listing.{events_in};
ghost use Rattle.packets_heard.specs.of_master_node.Origins.{forwards_at};
ghost use Rattle.run_notes.specs.of_run_book.Ports.{ports_of};
ghost use Rattle.run_notes.specs.Switched.{SameSwitch};
ghost use Rattle.run_record.specs.Replay.{first_ring};
ghost use Rattle.run_record.specs.Served.{ListsBehind, ServingAsks, ServingBegins, ServingGoesOn, ServingLives, ServingRests, TellsBehind};
ghost use Rattle.run_record.specs.Telling.{BringsBack, LivesGoOn, PacketsComeIn, PacketsJoin, PortsGoDown, RecallsBack, RecallsLost, TourGoesOn};
ghost use Rattle.run_record.specs.Session.{budget_of, smaller_bound, rests_at, session_rows, first_session, are_at_rest, some_given_up, has_live, FrameEvents, IsDone, Steps, Stops, SwitchGrows, Asks};
ghost use Rattle.run_notes.specs.Slaves.{slave_row, slave_rows, KeepsRest};

use datagrams::FrameBuf;
use ec_fields::{NoMemory, Octets, Rows};
use mailbox_mail::Mail;
use master_node::{Event, MasterNode};
use run_book::{Book, Ending, SentFrame, SlaveBook};
use run_notes::{AskedMail, Log, Moment, Notes};
use segment_plan::{Scenario, SlaveSpec, bound};
use segment_ring::{Fate, Ring, Wire};
use slave_node::SlaveNode;
use slave_server::{SlaveServer, node_of};
use std::alloc::Global;
use std::marker::Model;

/// The most frames that a run may send.
const MOST_FRAMES: u64 = 100_000_000;

/// A run that is made frame by frame: a master, and the ring of its slaves.
#[derive(Drop)]
pub struct Session {
    master: MasterNode,
    ring: Ring<SlaveNode<SlaveServer>>,
    log: Log,
    budget: u32,
    /// How many frames were sent.
    number: u32,
    serving: bool,
    sent: FrameBuf,
    back: FrameBuf,
}

impl Model for Session {
    ghost use Rattle.std.specs.Prelude.{◌≡◌, ◌≤◌, ◌+◌, length, map, vec_len};
    ghost use Rattle.packets_heard.specs.of_master_node.Lives.{waiting_of};
    ghost use Rattle.run_record.specs.Session.{SessionState};

    ghost Value = { SessionState };

    ghost view = { λ s. record { ring = s.ring; notes = s.log.notes; homes = s.log.homes; asked = s.log.asked; waiting = map waiting_of s.master.posts.items; master = s.master; ports = 1 + length s.log.ports; at_ports = s.log.ports; recover = s.log.recover; budget = s.budget; serving = s.serving } };

    ghost invariant = { λ s. (s.number ≡ s.ring.number) × (s.number ≤ s.budget) × (s.budget ≤ 100000000) × (length s.log.notes ≡ length s.ring.nodes) × (length s.ring.nodes ≤ 16) × (length s.log.homes ≡ length s.ring.nodes) × (length s.log.asked ≡ length s.ring.nodes) × (vec_len s.master.posts ≡ length s.ring.nodes) };
}

// The most frames that a run of the plan sends, or a serving of it that hears so many datagrams.
fn budget_of(plan: &Scenario, grams: u32) -> u32
    requires { IsLaid plan.now }
    ensures value { result ≡ budget_of plan.now grams }
    ensures most { result ≤ 100000000 }
{
    match plan.budget {
        Some(frames) => frames,
        None => smaller(bound(plan, grams)),
    }
}

// So many frames, or the most that a run may send.
fn smaller(frames: u64) -> u32
    ensures value { result ≡ smaller_bound frames }
    ensures most { result ≤ 100000000 }
{
    if frames < MOST_FRAMES {
        frames as u32
    } else {
        MOST_FRAMES as u32
    }
}

fn copy_of<T: Copy + Drop>(alloc: Global, rows: &[T]) -> Result<Rows<T>, NoMemory>
    ensures { IfOk result (λ copy. copy ≡ rows.now) }
{
    let mut copy = Rows::new(alloc);
    for row in rows {
        copy.add(*row)?;
    }
    Ok(copy)
}

// Slaves as they are switched on.
fn new_nodes(alloc: Global, slaves: &[SlaveSpec]) -> Result<Rows<SlaveNode<SlaveServer>>, NoMemory>
    requires { All IsSlave slaves.now }
    ensures { IfOk result (λ nodes. nodes ≡ map node_of slaves.now) }
{
    let mut nodes = Rows::new(alloc);
    for spec in slaves {
        nodes.add(node_of(alloc, spec)?)?;
    }
    Ok(nodes)
}

fn new_ring(alloc: Global, plan: &Scenario) -> Result<Ring<SlaveNode<SlaveServer>>, NoMemory>
    requires { IsPlan plan.now }
    ensures { IfOk result (λ ring. ring ≡ first_ring plan.now) }
{
    let nodes = new_nodes(alloc, plan.slaves.as_slice())?;
    let paces = copy_of(alloc, plan.paces.as_slice())?;
    let lose = copy_of(alloc, plan.lose.as_slice())?;
    Ok(Ring::new(nodes, paces, lose))
}

// Whether one of the slaves was given up, for good or not.
fn some_given_up(notes: &[Notes]) -> bool
    ensures { result ≡ list_any has_given_up notes.now }
{
    notes.iter().any(|notes| notes.has_given_up())
}

// The row of a slave at the end of a run.
fn slave_book(
    node: SlaveNode<SlaveServer>,
    notes: Notes,
    recover: u32,
) -> Result<SlaveBook, NoMemory>
    ensures { IfOk result (λ row. row ≡ slave_row recover node notes) }
{
    let mut notes = notes;
    notes.end()?;
    let given_up = notes.given_up_for_good(recover);
    let Notes {
        begun,
        answers,
        emergencies,
        epochs,
        gave,
        ..
    } = notes;
    Ok(SlaveBook {
        node,
        begun,
        answers,
        emergencies,
        epochs,
        gave,
        given_up,
    })
}

// Appends a row for each slave, in ring order.
fn put_slaves(
    nodes: Rows<SlaveNode<SlaveServer>>,
    notes: Rows<Notes>,
    recover: u32,
    into: &mut Rows<SlaveBook>,
) -> Result<(), NoMemory>
    requires { length notes ≡ length nodes }
    ensures { OnOk result (into.new ≡ into.old ++ slave_rows recover nodes notes) }
{
    let mut nodes = nodes;
    let mut notes = notes;
    let Some(node) = nodes.pop() else {
        return Ok(());
    };
    let Some(last) = notes.pop() else {
        return Ok(());
    };
    put_slaves(nodes, notes, recover, into)?;
    into.add(slave_book(node, last, recover)?)
}

// A frame as it was sent, its fate and what came back stand in the book.
fn put_frame(
    alloc: Global,
    sent: &FrameBuf,
    fate: Fate,
    back: &FrameBuf,
    book: &mut Book,
) -> Result<(), NoMemory>
    ensures ok { OnOk result (book.new.frames ≡ book.old.frames ++ record { sent = sent.now.items; fate = fate; back = back.now.items } ∷ []) }
    ensures err { OnErr result (book.new.frames ≡ book.old.frames) }
    ensures sent_fits { length sent.now.items ≤ 1514 }
    ensures back_fits { length back.now.items ≤ 1514 }
    ensures rest { (ports : ℕ) → KeepsRest ports book.old book.new }
    ensures switch { SameSwitch book.old book.new }
{
    let (sent, back) = (sent.as_slice(), back.as_slice());
    let sent = Octets::copy_of(alloc, sent)?;
    let back = Octets::copy_of(alloc, back)?;
    book.frames.add(SentFrame { sent, fate, back })
}

// The master gets its frame back, or learns that it is lost: it goes on leading its slaves.
fn tell(master: &mut MasterNode, fate: Fate, back: &FrameBuf)
    ensures posts { vec_len master.new.posts ≡ vec_len master.old.posts }
    ensures toured { TourGoesOn fate master.old master.new }
    ensures brought { BringsBack fate back.now.items master.old master.new }
    ensures remembers { RecallsBack fate back.now.items master.old master.new }
    ensures stays { RecallsLost fate master.old master.new }
    ensures happened { HappensSo master.old.lan master.new.lan }
    ensures arrivals { PacketsComeIn fate back.now.items master.old master.new }
    ensures joins { PacketsJoin fate back.now.items master.old master.new }
    ensures leaves { PortsGoDown fate master.old master.new }
    ensures counts { (k : ℕ) → forwards_at master.new.posts.items k ≡ forwards_at master.old.posts.items k }
    ensures served { LivesGoOn fate back.now.items master.old master.new }
    ensures told { master.old.list.before ≤ 16 → TellsBehind fate back.now.items master.old master.new }
    ensures lists { master.old.list.before ≤ 16 → ListsBehind fate back.now.items master.old master.new }
    ensures whole { listed master.new.list.rows.items master.new.list.count ≡ take master.old.list.before master.old.list.rows.items ++ events_in master.new }
{
    match fate {
        Fate::Pass => master.returned(back),
        Fate::Lost { .. } => master.lost(),
    }
}

impl Session {
    /// A run of the plan before its first frame, or a serving of it that hears so many datagrams.
    pub fn begin(alloc: Global, plan: &Scenario, grams: u32) -> Result<Session, NoMemory>
        requires { IsPlan plan.now }
        ensures session { IfOk result (λ session. session ≡ first_session plan.now grams session.master) }
        ensures switch { IfOk result (λ session. HasHappened (ports_of plan.now.slaves) plan.now.host [] session.master.lan) }
        ensures serves { IfOk result (ServingBegins plan.now) }
    {
        Ok(Session {
            master: MasterNode::new(alloc, plan)?,
            ring: new_ring(alloc, plan)?,
            log: Log::new(alloc, plan)?,
            budget: budget_of(plan, grams),
            number: 0,
            serving: grams > 0,
            sent: FrameBuf::new(),
            back: FrameBuf::new(),
        })
    }

    /// Whether nothing is left to do, for the master and at each live slave. Where a serving is led and something is, some slave is live; where nothing is, no
    /// service and no packet is left of a slave, and no mail that was passed on to it, unless that was given up for good.
    pub fn settled(&self) -> bool
        ensures rest { OnTrue result (are_at_rest (session_rows self.now) ≡ true) }
        ensures lives { OnFalse result (ServingLives self.now) }
        ensures done { OnFalse result (IsDone self.now → ⊥) }
        ensures served { OnTrue result (ServingRests self.now) }
    {
        if self.master.wants() {
            return false;
        }
        self.are_at_rest()
    }

    // Whether each live slave has nothing left to do.
    fn are_at_rest(&self) -> bool
        ensures { result ≡ are_at_rest (session_rows self.now) }
    {
        for (at, notes) in self.log.notes.as_slice().iter().enumerate() {
            if !self.is_at_rest(at as u32, notes) {
                return false;
            }
        }
        true
    }

    // Whether the slave at a place is given up for good or has nothing left to do.
    fn is_at_rest(&self, at: u32, notes: &Notes) -> bool
        ensures { result ≡ rests_at self.now.recover (slice_get self.now.ring.nodes at) notes.now }
    {
        match self.ring.node(at) {
            Some(node) => { notes.given_up_for_good(self.log.recover).is_some() || node.settled() }
            None => true,
        }
    }

    /// Whether as many frames were sent as the budget allows.
    pub fn spent(&self) -> bool
        ensures value { result ≡ (self.now.ring.number == self.now.budget) }
        ensures left { OnFalse result (self.now.ring.number < self.now.budget) }
    {
        self.number == self.budget
    }

    /// Whether a slave was given up, for good or not.
    pub fn gave_up(&self) -> bool
        ensures { result ≡ some_given_up (session_rows self.now) }
    {
        // A field is named so that the proof has what holds of the fields.
        let _ = &self.number;
        some_given_up(self.log.notes.as_slice())
    }

    /// The station of each slave and the length of its mailbox, while it is live: it was not given up for good.
    pub fn stations(&self) -> &[Option<(u16, u16)>]
        ensures value { result.now ≡ stations_of self.now.recover self.now.homes self.now.notes }
        ensures many { length result.now ≡ length self.now.ring.nodes }
        ensures few { length result.now ≤ 16 }
    {
        // A field is named so that the proof has what holds of the fields.
        let _ = &self.number;
        self.log.stations.as_slice()
    }

    /// A mail is passed on to a slave, behind those before; `key` names its asker. `false` comes exactly where 64 mails wait for that slave,
    /// and then nothing changed, as after `NoMemory`. So it is in the lives of a serving, where the mail fits the slave's mailbox.
    pub fn ask(
        &mut self,
        alloc: Global,
        slave: u32,
        key: usize,
        mail: &Mail,
    ) -> Result<bool, NoMemory>
        requires { slave < length self.old.ring.nodes }
        ensures asked { IfOk result (Asks slave key mail.now self.old self.new) }
        ensures full { OnOk result ((result ≡ Ok false) ↔ (slice_get self.old.waiting slave ≡ Some 64)) }
        ensures serves { IfOk result (ServingAsks slave key mail.now self.old self.new) }
        ensures live { has_live self.new.master ≡ has_live self.old.master }
        ensures switch { self.new.master.lan ≡ self.old.master.lan }
        ensures done { IfOk result (λ asked. IsDone self.new → IsDone self.old) }
        ensures err { OnErr result (self.new ≡ self.old) }
    {
        let body = Octets::copy_of(alloc, mail.body.as_slice())?;
        let kind = mail.kind;
        let asked = self.log.asked.at_mut(slave as usize);
        asked.add(AskedMail { key, kind, body })?;
        if self.master.ask(slave, key, mail) {
            return Ok(true);
        }
        let _ = self.log.asked.at_mut(slave as usize).pop();
        Ok(false)
    }

    /// Sends one frame, behind which the processors of the slaves make their steps. The frame and what happened stand in the book. Who asked gets to know of it just
    /// what the lives of a serving tell: which mails came into hand, their replies, that no more follow, and which slaves were given up.
    pub fn step(&mut self, alloc: Global, book: &mut Book) -> Result<(), NoMemory>
        requires { self.old.ring.number < self.old.budget }
        ensures ok { OnOk result ((f : Recorded) × Steps self.old book.old self.new book.new f × ((happened : FrameEvents) × SwitchGrows self.old book.old happened book.new × ServingGoesOn self.old self.new happened f)) }
        ensures err { OnErr result (Stops self.old book.old book.new) }
    {
        let frame = self.number;
        self.master.next(&mut self.sent);
        let before = Moment { frame, sent: frame };
        self.log.note_before(alloc, &self.master, before, book)?;
        let fate = self.ring.exchange(&self.sent, &mut self.back);
        self.number += 1;
        put_frame(alloc, &self.sent, fate, &self.back, book)?;
        tell(&mut self.master, fate, &self.back);
        let behind = Moment {
            frame,
            sent: frame + 1,
        };
        self.log
            .note_behind(alloc, &self.master, behind, fate, book)
    }

    /// What happened in the last step.
    pub fn events(&self) -> &[Event]
        ensures { result.now ≡ listed self.now.master.list.rows.items self.now.master.list.count }
    {
        self.master.step_events()
    }

    /// Ends the run: a row of each slave and the ending stand in the book. It answers that ending, or `NoMemory`.
    pub fn finish(self, ending: Ending, book: &mut Book) -> Ending
        requires { book.old.slaves ≡ [] }
        ensures ending { book.new.ending ≡ result }
        ensures frames { book.new.frames ≡ book.old.frames }
        ensures switch { book.new.switch ≡ book.old.switch }
        ensures grams { book.new.grams ≡ book.old.grams }
        ensures replies { book.new.replies ≡ book.old.replies }
        ensures serving { book.new.serving ≡ self.serving }
        ensures answers { (result ≡ ending) ⊎ (result ≡ endings.NoMemory) }
        ensures rows { result ≢ endings.NoMemory → book.new.slaves ≡ session_rows self }
        ensures many { length self.notes ≡ length self.ring.nodes }
        ensures same { SameSwitch book.old book.new }
    {
        let Session {
            ring,
            log,
            serving,
            ..
        } = self;
        let put = put_slaves(ring.into_nodes(), log.notes, log.recover, &mut book.slaves);
        book.serving = serving;
        book.ending = match put {
            Ok(()) => ending,
            Err(NoMemory) => Ending::NoMemory,
        };
        book.ending
    }
}
