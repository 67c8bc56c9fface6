ghost use Rattle.std.specs.Prelude.{◌≡◌, ◌≤◌, ◌<◌, ◌++◌, ◌∷◌, [], IfOk, vec_len};

use arrayvec::ArrayVec;
use ec_fields::NoMemory;
use mailbox_mail::{Mail, ReplyKind};
use std::alloc::Global;

/// Where a service comes from, and its number among those of its slave from there, counted from 0.
#[derive(Clone, Copy)]
pub enum Origin {
    /// The script.
    Script(u32),
    /// The switch: a packet that it forwarded to the slave's port.
    Forward(u32),
    /// The gateway: a mail that is passed on.
    Gateway(u32),
}

/// What happened in a step of the master, but for the switch.
#[derive(Drop)]
pub enum Event {
    /// A service came into hand.
    Began { slave: u32, origin: Origin },
    /// The service in hand has its answer.
    Answered { slave: u32, kind: ReplyKind },
    /// The slave sent an emergency.
    Emergency { slave: u32, octets: ArrayVec<u8, 8> },
    /// A mail that was passed on has a reply.
    GatewayReply { key: usize, mail: Mail },
    /// A mail that was passed on gets no further reply.
    GatewayDone { key: usize },
    /// The slave was given up, for good or not.
    GivenUp { slave: u32 },
    /// The slave was seen in Init: what its mailboxes and services were is gone. `own` says that a state service caused it.
    Cleared { slave: u32, own: bool },
    /// The slave is open.
    Opened { slave: u32 },
}

/// How many events a frame can bring, and one to spare: with every slave in it one a slave before it, and five a slave behind it.
const MOST: usize = 97;

/// The events of a frame: those of `next`, and behind them those of the return or the loss. Its memory is taken at `new`.
#[derive(Drop)]
pub struct EventList {
    rows: Vec<Event>,
    /// How many events there are.
    count: usize,
    /// How many of them are those of `next`.
    before: usize,
    /// From where on the events of the last step stand.
    first: usize,
    ghost rows_are: { vec_len rows ≡ 97 },
    ghost counted: { count ≤ 97 },
    ghost made_before: { before ≤ count },
    ghost made_first: { first ≤ count },
}

impl EventList {
    ghost use Rattle.std.specs.Prelude.{◌≡◌, ◌≤◌, ◌<◌, ◌+◌, ◌++◌, ◌∷◌, [], IfOk, take};
    ghost use Rattle.master_node.specs.Listed.{listed, listed_before, listed_last};

    /// No event. The memory for the events of a frame is taken here.
    pub fn new(alloc: Global) -> Result<EventList, NoMemory>
        ensures { IfOk result (λ l. listed l.rows.items l.count ≡ []) }
    {
        let mut rows = Vec::with_capacity(alloc, MOST)?;
        for _ in 0..MOST {
            rows.push(Event::GivenUp { slave: 0 })?;
        }
        Ok(EventList {
            rows,
            count: 0,
            before: 0,
            first: 0,
        })
    }

    /// The next frame begins: nothing has happened.
    pub fn clear(&mut self)
        ensures all { listed self.new.rows.items self.new.count ≡ [] }
        ensures last { listed_last self.new.rows.items self.new.first self.new.count ≡ [] }
        ensures none { self.new.count ≡ 0 }
        ensures before { listed_before self.new.rows.items self.new.first self.new.count ≡ [] }
    {
        self.count = 0;
        self.before = 0;
        self.first = 0;
    }

    /// The frame is made: what comes behind it are the events of its return or loss.
    pub fn made(&mut self)
        ensures before { self.new.before ≡ self.old.count }
        ensures all { listed self.new.rows.items self.new.count ≡ listed self.old.rows.items self.old.count }
        ensures last { listed_last self.new.rows.items self.new.first self.new.count ≡ listed_last self.old.rows.items self.old.first self.old.count }
        ensures rows { (self.new.rows ≡ self.old.rows) × (self.new.count ≡ self.old.count) × (self.new.first ≡ self.old.first) }
    {
        self.before = self.count;
    }

    /// The frame came back or was lost: only what happened before it stands.
    pub fn ends(&mut self)
        ensures all { listed self.new.rows.items self.new.count ≡ take self.old.before self.old.rows.items }
        ensures last { listed_last self.new.rows.items self.new.first self.new.count ≡ [] }
        ensures few { self.new.count ≡ self.old.before }
        ensures before { self.new.before ≡ self.old.before }
        ensures head { listed_before self.new.rows.items self.new.first self.new.count ≡ take self.old.before self.old.rows.items }
    {
        self.count = self.before;
        self.first = self.before;
    }

    /// One more event.
    pub fn put(&mut self, event: Event)
        ensures all { self.old.count < 97 → listed self.new.rows.items self.new.count ≡ listed self.old.rows.items self.old.count ++ event ∷ [] }
        ensures last { self.old.count < 97 → listed_last self.new.rows.items self.new.first self.new.count ≡ listed_last self.old.rows.items self.old.first self.old.count ++ event ∷ [] }
        ensures before { self.new.before ≡ self.old.before }
        ensures head { listed_before self.new.rows.items self.new.first self.new.count ≡ listed_before self.old.rows.items self.old.first self.old.count }
        ensures few { self.new.count ≤ self.old.count + 1 }
    {
        if self.count < self.rows.len() {
            self.rows[self.count] = event;
            self.count += 1;
        }
    }

    /// The events of the last step.
    pub fn last(&self) -> &[Event]
        ensures { result.now ≡ listed_last self.now.rows.items self.now.first self.now.count }
    {
        &self.all()[self.first..]
    }

    /// The events of the frame.
    pub fn all(&self) -> &[Event]
        ensures { result.now ≡ listed self.now.rows.items self.now.count }
    {
        &self.rows.as_slice()[..self.count]
    }
}
