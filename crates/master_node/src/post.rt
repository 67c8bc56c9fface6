ghost use Rattle.std.specs.Prelude.{◌≡◌, ◌↔◌, [], false, length, IfOk, slice_get, drop, None};

use crate::event::Origin;
use circular_buffer::HeapCircularBuffer;
use ec_fields::{NoMemory, buffer_of};
use mailbox_mail::{Mail, ReplyKind};
use std::alloc::Global;

/// How many mails that are passed on may wait for a slave.
const WAITING: usize = 64;

/// What a slave has in hand that has no answer yet.
#[derive(Clone, Copy)]
pub enum Work {
    /// Nothing.
    Nothing,
    /// A scripted service by mails.
    Mails,
    /// A change of its AL state.
    State,
    /// A packet from the switch.
    Packet,
    /// A mail that is passed on, with the key of its asker.
    Passed { key: usize },
}

/// A mail that waits to be passed on, and the key of its asker.
#[derive(Drop)]
pub struct Asked {
    pub key: usize,
    pub mail: Mail,
}

/// What the master has of a slave beside its place in the tour.
#[derive(Drop)]
pub struct Post {
    /// What it has in hand.
    pub work: Work,
    /// What was laid ready to come into hand, and where it comes from.
    pub next: Work,
    pub origin: Origin,
    /// The last answer, until the next service comes into hand or the slave is given up.
    pub answer: Option<ReplyKind>,
    /// How many packets of its port came into hand.
    pub forwards: u32,
    /// The mails that wait to be passed on, the oldest first.
    mails: HeapCircularBuffer<Asked>,
    /// The number of the oldest of them among all that were asked.
    oldest: u32,
    ghost room: { mails.capacity ≡ 64 },
}

/// A mail of its own, without address and counter, as on the segment.
pub fn bare(mail: &Mail) -> Mail
    ensures local { (result.address ≡ 0) × (result.counter ≡ 0) }
    ensures same { (result.kind ≡ mail.now.kind) × (result.body.items ≡ mail.now.body.items) }
{
    Mail {
        address: 0,
        kind: mail.kind,
        counter: 0,
        body: buffer_of(mail.body.as_slice()),
    }
}

impl Post {
    ghost use Rattle.std.specs.Prelude.{◌≡◌, ◌<◌, List, [], length};
    ghost use Rattle.master_node.specs.Appends.{AppendsMail};
    ghost use Rattle.master_node.specs.Numbered.{StaysNumbered};
    ghost use Rattle.master_node.specs.Origins.{counted_by};

    /// Nothing is in hand and no mail waits. The memory for 64 mails is taken here.
    pub fn new(alloc: Global) -> Result<Post, NoMemory>
        ensures { IfOk result (λ p. (p.mails.items ≡ []) × (p.work ≡ Work.Nothing) × (p.forwards ≡ 0) × (p.oldest ≡ 0) × (p.answer ≡ None)) }
    {
        let mails = HeapCircularBuffer::with_capacity(alloc, WAITING)?;
        Ok(Post {
            work: Work::Nothing,
            next: Work::Nothing,
            origin: Origin::Script(0),
            answer: None,
            forwards: 0,
            mails,
            oldest: 0,
        })
    }

    /// Whether a mail waits.
    pub fn has_mail(&self) -> bool
        ensures { (result ≡ false) ↔ (self.now.mails.items ≡ []) }
    {
        !self.mails.is_empty()
    }

    /// One more mail waits; `false` exactly where 64 do, and then nothing changed.
    pub fn ask(&mut self, key: usize, mail: &Mail) -> bool
        ensures full { (result ≡ false) ↔ (length self.old.mails.items ≡ 64) }
        ensures same { result ≡ false → self.new ≡ self.old }
        ensures appends { length self.old.mails.items < 64 → AppendsMail key mail.now self.old.mails.items self.new.mails.items }
        ensures empty { self.new.mails.items ≡ [] → self.old.mails.items ≡ [] }
        ensures work { self.new.work ≡ self.old.work }
        ensures oldest { self.new.oldest ≡ self.old.oldest }
        ensures forwards { self.new.forwards ≡ self.old.forwards }
        ensures answer { self.new.answer ≡ self.old.answer }
    {
        if self.mails.is_full() {
            return false;
        }
        let asked = Asked {
            key,
            mail: bare(mail),
        };
        let _room = self.mails.try_push_back(asked);
        true
    }

    /// The number of the oldest mail that waits.
    pub fn oldest(&self) -> u32
        ensures { result ≡ self.now.oldest }
    {
        self.oldest
    }

    /// The oldest mail that waits comes into hand.
    pub fn take(&mut self) -> Option<Asked>
        ensures oldest { result ≡ slice_get self.old.mails.items 0 }
        ensures mails { self.new.mails.items ≡ drop 1 self.old.mails.items }
        ensures work { self.new.work ≡ self.old.work }
        ensures forwards { self.new.forwards ≡ self.old.forwards }
        ensures origin { self.new.origin ≡ self.old.origin }
        ensures answer { self.new.answer ≡ self.old.answer }
        ensures numbered { StaysNumbered self.old self.new }
    {
        let asked = self.mails.pop_front()?;
        self.oldest = self.oldest.wrapping_add(1);
        Some(asked)
    }

    /// What was laid ready came into hand. Tells where it comes from.
    pub fn begin(&mut self) -> Origin
        ensures origin { result ≡ self.old.origin }
        ensures forwards { self.new.forwards ≡ counted_by self.old.origin self.old.forwards }
        ensures mails { self.new.mails ≡ self.old.mails }
        ensures work { self.new.work ≡ self.old.next }
        ensures oldest { self.new.oldest ≡ self.old.oldest }
        ensures answer { self.new.answer ≡ None }
    {
        self.work = self.next;
        self.answer = None;
        match self.origin {
            Origin::Forward(number) => self.forwards = number.wrapping_add(1),
            Origin::Script(_) | Origin::Gateway(_) => {}
        }
        self.origin
    }

    /// The slave is given up: what it has in hand and the mails that wait are dropped.
    pub fn drop_all(&mut self)
        ensures mails { self.new.mails.items ≡ [] }
        ensures work { self.new.work ≡ Work.Nothing }
        ensures answer { self.new.answer ≡ None }
        ensures forwards { self.new.forwards ≡ self.old.forwards }
        ensures numbered { StaysNumbered self.old self.new }
    {
        self.oldest = self.oldest.wrapping_add(self.mails.len() as u32);
        self.mails.clear();
        self.work = Work::Nothing;
        self.answer = None;
    }
}
