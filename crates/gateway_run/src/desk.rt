ghost use Rattle.std.specs.Prelude.{◌≡◌, ◌<◌, ◌≤◌, ◌++◌, ◌↔◌, [], List, length, find, IfSome, IfNone, IfOk, OnOk, Contains, IsTrue, option_to_list, vec_len};
ghost use Rattle.std.specs.Option.{option_copied};
ghost use Rattle.gateway_core.specs.of_ec_outside.Port.{HeardGram};
ghost use Rattle.run_record.specs.of_master_node.declared.event.Event.TheVariants as events;
ghost use Rattle.gateway_run.specs.Events.{events_of};
ghost use Rattle.gateway_run.specs.Account.{has_key, is_of, others, elsewhere, begun_first, cut_off, replied, left_by, owed_by};
ghost use Rattle.gateway_run.specs.Heard.{IsJudged};
ghost use Rattle.gateway_run.specs.Desk.{HasNone, IsOpen, IsSound, HearsNow, HearsSoundly, StaysSound, AsksMails, SameLan, SameLive, StaysBusy, Tells, NotesAll, cut_one, Answers, PassesSoundly, PassesSo, IsTakenSo, Takes, TakesSoundly};

use ec_fields::{NoMemory, Octets};
use ec_outside::{Gram, Peer};
use gateway_core::{Asked, Gateway};
use mailbox_mail::{Mail, error_mail};
use master_node::{Event, Origin};
use run_book::{Book, GramIn, GramOut};
use run_record::Session;
use std::alloc::Global;
use std::collections::VecDeque;

/// The mailbox error of a slave that was given up before a mail came into its hand.
const NO_STATION: u16 = 5;

/// The mailbox error of a slave at which as many mails wait as may.
const NO_ROOM: u16 = 7;

/// The most requests that are unfinished at a time.
const MOST: usize = 64;

/// A request that was passed on and isn't finished.
#[derive(Clone, Copy)]
pub struct Request {
    /// Its key in the gateway.
    pub key: usize,
    /// The slave, in ring order.
    pub slave: u32,
    /// The number of its datagram among those heard.
    pub gram: u32,
    /// Its mail came into hand.
    pub begun: bool,
}

/// What a serving still owes its peers.
#[derive(Drop)]
pub struct Desk {
    pub gateway: Gateway,
    /// The requests that aren't finished, in the order in which they were heard.
    pub requests: Vec<Request>,
    /// The datagrams that are to be sent, in order.
    pub outbox: VecDeque<GramOut>,
}

// A number of rows; it stands still at its type's end.
fn count(rows: usize) -> u32
    ensures { rows < 4294967296 → result ≡ rows }
{
    if rows < u32::MAX as usize {
        rows as u32
    } else {
        u32::MAX
    }
}

// The request of a key.
fn with_key(requests: &[Request], key: usize) -> Option<&Request>
    ensures { option_copied result ≡ find (has_key key) requests.now }
{
    requests.iter().find(|request| request.key == key)
}

// The first request of a slave.
fn at_slave(requests: &[Request], slave: u32) -> Option<&Request>
    ensures { option_copied result ≡ find (is_of slave) requests.now }
{
    requests.iter().find(|request| request.slave == slave)
}

impl Desk {
    /// Nothing is owed.
    pub fn new(alloc: Global) -> Desk
        ensures requests { HasNone result }
        ensures outbox { result.outbox.items ≡ [] }
    {
        Desk {
            gateway: Gateway::new(alloc),
            requests: Vec::new(alloc),
            outbox: VecDeque::new(alloc),
        }
    }

    /// Whether no request is unfinished.
    pub fn is_empty(&self) -> bool
        ensures { IsTrue result ↔ (vec_len self.now.requests ≡ 0) }
    {
        self.requests.is_empty()
    }

    /// Whether as many requests are unfinished as may be.
    pub fn is_full(&self) -> bool
        ensures { IsTrue result ↔ (64 ≤ vec_len self.now.requests) }
    {
        self.requests.len() >= MOST
    }

    // A mail goes to who asked by a request.
    fn answer(&mut self, alloc: Global, request: Request, mail: &Mail) -> Result<(), NoMemory>
        ensures sound { OnOk result ((heard : List HeardGram) → IsOpen self.old.gateway heard request → IsSound heard self.old → IsSound heard self.new) }
        ensures owes { OnOk result (Answers request mail.now self.old self.new) }
        ensures gateway { self.new.gateway ≡ self.old.gateway }
        ensures requests { self.new.requests.items ≡ self.old.requests.items }
    {
        if !self.gateway.is_unfinished(request.key) {
            return Ok(());
        }
        let mut gram = Gram::new();
        let peer = self.gateway.reply(request.key, mail, &mut gram);
        let bytes = Octets::copy_of(alloc, gram.as_slice())?;
        self.outbox.push_back(GramOut {
            peer,
            bytes,
            gram: request.gram,
        })?;
        Ok(())
    }

    // The request of a key gets no further answer.
    fn finish(&mut self, key: usize)
        ensures sound { (heard : List HeardGram) → IsSound heard self.old → IsSound heard self.new }
        ensures requests { self.new.requests.items ≡ others key self.old.requests.items }
        ensures outbox { self.new.outbox.items ≡ self.old.outbox.items }
    {
        self.requests.retain(|request| request.key != key);
        if self.gateway.is_unfinished(key) {
            self.gateway.finish(key);
        }
    }

    // The request of a key.
    fn request(&self, key: usize) -> Option<Request>
        ensures inside { IfSome result (Contains self.now.requests.items) }
        ensures first { result ≡ find (has_key key) self.now.requests.items }
    {
        with_key(self.requests.as_slice(), key).copied()
    }

    // The first request of a slave that isn't finished.
    fn first_of(&self, slave: u32) -> Option<Request>
        ensures inside { IfSome result (Contains self.now.requests.items) }
        ensures first { result ≡ find (is_of slave) self.now.requests.items }
    {
        at_slave(self.requests.as_slice(), slave).copied()
    }

    // The oldest mail that waits for a slave came into hand.
    fn begin(&mut self, slave: u32)
        ensures sound { (heard : List HeardGram) → IsSound heard self.old → IsSound heard self.new }
        ensures requests { self.new.requests.items ≡ begun_first slave self.old.requests.items }
        ensures outbox { self.new.outbox.items ≡ self.old.outbox.items }
    {
        for at in 0..self.requests.len() {
            let request = self.requests[at];
            if request.slave == slave && !request.begun {
                self.requests[at].begun = true;
                return;
            }
        }
    }

    // A service came into hand.
    fn came(&mut self, slave: u32, origin: Origin)
        ensures { Tells (left_by (events.Began slave origin) self.old.requests.items) [] self.old self.new }
    {
        match origin {
            Origin::Gateway(_) => self.begin(slave),
            Origin::Script(_) | Origin::Forward(_) => {}
        }
    }

    // A request of a slave that was given up gets no further answer, but for an error where its mail waited.
    fn drop_one(&mut self, alloc: Global, request: Request) -> Result<(), NoMemory>
        requires { Contains self.old.requests.items request }
        ensures told { OnOk result (Tells (others request.key self.old.requests.items) (cut_one request) self.old self.new) }
        ensures requests { OnOk result (self.new.requests.items ≡ others request.key self.old.requests.items) }
    {
        if !request.begun {
            self.answer(alloc, request, &error_mail(NO_STATION))?;
        }
        self.finish(request.key);
        Ok(())
    }

    // A slave was given up: a mail that waited for it is answered by an error, and no request of it gets a further answer.
    fn give_up(&mut self, alloc: Global, slave: u32) -> Result<(), NoMemory>
        ensures { OnOk result (Tells (elsewhere slave self.old.requests.items) (cut_off slave self.old.requests.items) self.old self.new) }
    {
        while let Some(request) = self.first_of(slave) {
            self.drop_one(alloc, request)?;
        }
        Ok(())
    }

    // A request has a reply.
    fn replied(&mut self, alloc: Global, key: usize, mail: &Mail) -> Result<(), NoMemory>
        ensures { OnOk result (Tells self.old.requests.items (replied mail.now key self.old.requests.items) self.old self.new) }
    {
        match self.request(key) {
            Some(request) => self.answer(alloc, request, mail),
            None => Ok(()),
        }
    }

    // Something happened in a step.
    fn note(&mut self, alloc: Global, event: &Event) -> Result<(), NoMemory>
        ensures { OnOk result (Tells (left_by event.now self.old.requests.items) (owed_by event.now self.old.requests.items) self.old self.new) }
    {
        match event {
            Event::Began { slave, origin } => {
                self.came(*slave, *origin);
                Ok(())
            }
            Event::GatewayReply { key, mail } => self.replied(alloc, *key, mail),
            Event::GatewayDone { key } => {
                self.finish(*key);
                Ok(())
            }
            Event::GivenUp { slave } => self.give_up(alloc, *slave),
            Event::Emergency { .. } => Ok(()),
            Event::Answered { .. } | Event::Cleared { .. } | Event::Opened { .. } => Ok(()),
        }
    }

    /// What happened in the last step of a session is told to who asked.
    pub fn note_all(&mut self, alloc: Global, session: &Session) -> Result<(), NoMemory>
        ensures { OnOk result (NotesAll (events_of session.now.master) self.old self.new) }
    {
        for event in session.events() {
            self.note(alloc, event)?;
        }
        Ok(())
    }

    // A mail is passed on; the number of its slave, or none where it was answered by an error.
    fn pass_on(
        &mut self,
        alloc: Global,
        session: &mut Session,
        request: Request,
        mail: &Mail,
    ) -> Result<Option<u32>, NoMemory>
        requires { request.slave < length session.old.ring.nodes }
        ensures sound { OnOk result (PassesSoundly request self.old self.new) }
        ensures passes { IfOk result (PassesSo session.old session.new request mail.now self.old self.new) }
        ensures slave { IfOk result (λ queued. IfSome queued (λ slave. slave ≡ request.slave)) }
        ensures session { AsksMails session.old session.new }
        ensures live { SameLive session.old session.new }
        ensures switch { SameLan session.old session.new }
        ensures busy { StaysBusy session.old session.new }
    {
        self.requests.push(request)?;
        if session.ask(alloc, request.slave, request.key, mail)? {
            return Ok(Some(request.slave));
        }
        self.answer(alloc, request, &error_mail(NO_ROOM))?;
        self.finish(request.key);
        Ok(None)
    }

    // What becomes of a datagram: the slave to which its mail was passed on.
    fn judge(
        &mut self,
        alloc: Global,
        session: &mut Session,
        peer: Peer,
        bytes: &[u8],
        gram: u32,
    ) -> Result<Option<u32>, NoMemory>
        ensures sound { OnOk result (HearsSoundly peer bytes.now gram self.old self.new) }
        ensures taken { IfOk result (IsTakenSo session.old session.new peer bytes.now gram self.old self.new) }
        ensures judged { IfOk result (IsJudged session.old.homes bytes.now) }
        ensures session { AsksMails session.old session.new }
        ensures live { SameLive session.old session.new }
        ensures switch { SameLan session.old session.new }
        ensures busy { StaysBusy session.old session.new }
    {
        match self.gateway.request(peer, bytes, session.stations())? {
            Asked::Ignored => Ok(None),
            Asked::Error(error) => {
                let bytes = Octets::copy_of(alloc, error.as_slice())?;
                self.outbox.push_back(GramOut { peer, bytes, gram })?;
                Ok(None)
            }
            Asked::Queued { key, slave, mail } => {
                let request = Request {
                    key,
                    slave,
                    gram,
                    begun: false,
                };
                self.pass_on(alloc, session, request, &mail)
            }
        }
    }

    /// A datagram was heard. It stands in the book, and its mail is passed on, or it is answered by an error, or ignored.
    pub fn take(
        &mut self,
        alloc: Global,
        session: &mut Session,
        peer: Peer,
        bytes: &[u8],
        book: &mut Book,
    ) -> Result<(), NoMemory>
        ensures heard { OnOk result (Takes session.old.homes peer bytes.now book.old book.new) }
        ensures sound { OnOk result (StaysSound self.old self.new book.old book.new) }
        ensures taken { OnOk result (TakesSoundly session.old session.new self.old self.new book.old book.new) }
        ensures now { OnOk result (HearsNow book.old book.new) }
        ensures book { book.new ≡ record book.old { grams = book.new.grams } }
        ensures session { AsksMails session.old session.new }
        ensures live { SameLive session.old session.new }
        ensures switch { SameLan session.old session.new }
        ensures busy { StaysBusy session.old session.new }
    {
        let gram = count(book.grams.len());
        let frame = count(book.frames.len());
        let octets = Octets::copy_of(alloc, bytes)?;
        let queued = self.judge(alloc, session, peer, bytes, gram)?;
        book.grams.add(GramIn {
            peer,
            bytes: octets,
            queued,
            frame,
        })?;
        Ok(())
    }

    /// The next datagram that is to be sent.
    pub fn next_out(&mut self) -> Option<GramOut>
        ensures first { self.old.outbox.items ≡ option_to_list result ++ self.new.outbox.items }
        ensures none { IfNone result (self.new.outbox.items ≡ []) }
        ensures gateway { self.new.gateway ≡ self.old.gateway }
        ensures requests { self.new.requests.items ≡ self.old.requests.items }
    {
        self.outbox.pop_front()
    }
}
