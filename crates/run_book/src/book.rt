ghost use Rattle.run_book.specs.Book.{IsNew};

use ec_fields::{Octets, Rows};
use ec_outside::Peer;
use eoe_switch::SwitchEvent;
use mailbox_mail::ReplyKind;
use master_node::Origin;
use segment_ring::Fate;
use slave_node::SlaveNode;
use slave_server::SlaveServer;
use std::alloc::Global;

/// What a service came to, and the value that it brought.
#[derive(Drop)]
pub struct Reply {
    pub kind: ReplyKind,
    pub value: Octets,
}

/// What became of a service.
#[derive(Drop)]
pub enum Answer {
    /// It was answered; `frame` is the returned frame that completed the reply.
    Replied { reply: Reply, frame: u32 },
    /// It was in hand where its slave was given up or the run ended, and isn't answered.
    InDoubt,
    /// It never came into hand.
    NotSent,
}

/// A frame that was sent, its fate, and what returned; nothing of a lost one.
#[derive(Drop)]
pub struct SentFrame {
    pub sent: Octets,
    pub fate: Fate,
    pub back: Octets,
}

/// A service that came into hand, and how many frames had been sent then.
#[derive(Clone, Copy)]
pub struct Begun {
    pub origin: Origin,
    pub frame: u32,
}

/// The time of a slave between two returns to Init that were seen.
#[derive(Clone, Copy)]
pub struct Epoch {
    /// How many services had come into hand before.
    pub row: u32,
    /// The frame whose return showed Init; none for the first epoch.
    pub cleared: Option<u32>,
    /// The frame whose return showed the state that was opened.
    pub opened: Option<u32>,
    /// How many emergencies had been received from the slave before.
    pub emergencies: u32,
    /// How many packets had been received from the slave before.
    pub packets: u32,
}

/// An emergency that was received.
#[derive(Drop)]
pub struct Emergency {
    /// Its 8 octets.
    pub octets: Octets,
    /// The frame whose return brought it.
    pub frame: u32,
}

/// What became of one slave and its services.
#[derive(Drop)]
pub struct SlaveBook {
    /// The slave at the end.
    pub node: SlaveNode<SlaveServer>,
    /// The services that came into hand, in order.
    pub begun: Rows<Begun>,
    /// Their answers in the same order, and those of the scripted services that never came into hand.
    pub answers: Rows<Answer>,
    /// The emergencies received from the slave, in order.
    pub emergencies: Rows<Emergency>,
    /// Its epochs, in order.
    pub epochs: Rows<Epoch>,
    /// The frames at which it was given up, in order.
    pub gave: Rows<u32>,
    /// The frame at which it was given up for good.
    pub given_up: Option<u32>,
}

/// A datagram that a serving heard.
#[derive(Drop)]
pub struct GramIn {
    /// From whom it came.
    pub peer: Peer,
    /// Its octets.
    pub bytes: Octets,
    /// The slave to which its mail was passed on, in ring order; none where it was ignored or answered by an error.
    pub queued: Option<u32>,
    /// How many frames had been sent when it was heard.
    pub frame: u32,
}

/// A datagram that a serving sent.
#[derive(Drop)]
pub struct GramOut {
    /// To whom it went.
    pub peer: Peer,
    /// Its octets.
    pub bytes: Octets,
    /// The number of the heard datagram that it answers, counted from 0.
    pub gram: u32,
}

/// How a run ended.
#[derive(Clone, Copy)]
pub enum Ending {
    /// It didn't end yet.
    Unfinished,
    /// Nothing was left to do, and no slave was given up.
    Done,
    /// Nothing was left to do, and a slave was given up.
    GivenUp,
    /// As many frames were sent as the budget allows.
    BudgetSpent,
    /// The port failed.
    PortFault,
    /// Want of memory.
    NoMemory,
}

/// The record of a run.
#[derive(Drop)]
pub struct Book {
    /// The frames, in the order of sending.
    pub frames: Rows<SentFrame>,
    /// The slaves in ring order.
    pub slaves: Rows<SlaveBook>,
    /// What happened at the switch, in order.
    pub switch: Rows<SwitchEvent>,
    /// How many frames had been sent when each of these events came.
    pub switched: Rows<u32>,
    /// The packets that the host received, in order.
    pub host: Rows<Octets>,
    /// The datagrams that were heard, in order.
    pub grams: Rows<GramIn>,
    /// The datagrams that were sent, in order.
    pub replies: Rows<GramOut>,
    /// Whether requests were served.
    pub serving: bool,
    /// How the run ended.
    pub ending: Ending,
}

impl Book {
    /// A new book, in which nothing stands yet.
    pub fn new(alloc: Global) -> Book
        ensures { IsNew result }
    {
        Book {
            frames: Rows::new(alloc),
            slaves: Rows::new(alloc),
            switch: Rows::new(alloc),
            switched: Rows::new(alloc),
            host: Rows::new(alloc),
            grams: Rows::new(alloc),
            replies: Rows::new(alloc),
            serving: false,
            ending: Ending::Unfinished,
        }
    }
}
