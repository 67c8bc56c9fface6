ghost use Rattle.std.specs.Prelude.{◌≡◌, length, IfOk};
ghost use Rattle.capture_audit.specs.Seen.{datagram_seen};
ghost use Rattle.capture_audit.specs.Audit.{new_seat, new_station, disabled, enabled, managed, opens, other_enabled, with_mails};
ghost use Rattle.capture_audit.specs.Moves.{sent_by, accepted_by, Steps};

use crate::access::{MailAccess, Manager};
use crate::exchange::Datagram;
use crate::link::{Link, Moved, is_done};
use crate::rule::Rule;
use datagrams::register::MANAGER_ACTIVATE;
use ec_fields::{NoMemory, Rows, u16_at};
use mailbox_mail::Mail;
use std::alloc::Global;

/// Where the length of its area stands in a sync manager.
const MANAGER_AREA_LEN: usize = 2;

/// What an audit found at a station: the mails that the master sent there, and those that it accepted, in order and
/// without repeats, over all openings of the link.
#[derive(Drop)]
pub struct StationAudit {
    pub station: u16,
    pub sent: Rows<Mail>,
    pub accepted: Rows<Mail>,
}

/// What is known of a station: the lengths with which its managers were enabled since its link opened last, and the
/// link where it is open.
#[derive(Drop)]
pub struct Seat {
    pub station: u16,
    pub out_len: Option<u16>,
    pub in_len: Option<u16>,
    pub link: Option<Link>,
}

/// What an access of a station's mailbox comes to.
#[derive(Drop)]
pub enum Step {
    /// It breaks this rule, the first that it breaks.
    Breaks(Rule),
    /// The link goes on by it.
    Moves(Moved),
}

impl StationAudit {
    /// A station without mails.
    pub fn new(alloc: Global, station: u16) -> StationAudit
        ensures { result ≡ new_station station }
    {
        StationAudit {
            station,
            sent: Rows::new(alloc),
            accepted: Rows::new(alloc),
        }
    }

    /// A mail that was moved stands behind those before it.
    pub fn note(&mut self, moved: Moved) -> Result<(), NoMemory>
        ensures moved { IfOk result (λ done. self.new ≡ with_mails (sent_by moved) (accepted_by moved) self.old) }
        ensures station { self.new.station ≡ self.old.station }
    {
        match moved {
            Moved::Nothing => Ok(()),
            Moved::Sent(mail) => self.sent.add(mail),
            Moved::Accepted(mail) => self.accepted.add(mail),
        }
    }
}

impl Seat {
    /// A station whose managers weren't written.
    pub fn new(station: u16) -> Seat
        ensures { result ≡ new_seat station }
    {
        Seat {
            station,
            out_len: None,
            in_len: None,
            link: None,
        }
    }

    // A manager was disabled, which closes the link.
    fn disable(&mut self, manager: Manager)
        ensures seat { self.new ≡ disabled manager self.old }
        ensures station { self.new.station ≡ self.old.station }
    {
        self.link = None;
        match manager {
            Manager::Out => self.out_len = None,
            Manager::In => self.in_len = None,
        }
    }

    // A manager was enabled with an area of this length; whether that opens the link.
    fn enable(&mut self, alloc: Global, manager: Manager, len: u16) -> bool
        ensures seat { self.new ≡ enabled manager len self.old }
        ensures station { self.new.station ≡ self.old.station }
        ensures opens { result ≡ other_enabled manager self.old }
    {
        match manager {
            Manager::Out => self.out_len = Some(len),
            Manager::In => self.in_len = Some(len),
        }
        let (Some(out_len), Some(in_len)) = (self.out_len, self.in_len) else {
            return false;
        };
        self.out_len = None;
        self.in_len = None;
        self.link = Some(Link::new(alloc, out_len, in_len));
        true
    }

    /// A manager was written; whether that opens the link.
    pub fn manage(&mut self, alloc: Global, manager: Manager, datagram: &Datagram<'_>) -> bool
        requires { length datagram.now.body.now ≡ 8 }
        ensures seat { self.new ≡ managed manager (datagram_seen datagram.now) self.old }
        ensures station { self.new.station ≡ self.old.station }
        ensures opens { result ≡ opens manager (datagram_seen datagram.now) self.old }
    {
        let body = datagram.body;
        if body[MANAGER_ACTIVATE as usize] % 2 == 0 {
            self.disable(manager);
            return false;
        }
        if !is_done(datagram.back) {
            return false;
        }
        self.enable(alloc, manager, u16_at(body, MANAGER_AREA_LEN))
    }

    /// A mailbox is accessed.
    pub fn access(&mut self, access: MailAccess, datagram: &Datagram<'_>) -> Result<Step, NoMemory>
        ensures steps { IfOk result (Steps self.old self.new access (datagram_seen datagram.now)) }
        ensures station { self.new.station ≡ self.old.station }
    {
        let Some(link) = &mut self.link else {
            return Ok(Step::Breaks(Rule::NotOpen));
        };
        match link.rule(access, datagram) {
            Some(rule) => Ok(Step::Breaks(rule)),
            None => Ok(Step::Moves(link.go_on(access, datagram)?)),
        }
    }
}
