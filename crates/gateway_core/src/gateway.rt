ghost use Rattle.std.specs.Prelude.{◌≡◌, ◌<◌, ◌≤◌, ◌+◌, [], None, ◌↔◌, IsTrue, length, nat_le, IfSome, IfOk, OnOk, OnErr};
ghost use Rattle.slab.specs.Slab.{ContainsKey, SameValues, Updates, get, slab_len};
ghost use Rattle.gateway_core.specs.Framing.{request_in};
ghost use Rattle.gateway_core.specs.Gateway.{place_from, is_passed, unfinished_at, judged, error_text, IsFor, IsWithin, Queues, Answers, RepliesTo};

use crate::asker::{Asked, Asker};
use crate::framing::{mail_behind, write_to};
use ec_fields::NoMemory;
use ec_outside::{Gram, Peer};
use mailbox_mail::{HEADER, Kind, Mail, error_mail, mail_of};
use slab::Slab;
use std::alloc::Global;
use std::marker::Model;

/// The most requests of one slave that are unfinished.
const UNFINISHED: u32 = 64;

/// The mailbox error of a station that no live slave has.
const NO_STATION: u16 = 5;

/// The mailbox error of a protocol that isn't passed on.
const NO_PROTOCOL: u16 = 2;

/// The mailbox error of a mail that exceeds the slave's area.
const TOO_LONG: u16 = 8;

/// The mailbox error of a slave at which as many requests are unfinished as may be.
const NO_ROOM: u16 = 7;

/// The requests that aren't finished, by their keys.
#[derive(Drop)]
pub struct Gateway {
    askers: Slab<Asker>,
}

impl Model for Gateway {
    ghost use Rattle.slab.specs.Slab.{Slab};
    ghost use Rattle.gateway_core.specs.declared.asker.Asker.{Asker as OneAsker};

    ghost Value = { Slab OneAsker };

    ghost view = { λ g. g.askers };
}

// The first live slave of a station, and the length of its area.
fn place_of(stations: &[Option<(u16, u16)>], station: u16) -> Option<(u32, u16)>
    requires { length stations.now ≤ 16 }
    ensures value { result ≡ place_from 0 station stations.now }
    ensures within { IfSome result (λ place. place.0 < length stations.now) }
{
    for (at, row) in stations.iter().enumerate() {
        if let Some((own, len)) = row
            && *own == station
        {
            return Some((at as u32, *len));
        }
    }
    None
}

// Whether the gateway passes mails of a protocol on.
fn is_passed(kind: Kind) -> bool
    ensures { result ≡ is_passed kind }
{
    match kind {
        Kind::CoE | Kind::FoE | Kind::SoE => true,
        Kind::Error | Kind::AoE | Kind::EoE | Kind::VoE => false,
    }
}

fn error_to(detail: u16, mail: &Mail) -> Gram
    requires { mail.now.counter ≤ 7 }
    ensures { result.items ≡ error_text detail mail.now }
{
    let mut gram = Gram::new();
    write_to(&error_mail(detail), mail.address, mail.counter, &mut gram);
    gram
}

impl Gateway {
    /// No request is unfinished.
    pub fn new(alloc: Global) -> Gateway
        ensures { result.slots ≡ [] }
    {
        Gateway {
            askers: Slab::new(alloc),
        }
    }

    /// How many requests are unfinished.
    pub fn len(&self) -> usize
        ensures { result ≡ slab_len self.now }
    {
        self.askers.len()
    }

    /// Whether the request of a key isn't finished.
    pub fn is_unfinished(&self, key: usize) -> bool
        ensures { IsTrue result ↔ ContainsKey self.now key }
    {
        self.askers.contains(key)
    }

    // Whether as many requests of a slave are unfinished as may be.
    fn is_full(&self, slave: u32) -> bool
        ensures { result ≡ nat_le 64 (unfinished_at slave self.now) }
    {
        let mut many: u32 = 0;
        for (_, asker) in self.askers.iter() {
            if asker.slave == slave {
                many += 1;
                if many == UNFINISHED {
                    return true;
                }
            }
        }
        false
    }

    // The slave to which a mail is to be passed on, or the detail of the error that answers it.
    fn judge(&self, mail: &Mail, stations: &[Option<(u16, u16)>]) -> Result<u32, u16>
        requires { length stations.now ≤ 16 }
        ensures value { result ≡ judged self.now mail.now stations.now }
        ensures within { IfOk result (λ slave. slave < length stations.now) }
    {
        let (slave, len) = place_of(stations, mail.address).ok_or(NO_STATION)?;
        if !is_passed(mail.kind) {
            return Err(NO_PROTOCOL);
        }
        if HEADER + mail.body.len() > len as usize {
            return Err(TOO_LONG);
        }
        if self.is_full(slave) {
            return Err(NO_ROOM);
        }
        Ok(slave)
    }

    fn queue(&mut self, peer: Peer, slave: u32, mail: Mail) -> Result<Asked, NoMemory>
        requires { mail.counter ≤ 7 }
        ensures ok { IfOk result (λ asked. Queues self.old self.new peer slave mail asked) }
        ensures slave { IfOk result (λ asked. IsFor slave asked) }
        ensures err { OnErr result (SameValues self.old self.new) }
    {
        let asker = Asker {
            peer,
            slave,
            station: mail.address,
            counter: mail.counter,
        };
        let Ok(key) = self.askers.insert(asker) else {
            return Err(NoMemory);
        };
        Ok(Asked::Queued { key, slave, mail })
    }

    /// Takes a datagram of a peer. `stations` has, per slave, its station and the length of its
    /// mailbox while it is live. A datagram that is no request is ignored. An error answers it for
    /// the first of these causes: no live slave has the station (5), the protocol isn't CoE, FoE
    /// or SoE (2), the mail exceeds the slave's area (8), 64 requests of the slave are unfinished
    /// (7). Any other mail is to be passed on, and its key is unfinished. Nothing else changes,
    /// and after `NoMemory` nothing at all.
    pub fn request(
        &mut self,
        peer: Peer,
        bytes: &[u8],
        stations: &[Option<(u16, u16)>],
    ) -> Result<Asked, NoMemory>
        requires { length stations.now ≤ 16 }
        ensures ok { IfOk result (Answers self.old self.new peer stations.now (request_in bytes.now)) }
        ensures within { IfOk result (IsWithin (length stations.now)) }
        ensures err { OnErr result (SameValues self.old self.new) }
    {
        let Ok(view) = mail_behind(bytes) else {
            return Ok(Asked::Ignored);
        };
        let mail = mail_of(view);
        match self.judge(&mail, stations) {
            Ok(slave) => self.queue(peer, slave, mail),
            Err(detail) => Ok(Asked::Error(error_to(detail, &mail))),
        }
    }

    /// Makes the datagram of a reply to the request of a key, with the station and the counter of
    /// that request, and gives the peer that asked.
    pub fn reply(&self, key: usize, mail: &Mail, into: &mut Gram) -> Peer
        requires { ContainsKey self.now key }
        ensures { IfSome (get self.now key) (λ asker. RepliesTo asker mail.now result into.new.items) }
    {
        match self.askers.get(key) {
            Some(asker) => {
                write_to(mail, asker.station, asker.counter, into);
                asker.peer
            }
            None => unreachable!(),
        }
    }

    /// The request of a key gets no further reply: its key may be given anew.
    pub fn finish(&mut self, key: usize)
        requires { ContainsKey self.old key }
        ensures finished { Updates self.old self.new key None }
        ensures one { slab_len self.new + 1 ≡ slab_len self.old }
    {
        self.askers.try_remove(key);
    }
}
