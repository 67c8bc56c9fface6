ghost use Rattle.std.specs.Prelude.{◌≡◌, ◌≤◌, ◌||◌, [], length, take, drop, false, IsErrOf, IsTrue, IfOk, ◌↔◌, OnOk, OnErr};
ghost use Rattle.ec_outside.specs.Calls.{made, will_fail};
ghost use Rattle.ec_outside.specs.Faults.{Rose};
ghost use Rattle.ec_outside.specs.Port.{Hears, IsBlank, Sends, has_ended, grams_of, from_gram, heard_first, bytes_first};

use crate::calls::Calls;
use crate::port::{Gram, Heard, Peer, Port, PortErr, PortItem, SentGram};
use ec_fields::{Octets, Rows};
use std::alloc::Global;

/// A port in memory that gives its items in order and keeps what it sends. Chosen calls of it
/// fail, numbered from 0, all its methods together.
#[derive(Drop)]
pub struct MemPort {
    pub(crate) alloc: Global,
    pub(crate) items: Rows<PortItem>,
    // How many of the items were given.
    pub(crate) given: usize,
    pub(crate) over: bool,
    pub(crate) sent: Rows<SentGram>,
    pub(crate) calls: Calls,
    ghost within: { given ≤ length items },
    ghost last: { IsTrue over → given ≡ length items },
}

// Puts the first octets into a datagram, as many as it holds.
pub(crate) fn fill(into: &mut Gram, bytes: &[u8])
    ensures { into.new.items ≡ take 2048 bytes.now }
{
    into.clear();
    let count = usize::min(2048, bytes.len());
    match into.try_extend_from_slice(&bytes[..count]) {
        Ok(()) => {}
        Err(_) => unreachable!(),
    }
}

// The place of the first item from `from` on that is no pause.
fn past_pauses(items: &[PortItem], from: usize) -> usize
    requires { from ≤ length items.now }
    ensures left { drop result items.now ≡ from_gram (drop from items.now) }
    ensures heard { grams_of (take result items.now) ≡ grams_of (take from items.now) }
    ensures later { from ≤ result }
    ensures within { result ≤ length items.now }
{
    for at in from..items.len() {
        match &items[at] {
            PortItem::Gram { .. } => return at,
            PortItem::Pause => {}
        }
    }
    items.len()
}

impl MemPort {
    /// A port with these items; the calls of `wait`, `poll` and `send` with these numbers are to
    /// fail.
    pub fn new(alloc: Global, items: Rows<PortItem>, failing: Rows<u64>) -> MemPort
        ensures items { result.items ≡ items }
        ensures given { result.given ≡ 0 }
        ensures over { result.over ≡ false }
        ensures sent { result.sent ≡ [] }
        ensures calls { result.calls ≡ record { failing = failing; count = 0; faults = 0 } }
    {
        MemPort {
            alloc,
            items,
            given: 0,
            over: false,
            sent: Rows::new(alloc),
            calls: Calls::new(failing),
        }
    }

    /// The datagrams sent so far, in order. It isn't counted as a call.
    pub fn sent(&self) -> &Rows<SentGram>
        ensures { result.now ≡ self.now.sent }
    {
        &self.sent
    }

    // Gives the next item.
    fn give(&mut self, into: &mut Gram) -> Heard
        ensures answer { result ≡ heard_first (drop self.old.given self.old.items) }
        ensures octets { into.new.items ≡ bytes_first (drop self.old.given self.old.items) }
        ensures left { drop self.new.given self.new.items ≡ drop 1 (drop self.old.given self.old.items) }
        ensures hears { Hears (Some (grams_of (take self.old.given self.old.items))) (Some (grams_of (take self.new.given self.new.items))) into.new.items (Ok result) }
        ensures over { self.new.over ≡ (has_ended (Ok result) || self.old.over) }
        ensures same { self.new.items ≡ self.old.items }
        ensures calls { self.new.calls ≡ self.old.calls }
        ensures sent { self.new.sent ≡ self.old.sent }
    {
        if self.given == self.items.len() {
            into.clear();
            self.over = true;
            return Heard::Ended;
        }
        let at = self.given;
        self.given += 1;
        match &self.items.as_slice()[at] {
            PortItem::Pause => {
                into.clear();
                Heard::Quiet
            }
            PortItem::Gram { from, bytes } => {
                fill(into, bytes.bytes());
                Heard::From(*from)
            }
        }
    }
}

impl Port for MemPort {
    ghost use Rattle.std.specs.Prelude.{Some};

    ghost heard = { λ p. Some (grams_of (take p.given p.items)) };

    ghost sent = { λ p. Some p.sent };

    ghost over = { λ p. p.over };

    ghost port_faults = { λ p. p.calls.faults };

    fn wait(&mut self, into: &mut Gram) -> Result<Heard, PortErr>
        ensures hears { Hears (Some (grams_of (take self.old.given self.old.items))) (Some (grams_of (take self.new.given self.new.items))) into.new.items result }
        ensures blank { IsBlank result into.new.items }
        ensures waits { result ≡ Ok Heard.Quiet → ⊥ }
        ensures sends { Some self.new.sent ≡ Some self.old.sent }
        ensures ended { self.new.over ≡ (has_ended result || self.old.over) }
        ensures stays { IsTrue self.old.over → IfOk result (λ answer. answer ≡ Heard.Ended) }
        ensures failing { IsErrOf result PortErr.Failed ↔ IsTrue (will_fail self.old.calls) }
        ensures memory { result ≡ Err PortErr.NoMemory → ⊥ }
        ensures answer { IfOk result (λ answer. answer ≡ heard_first (from_gram (drop self.old.given self.old.items))) }
        ensures octets { OnOk result (into.new.items ≡ bytes_first (from_gram (drop self.old.given self.old.items))) }
        ensures left { OnOk result (drop self.new.given self.new.items ≡ drop 1 (from_gram (drop self.old.given self.old.items))) }
        ensures none { OnErr result (self.new.given ≡ self.old.given) }
        ensures items { self.new.items ≡ self.old.items }
        ensures calls { self.new.calls ≡ made self.old.calls }
        ensures later { self.old.calls.faults ≤ self.new.calls.faults }
        ensures cause { result ≡ Err PortErr.Failed → Rose self.old.calls.faults self.new.calls.faults }
    {
        if self.calls.fails() {
            into.clear();
            return Err(PortErr::Failed);
        }
        self.given = past_pauses(self.items.as_slice(), self.given);
        Ok(self.give(into))
    }

    fn poll(&mut self, into: &mut Gram) -> Result<Heard, PortErr>
        ensures hears { Hears (Some (grams_of (take self.old.given self.old.items))) (Some (grams_of (take self.new.given self.new.items))) into.new.items result }
        ensures blank { IsBlank result into.new.items }
        ensures sends { Some self.new.sent ≡ Some self.old.sent }
        ensures ended { self.new.over ≡ (has_ended result || self.old.over) }
        ensures stays { IsTrue self.old.over → IfOk result (λ answer. answer ≡ Heard.Ended) }
        ensures failing { IsErrOf result PortErr.Failed ↔ IsTrue (will_fail self.old.calls) }
        ensures memory { result ≡ Err PortErr.NoMemory → ⊥ }
        ensures answer { IfOk result (λ answer. answer ≡ heard_first (drop self.old.given self.old.items)) }
        ensures octets { OnOk result (into.new.items ≡ bytes_first (drop self.old.given self.old.items)) }
        ensures left { OnOk result (drop self.new.given self.new.items ≡ drop 1 (drop self.old.given self.old.items)) }
        ensures none { OnErr result (self.new.given ≡ self.old.given) }
        ensures items { self.new.items ≡ self.old.items }
        ensures calls { self.new.calls ≡ made self.old.calls }
        ensures later { self.old.calls.faults ≤ self.new.calls.faults }
        ensures cause { result ≡ Err PortErr.Failed → Rose self.old.calls.faults self.new.calls.faults }
    {
        if self.calls.fails() {
            into.clear();
            return Err(PortErr::Failed);
        }
        Ok(self.give(into))
    }

    fn send(&mut self, to: Peer, bytes: &[u8]) -> Result<(), PortErr>
        ensures sends { Sends (Some self.old.sent) (Some self.new.sent) to bytes.now result }
        ensures hears { Some (grams_of (take self.new.given self.new.items)) ≡ Some (grams_of (take self.old.given self.old.items)) }
        ensures ended { self.new.over ≡ self.old.over }
        ensures failing { IsErrOf result PortErr.Failed ↔ IsTrue (will_fail self.old.calls) }
        ensures none { OnErr result (self.new.sent ≡ self.old.sent) }
        ensures given { self.new.given ≡ self.old.given }
        ensures items { self.new.items ≡ self.old.items }
        ensures calls { self.new.calls ≡ made self.old.calls }
        ensures later { self.old.calls.faults ≤ self.new.calls.faults }
        ensures cause { result ≡ Err PortErr.Failed → Rose self.old.calls.faults self.new.calls.faults }
    {
        if self.calls.fails() {
            return Err(PortErr::Failed);
        }
        let Ok(bytes) = Octets::copy_of(self.alloc, bytes) else {
            return Err(PortErr::NoMemory);
        };
        match self.sent.add(SentGram { to, bytes }) {
            Ok(()) => Ok(()),
            Err(_) => Err(PortErr::NoMemory),
        }
    }
}
