ghost use Rattle.std.specs.Prelude.{◌≡◌, ◌<◌, ◌≤◌, ◌+◌, ◌++◌, ◌||◌, ◌↔◌, [], true, false, length, take, drop, IsErrOf, IsTrue, IfOk, OnOk, OnErr};
ghost use Rattle.ec_outside.specs.Faults.{Rose};
ghost use Rattle.ec_outside.specs.Calls.{made, will_fail};
ghost use Rattle.ec_links.specs.Link.{Gives, Puts, has_ended, asked_more, bytes_first, given_at, left_at, is_given, from_piece, piece_first, behind_first};

use crate::link::{Asked, Link, LinkErr, LinkItem, Piece};
use ec_fields::{Octets, Rows, append};
use ec_outside::{Calls, Gram};
use std::alloc::Global;

/// A link in memory that gives its items in order and keeps the octets put. Chosen calls of it
/// fail, numbered from 0, both its methods together.
#[derive(Drop)]
pub struct MemLink {
    pub(crate) items: Rows<LinkItem>,
    // How many of the items were given in full.
    pub(crate) at: usize,
    // How many octets of the next item were given.
    pub(crate) from: usize,
    pub(crate) over: bool,
    pub(crate) asked: Asked,
    pub(crate) sent: Octets,
    pub(crate) calls: Calls,
    ghost within: { at ≤ length items },
    ghost inside: { 0 < from → from < length (bytes_first (drop at items)) },
    ghost last: { IsTrue over → at ≡ length items },
}

// Whether an item has octets or, where nobody waits, is a pause.
fn is_given(item: &LinkItem, wait: bool) -> bool
    ensures { result ≡ is_given wait item.now }
{
    match item {
        LinkItem::Bytes(bytes) => !bytes.is_empty(),
        LinkItem::Pause => !wait,
    }
}

// The place of the first item from `at` on that has octets or, where nobody waits, is a pause. So
// many octets of the item at `at` were given.
fn next_place(items: &[LinkItem], at: usize, from: usize, wait: bool) -> usize
    requires within { at ≤ length items.now }
    requires inside { 0 < from → from < length (bytes_first (drop at items.now)) }
    ensures left { left_at result from items.now ≡ from_piece wait (left_at at from items.now) }
    ensures given { given_at result from items.now ≡ given_at at from items.now }
    ensures later { at ≤ result }
    ensures within { result ≤ length items.now }
    ensures inside { 0 < from → result ≡ at }
{
    for place in at..items.len() {
        if is_given(&items[place], wait) {
            return place;
        }
    }
    items.len()
}

impl MemLink {
    /// A link with these items; the calls of `get` and `put` with these numbers are to fail.
    pub fn new(alloc: Global, items: Rows<LinkItem>, failing: Rows<u64>) -> MemLink
        ensures items { result.items ≡ items }
        ensures at { result.at ≡ 0 }
        ensures from { result.from ≡ 0 }
        ensures over { result.over ≡ false }
        ensures asked { result.asked ≡ record { count = 0; quiet = false } }
        ensures sent { result.sent ≡ [] }
        ensures calls { result.calls ≡ record { failing = failing; count = 0; faults = 0 } }
    {
        MemLink {
            items,
            at: 0,
            from: 0,
            over: false,
            asked: Asked {
                count: 0,
                quiet: false,
            },
            sent: Octets::new(alloc),
            calls: Calls::new(failing),
        }
    }

    /// The octets put so far. It isn't counted as a call.
    pub fn sent(&self) -> &[u8]
        ensures { result.now ≡ self.now.sent }
    {
        self.sent.bytes()
    }

    // Gives what stands at the place that was reached.
    fn give(&mut self, into: &mut Gram, most: usize) -> Piece
        requires some { 1 ≤ most }
        requires fits { length into.old.items + most ≤ 2048 }
        requires ready { piece_first (left_at self.old.at self.old.from self.old.items) ≡ Piece.Bytes → 1 ≤ length (bytes_first (left_at self.old.at self.old.from self.old.items)) }
        ensures answer { result ≡ piece_first (left_at self.old.at self.old.from self.old.items) }
        ensures octets { into.new.items ≡ into.old.items ++ take most (bytes_first (left_at self.old.at self.old.from self.old.items)) }
        ensures left { left_at self.new.at self.new.from self.new.items ≡ behind_first most (left_at self.old.at self.old.from self.old.items) }
        ensures gives { Gives (Some (given_at self.old.at self.old.from self.old.items)) (Some (given_at self.new.at self.new.from self.new.items)) into.old.items into.new.items most (Ok result) }
        ensures over { self.new.over ≡ (has_ended (Ok result) || self.old.over) }
        ensures same { self.new.items ≡ self.old.items }
        ensures calls { self.new.calls ≡ self.old.calls }
        ensures asked { self.new.asked ≡ self.old.asked }
        ensures sent { self.new.sent ≡ self.old.sent }
    {
        if self.at == self.items.len() {
            self.over = true;
            return Piece::Ended;
        }
        match &self.items.as_slice()[self.at] {
            LinkItem::Pause => {
                self.at += 1;
                Piece::Quiet
            }
            LinkItem::Bytes(bytes) => {
                let left = &bytes.bytes()[self.from..];
                if most < left.len() {
                    append(into, &left[..most]);
                    self.from += most;
                } else {
                    append(into, left);
                    self.at += 1;
                    self.from = 0;
                }
                Piece::Bytes
            }
        }
    }
}

impl Link for MemLink {
    ghost use Rattle.std.specs.Prelude.{Some};

    ghost given = { λ l. Some (given_at l.at l.from l.items) };

    ghost sent = { λ l. Some l.sent };

    ghost over = { λ l. l.over };

    ghost asked = { λ l. Some l.asked };

    ghost link_faults = { λ l. l.calls.faults };

    fn get(&mut self, into: &mut Gram, most: usize, wait: bool) -> Result<Piece, LinkErr>
        requires some { 1 ≤ most }
        requires fits { length into.old.items + most ≤ 2048 }
        ensures gives { Gives (Some (given_at self.old.at self.old.from self.old.items)) (Some (given_at self.new.at self.new.from self.new.items)) into.old.items into.new.items most result }
        ensures waits { wait ≡ true → result ≡ Ok Piece.Quiet → ⊥ }
        ensures puts { Some self.new.sent ≡ Some self.old.sent }
        ensures ended { self.new.over ≡ (has_ended result || self.old.over) }
        ensures stays { IsTrue self.old.over → IfOk result (λ answer. answer ≡ Piece.Ended) }
        ensures asks { Some self.new.asked ≡ asked_more result (Some self.old.asked) }
        ensures failing { IsErrOf result LinkErr.Failed ↔ IsTrue (will_fail self.old.calls) }
        ensures memory { result ≡ Err LinkErr.NoMemory → ⊥ }
        ensures answer { IfOk result (λ answer. answer ≡ piece_first (from_piece wait (left_at self.old.at self.old.from self.old.items))) }
        ensures octets { OnOk result (into.new.items ≡ into.old.items ++ take most (bytes_first (from_piece wait (left_at self.old.at self.old.from self.old.items)))) }
        ensures left { OnOk result (left_at self.new.at self.new.from self.new.items ≡ behind_first most (from_piece wait (left_at self.old.at self.old.from self.old.items))) }
        ensures none { OnErr result ((self.new.at ≡ self.old.at) × (self.new.from ≡ self.old.from)) }
        ensures items { self.new.items ≡ self.old.items }
        ensures calls { self.new.calls ≡ made self.old.calls }
        ensures later { self.old.calls.faults ≤ self.new.calls.faults }
        ensures cause { result ≡ Err LinkErr.Failed → Rose self.old.calls.faults self.new.calls.faults }
    {
        if self.calls.fails() {
            self.asked = self.asked.more(false);
            return Err(LinkErr::Failed);
        }
        self.at = next_place(self.items.as_slice(), self.at, self.from, wait);
        let piece = self.give(into, most);
        self.asked = self.asked.more(matches!(piece, Piece::Quiet));
        Ok(piece)
    }

    fn put(&mut self, bytes: &[u8]) -> Result<(), LinkErr>
        ensures puts { Puts (Some self.old.sent) (Some self.new.sent) bytes.now result }
        ensures gives { Some (given_at self.new.at self.new.from self.new.items) ≡ Some (given_at self.old.at self.old.from self.old.items) }
        ensures ended { self.new.over ≡ self.old.over }
        ensures asks { Some self.new.asked ≡ Some self.old.asked }
        ensures failing { IsErrOf result LinkErr.Failed ↔ IsTrue (will_fail self.old.calls) }
        ensures none { OnErr result (self.new.sent ≡ self.old.sent) }
        ensures at { self.new.at ≡ self.old.at }
        ensures from { self.new.from ≡ self.old.from }
        ensures items { self.new.items ≡ self.old.items }
        ensures calls { self.new.calls ≡ made self.old.calls }
        ensures later { self.old.calls.faults ≤ self.new.calls.faults }
        ensures cause { result ≡ Err LinkErr.Failed → Rose self.old.calls.faults self.new.calls.faults }
    {
        if self.calls.fails() {
            return Err(LinkErr::Failed);
        }
        match self.sent.add(bytes) {
            Ok(()) => Ok(()),
            Err(_) => Err(LinkErr::NoMemory),
        }
    }

    fn fail(&mut self) {
        self.calls.faults = self.calls.faults.saturating_add(1);
    }
}
