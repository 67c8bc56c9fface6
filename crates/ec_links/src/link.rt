ghost use Rattle.std.specs.Prelude.{◌≡◌, ◌≤◌, ◌+◌, ◌||◌, true, length, IsTrue, IfOk};
ghost use Rattle.ec_outside.specs.Calls.{one_more};
ghost use Rattle.ec_outside.specs.Faults.{Rose};

use ec_fields::Octets;
use ec_outside::Gram;

/// What a link gave.
#[derive(Clone, Copy, Debug, PartialEq, Eq)]
pub enum Piece {
    /// At least one octet.
    Bytes,
    /// Nothing for now.
    Quiet,
    /// No octet is left, and none will come.
    Ended,
}

/// Why a call of a link failed.
#[derive(Clone, Copy, Debug, PartialEq, Eq)]
pub enum LinkErr {
    /// A fault of the link; its count of faults rose.
    Failed,
    /// Want of memory.
    NoMemory,
}

/// How a link was asked for octets.
#[derive(Clone, Copy, Debug)]
pub struct Asked {
    /// How many calls of `get` were made. It stands still at the greatest `u64`.
    pub count: u64,
    /// Whether the last of them answered `Quiet`.
    pub quiet: bool,
}

impl Asked {
    /// The same behind one call more, which answered `Quiet` or not.
    pub fn more(self, quiet: bool) -> Asked
        ensures { result ≡ record { count = one_more self.count; quiet = quiet } }
    {
        Asked {
            count: self.count.saturating_add(1),
            quiet,
        }
    }
}

/// What a link in memory has to give.
#[derive(Drop)]
pub enum LinkItem {
    /// Octets that come in one piece.
    Bytes(Octets),
    /// A time without an octet.
    Pause,
}

/// A stream of octets in each direction.
///
/// `given` and `sent` are the octets given and put so far, where they are told; `over` says whether
/// a call has answered that no octet will come any more; `asked` is how it was asked for octets,
/// where that is told; `link_faults` counts the faults. It never falls, and stands still at the
/// greatest `u64`.
pub trait Link {
    ghost use Rattle.std.specs.Prelude.{ℕ, Bool, List, Option};
    ghost use Rattle.ec_links.specs.Link.{Gives, Puts, has_ended, asked_more};
    ghost use Rattle.ec_links.specs.declared.link.Asked.{Asked};

    ghost given: { Self → Option (List ℕ) };

    ghost sent: { Self → Option (List ℕ) };

    ghost over: { Self → Bool };

    ghost asked: { Self → Option Asked };

    ghost link_faults: { Self → ℕ };

    /// Appends 1 to `most` octets to `into`, or says that none is there. Where it is asked to wait
    /// it never answers `Quiet`. `Failed` comes only where the count of faults rose in this call.
    fn get(&mut self, into: &mut Gram, most: usize, wait: bool) -> Result<Piece, LinkErr>
        requires some { 1 ≤ most }
        requires fits { length into.old.items + most ≤ 2048 }
        ensures gives { Gives (given self.old) (given self.new) into.old.items into.new.items most result }
        ensures waits { wait ≡ true → result ≡ Ok Piece.Quiet → ⊥ }
        ensures puts { sent self.new ≡ sent self.old }
        ensures ended { over self.new ≡ (has_ended result || over self.old) }
        ensures stays { IsTrue (over self.old) → IfOk result (λ answer. answer ≡ Piece.Ended) }
        ensures asks { asked self.new ≡ asked_more result (asked self.old) }
        ensures later { link_faults self.old ≤ link_faults self.new }
        ensures cause { result ≡ Err LinkErr.Failed → Rose (link_faults self.old) (link_faults self.new) };

    /// Hands octets out. After `Failed`, which comes only where the count of faults rose in this
    /// call, a prefix of them was put; after `NoMemory` none.
    fn put(&mut self, bytes: &[u8]) -> Result<(), LinkErr>
        ensures puts { Puts (sent self.old) (sent self.new) bytes.now result }
        ensures gives { given self.new ≡ given self.old }
        ensures ended { over self.new ≡ over self.old }
        ensures asks { asked self.new ≡ asked self.old }
        ensures later { link_faults self.old ≤ link_faults self.new }
        ensures cause { result ≡ Err LinkErr.Failed → Rose (link_faults self.old) (link_faults self.new) };

    /// Counts a fault that its user found: what was to be put is nothing that it may put.
    fn fail(&mut self)
        ensures gives { given self.new ≡ given self.old }
        ensures puts { sent self.new ≡ sent self.old }
        ensures ended { over self.new ≡ over self.old }
        ensures asks { asked self.new ≡ asked self.old }
        ensures later { link_faults self.old ≤ link_faults self.new }
        ensures cause { Rose (link_faults self.old) (link_faults self.new) };
}
