ghost use Rattle.std.specs.Prelude.{◌≡◌};

use ec_links::{Link, LinkErr, Piece};
use ec_outside::Gram;

/// A link that says a line on the standard error once it listens: once its first call, which opens it, has answered without a fault.
/// Else it is the link that it stands on; how often it was asked for octets isn't told.
#[derive(Drop)]
pub struct ListeningLink<'a, R: Eprint, L: Link> {
    rt: &'a R,
    /// The line that is still to be said.
    line: Option<String>,
    inner: L,
}

impl<'a, R: Eprint, L: Link> ListeningLink<'a, R, L> {
    /// A link that says the line, where there is one.
    pub fn new(rt: &'a R, line: Option<String>, inner: L) -> ListeningLink<'a, R, L> {
        ListeningLink { rt, line, inner }
    }

    // Says the line, once. A standard error that takes nothing is no fault of the link.
    fn say(&mut self)
        ensures { self.new.inner ≡ self.old.inner }
    {
        if let Some(line) = self.line.take() {
            let _ = self.rt.eprintln(line);
        }
    }
}

impl<'a, R: Eprint, L: Link> Link for ListeningLink<'a, R, L> {
    ghost use Rattle.std.specs.Prelude.{None};

    ghost given = { λ l. L.given l.inner };

    ghost sent = { λ l. L.sent l.inner };

    ghost over = { λ l. L.over l.inner };

    ghost asked = { λ l. None };

    ghost link_faults = { λ l. L.link_faults l.inner };

    // Who waits at once would say nothing before the first octet, so that the first call only looks.
    fn get(&mut self, into: &mut Gram, most: usize, wait: bool) -> Result<Piece, LinkErr> {
        if self.line.is_none() {
            return self.inner.get(into, most, wait);
        }
        let piece = self.inner.get(into, most, false);
        if piece.is_ok() {
            self.say();
        }
        match piece {
            Ok(Piece::Quiet) if wait => self.inner.get(into, most, true),
            other => other,
        }
    }

    fn put(&mut self, bytes: &[u8]) -> Result<(), LinkErr> {
        self.inner.put(bytes)
    }

    fn fail(&mut self) {
        self.inner.fail();
    }
}
