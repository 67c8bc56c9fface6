ghost use Rattle.std.specs.Prelude.{◌≡◌, ◌≤◌, Ok};
ghost use Rattle.ec_outside.specs.Port.{Hears, IsBlank, has_ended};

use ec_outside::{Gram, Heard, Peer, Port, PortErr};

/// A port that says a line on the standard error once it listens: once its first call, which opens it, has answered without a fault.
/// Else it is the port that it stands on.
#[derive(Drop)]
pub struct ListeningPort<'a, R: Eprint, P: Port> {
    rt: &'a R,
    /// The line that is still to be said.
    line: Option<String>,
    inner: P,
}

impl<'a, R: Eprint, P: Port> ListeningPort<'a, R, P> {
    /// A port that says the line, where there is one.
    pub fn new(rt: &'a R, line: Option<String>, inner: P) -> ListeningPort<'a, R, P> {
        ListeningPort { rt, line, inner }
    }

    // Says the line, once. A standard error that takes nothing is no fault of the port.
    fn say(&mut self)
        ensures { self.new.inner ≡ self.old.inner }
    {
        if let Some(line) = self.line.take() {
            let _ = self.rt.eprintln(line);
        }
    }
}

impl<'a, R: Eprint, P: Port> Port for ListeningPort<'a, R, P> {
    ghost heard = { λ p. P.heard p.inner };

    ghost sent = { λ p. P.sent p.inner };

    ghost over = { λ p. P.over p.inner };

    ghost port_faults = { λ p. P.port_faults p.inner };

    // Who waits at once would say nothing before the first datagram, so that the first call only looks.
    fn wait(&mut self, into: &mut Gram) -> Result<Heard, PortErr> {
        if self.line.is_none() {
            return self.inner.wait(into);
        }
        match self.poll(into) {
            Ok(Heard::Quiet) => self.inner.wait(into),
            other => other,
        }
    }

    fn poll(&mut self, into: &mut Gram) -> Result<Heard, PortErr> {
        let heard = self.inner.poll(into);
        if heard.is_ok() {
            self.say();
        }
        heard
    }

    fn send(&mut self, to: Peer, bytes: &[u8]) -> Result<(), PortErr> {
        self.inner.send(to, bytes)
    }
}
