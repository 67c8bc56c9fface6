ghost use Rattle.std.specs.Prelude.{◌≡◌, []};
ghost use Rattle.gateway_stream.specs.Sending.{has_failed};

use crate::cutting::is_request;
use crate::stream::{PEER, StreamPort};
use ec_fields::refill;
use ec_links::Link;
use ec_outside::{Gram, Heard, Peer, Port, PortErr};
use std::marker::Model;

/// A port over a link that tells what it sends: in the octets put, too, the datagrams stand one
/// behind the other, and nothing behind them but, where a put failed, the first octets of one more.
/// A datagram that its own header doesn't end isn't put, nor one to another peer, and behind a put
/// that failed none is: each of these is a fault, which is counted at the link.
#[derive(Drop)]
pub struct WholePort<L: Link> {
    pub(crate) port: StreamPort<L>,
    // The datagram whose put failed; empty where none did.
    pub(crate) failed: Gram,
}

impl<L: Link> Model for WholePort<L> {
    ghost use Rattle.std.specs.Prelude.{◌≢◌, ◌≤◌, []};
    ghost use Rattle.gateway_stream.specs.Sending.{Whole};

    ghost Value = { Whole L };

    ghost view = { λ p. record { link = p.port.link; kept = p.port.kept.items; failed = p.failed.items } };

    ghost invariant = { λ p. p.failed.items ≢ [] → 1 ≤ L.link_faults p.port.link };
}

fn has_failed(sent: &Result<(), PortErr>) -> bool
    ensures { result ≡ has_failed sent.now }
{
    matches!(sent, Err(PortErr::Failed))
}

impl<L: Link> WholePort<L> {
    ghost use Rattle.std.specs.Prelude.{◌≢◌, ◌≤◌};

    /// The port of a link.
    pub fn new(link: L) -> WholePort<L>
        ensures { result ≡ record { link = link; kept = []; failed = [] } }
    {
        WholePort {
            port: StreamPort::new(link),
            failed: Gram::new(),
        }
    }

    /// Gives the link back. Where a put failed, it has had a fault.
    pub fn into_link(self) -> L
        ensures link { result ≡ self.link }
        ensures faulted { self.failed ≢ [] → 1 ≤ L.link_faults result }
    {
        self.port.into_link()
    }
}

impl<L: Link> Port for WholePort<L> {
    ghost use Rattle.std.specs.Prelude.{◌||◌};
    ghost use Rattle.gateway_stream.specs.Hearing.{heard_of, is_broken};
    ghost use Rattle.gateway_stream.specs.Sending.{sent_of};

    ghost heard = { λ p. heard_of (L.given p.link) p.kept };

    ghost sent = { λ p. sent_of p.failed (L.sent p.link) };

    ghost over = { λ p. L.over p.link || is_broken p.kept };

    ghost port_faults = { λ p. L.link_faults p.link };

    fn wait(&mut self, into: &mut Gram) -> Result<Heard, PortErr> {
        self.port.hear(into, true)
    }

    fn poll(&mut self, into: &mut Gram) -> Result<Heard, PortErr> {
        self.port.hear(into, false)
    }

    fn send(&mut self, to: Peer, bytes: &[u8]) -> Result<(), PortErr> {
        if !self.failed.is_empty() || to != PEER || !is_request(bytes) {
            self.port.link.fail();
            return Err(PortErr::Failed);
        }
        let sent = self.port.send(to, bytes);
        if has_failed(&sent) {
            refill(&mut self.failed, bytes);
        }
        sent
    }
}
