ghost use Rattle.std.specs.Prelude.{◌≡◌, ◌<◌, ◌≤◌, ◌||◌, [], true, false, length, Some, None, Ok, Err, IsTrue, IfOk, IfSome};
ghost use Rattle.ec_links.specs.of_ec_outside.Faults.{Rose};
ghost use Rattle.ec_links.specs.of_ec_outside.Port.{Hears, IsBlank, Sends, has_ended};
ghost use Rattle.gateway_stream.specs.Cutting.{is_whole};
ghost use Rattle.gateway_stream.specs.Hearing.{heard_of, is_broken, answer_of, error_of, AsksLink, PutsBytes, TurnsTo};

use crate::cutting::missing;
use ec_fields::refill;
use ec_links::{Link, LinkErr, Piece};
use ec_outside::{Gram, Heard, Peer, Port, PortErr};

/// The peer of a stream, whose address is the loopback's, 127.0.0.1.
pub(crate) const PEER: Peer = Peer {
    ip: 0x7F00_0001,
    port: 0,
};

/// As many pieces as a datagram has octets at most.
const PIECES: usize = 2048;

/// A port over a link: its datagrams are the requests that stand one behind the other in the
/// octets that the link gives, in whatever pieces those come. It asks the link for just the octets
/// that are missing of the next one.
#[derive(Drop)]
pub struct StreamPort<L: Link> {
    pub(crate) link: L,
    // The octets of the next request that were given.
    pub(crate) kept: Gram,
    ghost unfinished: { is_whole kept.items ≡ false },
}

fn error_of(error: LinkErr) -> PortErr
    ensures { result ≡ error_of error }
{
    match error {
        LinkErr::Failed => PortErr::Failed,
        LinkErr::NoMemory => PortErr::NoMemory,
    }
}

impl<L: Link> StreamPort<L> {
    /// The port of a link.
    pub fn new(link: L) -> StreamPort<L>
        ensures link { result.link ≡ link }
        ensures kept { result.kept.items ≡ [] }
    {
        StreamPort {
            link,
            kept: Gram::new(),
        }
    }

    /// Gives the link back.
    pub fn into_link(self) -> L
        ensures { result ≡ self.link }
    {
        self.link
    }

    // One call of the link for the octets that are missing; none where more of the next request
    // may come.
    fn turn(&mut self, into: &mut Gram, wait: bool) -> Option<Result<Heard, PortErr>>
        requires blank { into.old.items ≡ [] }
        ensures hears { Hears (heard_of (L.given self.old.link) self.old.kept.items) (heard_of (L.given self.new.link) self.new.kept.items) into.new.items (answer_of result) }
        ensures blank { IsBlank (answer_of result) into.new.items }
        ensures waits { wait ≡ true → result ≡ Some (Ok Heard.Quiet) → ⊥ }
        ensures more { result ≡ None → length self.old.kept.items < length self.new.kept.items }
        ensures few { result ≡ None → length self.new.kept.items < 2048 }
        ensures asks { TurnsTo (L.asked self.old.link) (L.asked self.new.link) (is_broken self.old.kept.items) result }
        ensures unbroken { result ≡ None → is_broken self.new.kept.items ≡ is_broken self.old.kept.items }
        ensures ended { (L.over self.new.link || is_broken self.new.kept.items) ≡ (has_ended (answer_of result) || (L.over self.old.link || is_broken self.old.kept.items)) }
        ensures stays { IsTrue (L.over self.old.link || is_broken self.old.kept.items) → IfSome result (λ one. IfOk one (λ answer. answer ≡ Heard.Ended)) }
        ensures sends { L.sent self.new.link ≡ L.sent self.old.link }
        ensures later { L.link_faults self.old.link ≤ L.link_faults self.new.link }
        ensures cause { result ≡ Some (Err PortErr.Failed) → Rose (L.link_faults self.old.link) (L.link_faults self.new.link) }
    {
        let Some(most) = missing(self.kept.as_slice()) else {
            return Some(Ok(Heard::Ended));
        };
        match self.link.get(&mut self.kept, most, wait) {
            Ok(Piece::Bytes) => match missing(self.kept.as_slice()) {
                Some(0) => {
                    refill(into, self.kept.as_slice());
                    self.kept.clear();
                    Some(Ok(Heard::From(PEER)))
                }
                Some(_) => None,
                None => Some(Ok(Heard::Ended)),
            },
            Ok(Piece::Quiet) => Some(Ok(Heard::Quiet)),
            Ok(Piece::Ended) => Some(Ok(Heard::Ended)),
            Err(error) => Some(Err(error_of(error))),
        }
    }

    // Hears the next request; where it isn't to wait, nothing exactly where the link has none for now.
    pub(crate) fn hear(&mut self, into: &mut Gram, wait: bool) -> Result<Heard, PortErr>
        ensures hears { Hears (heard_of (L.given self.old.link) self.old.kept.items) (heard_of (L.given self.new.link) self.new.kept.items) into.new.items result }
        ensures blank { IsBlank result into.new.items }
        ensures waits { wait ≡ true → result ≡ Ok Heard.Quiet → ⊥ }
        ensures ended { (L.over self.new.link || is_broken self.new.kept.items) ≡ (has_ended result || (L.over self.old.link || is_broken self.old.kept.items)) }
        ensures stays { IsTrue (L.over self.old.link || is_broken self.old.kept.items) → IfOk result (λ answer. answer ≡ Heard.Ended) }
        ensures asks { AsksLink (L.asked self.old.link) (L.asked self.new.link) (is_broken self.old.kept.items) result }
        ensures sends { L.sent self.new.link ≡ L.sent self.old.link }
        ensures later { L.link_faults self.old.link ≤ L.link_faults self.new.link }
        ensures cause { result ≡ Err PortErr.Failed → Rose (L.link_faults self.old.link) (L.link_faults self.new.link) }
    {
        into.clear();
        for _ in 0..PIECES {
            if let Some(answer) = self.turn(into, wait) {
                return answer;
            }
        }
        unreachable!()
    }
}

impl<L: Link> Port for StreamPort<L> {
    ghost use Rattle.std.specs.Prelude.{None, ◌||◌};
    ghost use Rattle.gateway_stream.specs.Hearing.{heard_of, is_broken};

    ghost heard = { λ p. heard_of (L.given p.link) p.kept.items };

    ghost sent = { λ p. None };

    ghost over = { λ p. L.over p.link || is_broken p.kept.items };

    ghost port_faults = { λ p. L.link_faults p.link };

    fn wait(&mut self, into: &mut Gram) -> Result<Heard, PortErr> {
        self.hear(into, true)
    }

    fn poll(&mut self, into: &mut Gram) -> Result<Heard, PortErr> {
        self.hear(into, false)
    }

    fn send(&mut self, _to: Peer, bytes: &[u8]) -> Result<(), PortErr>
        ensures sends { Sends None None _to bytes.now result }
        ensures puts { PutsBytes (L.sent self.old.link) (L.sent self.new.link) bytes.now result }
        ensures hears { heard_of (L.given self.new.link) self.new.kept.items ≡ heard_of (L.given self.old.link) self.old.kept.items }
        ensures ended { (L.over self.new.link || is_broken self.new.kept.items) ≡ (L.over self.old.link || is_broken self.old.kept.items) }
        ensures later { L.link_faults self.old.link ≤ L.link_faults self.new.link }
        ensures cause { result ≡ Err PortErr.Failed → Rose (L.link_faults self.old.link) (L.link_faults self.new.link) }
    {
        match self.link.put(bytes) {
            Ok(()) => Ok(()),
            Err(error) => Err(error_of(error)),
        }
    }
}
