ghost use Rattle.std.specs.Prelude.{◌≡◌, ◌≤◌, ◌||◌, IsTrue, IfOk};
ghost use Rattle.ec_outside.specs.Faults.{Rose};

use arrayvec::ArrayVec;
use ec_fields::Octets;

/// A peer of a port.
#[derive(Clone, Copy, Debug, PartialEq, Eq)]
pub struct Peer {
    /// Its IPv4 address as a number, the first octet of the address the highest.
    pub ip: u32,
    /// Its port there.
    pub port: u16,
}

/// A datagram of at most 2,048 octets.
pub type Gram = ArrayVec<u8, 2048>;

/// What a port heard.
#[derive(Clone, Copy, Debug, PartialEq, Eq)]
pub enum Heard {
    /// A datagram of this peer.
    From(Peer),
    /// Nothing for now.
    Quiet,
    /// No datagram is left, and none will come.
    Ended,
}

/// Why a call of a port failed.
#[derive(Clone, Copy, Debug, PartialEq, Eq)]
pub enum PortErr {
    /// A fault of the port; its count of faults rose.
    Failed,
    /// Want of memory.
    NoMemory,
}

/// A datagram that was sent.
#[derive(Drop)]
pub struct SentGram {
    /// To whom.
    pub to: Peer,
    /// Its octets.
    pub bytes: Octets,
}

/// What a port in memory has to give.
#[derive(Drop)]
pub enum PortItem {
    /// A datagram of a peer.
    Gram {
        /// From whom it comes.
        from: Peer,
        /// Its octets.
        bytes: Octets,
    },
    /// A time without a datagram.
    Pause,
}

/// Where datagrams come from and go to.
///
/// `heard` and `sent` are the datagrams heard and sent so far, in order, where they are told;
/// `over` says whether a call has answered that no datagram will come any more; `port_faults`
/// counts the faults. It never falls, and stands still at the greatest `u64`.
pub trait Port {
    ghost use Rattle.std.specs.Prelude.{ℕ, Bool, List, Option};
    ghost use Rattle.ec_outside.specs.Port.{HeardGram, Hears, IsBlank, Sends, has_ended};
    ghost use Rattle.ec_outside.specs.declared.port.SentGram.{SentGram};

    ghost heard: { Self → Option (List HeardGram) };

    ghost sent: { Self → Option (List SentGram) };

    ghost over: { Self → Bool };

    ghost port_faults: { Self → ℕ };

    /// Waits for the next datagram and puts it into `into`; of a longer one the first 2,048
    /// octets. It never answers `Quiet`, and `Ended` once no datagram will come. Where none was
    /// heard `into` is empty. `Failed` comes only where the count of faults rose in this call.
    fn wait(&mut self, into: &mut Gram) -> Result<Heard, PortErr>
        ensures hears { Hears (heard self.old) (heard self.new) into.new.items result }
        ensures blank { IsBlank result into.new.items }
        ensures waits { result ≡ Ok Heard.Quiet → ⊥ }
        ensures sends { sent self.new ≡ sent self.old }
        ensures ended { over self.new ≡ (has_ended result || over self.old) }
        ensures stays { IsTrue (over self.old) → IfOk result (λ answer. answer ≡ Heard.Ended) }
        ensures later { port_faults self.old ≤ port_faults self.new }
        ensures cause { result ≡ Err PortErr.Failed → Rose (port_faults self.old) (port_faults self.new) };

    /// As `wait`, but it waits for nothing: `Quiet` may always come, says nothing and changes
    /// nothing.
    fn poll(&mut self, into: &mut Gram) -> Result<Heard, PortErr>
        ensures hears { Hears (heard self.old) (heard self.new) into.new.items result }
        ensures blank { IsBlank result into.new.items }
        ensures sends { sent self.new ≡ sent self.old }
        ensures ended { over self.new ≡ (has_ended result || over self.old) }
        ensures stays { IsTrue (over self.old) → IfOk result (λ answer. answer ≡ Heard.Ended) }
        ensures later { port_faults self.old ≤ port_faults self.new }
        ensures cause { result ≡ Err PortErr.Failed → Rose (port_faults self.old) (port_faults self.new) };

    /// Hands one datagram out. After `Failed`, which comes only where the count of faults rose in
    /// this call, it was sent or not; after `NoMemory` it wasn't.
    fn send(&mut self, to: Peer, bytes: &[u8]) -> Result<(), PortErr>
        ensures sends { Sends (sent self.old) (sent self.new) to bytes.now result }
        ensures hears { heard self.new ≡ heard self.old }
        ensures ended { over self.new ≡ over self.old }
        ensures later { port_faults self.old ≤ port_faults self.new }
        ensures cause { result ≡ Err PortErr.Failed → Rose (port_faults self.old) (port_faults self.new) };
}
