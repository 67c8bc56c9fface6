ghost use Rattle.std.specs.Prelude.{◌≡◌, ◌≤◌, ◌||◌, [], true, if◌then◌else◌, IsTrue, Ok, Err, IsErr, IfOk, OnErr};
ghost use Rattle.ec_outside.specs.Faults.{Rose};
ghost use Rattle.ec_outside.specs.Port.{IsBlank, has_ended};
ghost use Rattle.ec_outside.specs.declared.port.Heard.TheVariants as hears;

use ec_fields::append;
use ec_outside::{Gram, Heard, Peer, Port, PortErr};
use std::io;
use std::net::{Ipv4Addr, Net, SocketAddr, SocketAddrV4, UdpSocket};
use std::time::{Clock, Duration, Instant};

/// So many seconds a wait takes at most, behind the last datagram that was sent.
const PATIENCE: u64 = 3;

// The socket, and when the time of a wait began: as it was opened, and again with each datagram sent.
#[derive(Drop)]
struct Line {
    socket: UdpSocket,
    since: Instant,
}

/// A port on a UDP socket of the system that is connected to one peer. What it hears and sends isn't told.
///
/// It ends where 3 s have passed by the monotonic clock since the last datagram was sent, or since the socket was opened. Datagrams of others
/// aren't heard. A peer that doesn't listen is a fault of the next call, and so is a datagram that is to go to anyone else.
#[derive(Drop)]
pub struct PatientPort<'a, R: Net + Clock> {
    rt: &'a R,
    peer: Peer,
    line: Option<Line>,
    over: bool,
    faults: u64,
}

impl<'a, R: Net + Clock> PatientPort<'a, R> {
    /// The port to this peer. Nothing is opened: the first call binds the socket, and a bind that fails is a fault of that call.
    pub fn new(rt: &'a R, peer: Peer) -> PatientPort<'a, R> {
        PatientPort {
            rt,
            peer,
            line: None,
            over: false,
            faults: 0,
        }
    }

    // Binds the socket where that wasn't done.
    fn open(&mut self) -> io::Result<()>
        ensures over { self.new.over ≡ self.old.over }
        ensures faults { self.new.faults ≡ self.old.faults }
    {
        if self.line.is_none() {
            let socket = UdpSocket::bind(self.rt, (Ipv4Addr::UNSPECIFIED, 0))?;
            socket.connect(address_of(self.peer))?;
            let since = Instant::now(self.rt)?;
            self.line = Some(Line { socket, since });
        }
        Ok(())
    }

    fn listen(&mut self, into: &mut Gram, waits: bool) -> io::Result<Heard>
        requires { into.old.items ≡ [] }
        ensures blank { IfOk result (λ heard. IsBlank (Ok heard) into.new.items) }
        ensures waits { waits ≡ true → IfOk result (λ heard. heard ≡ hears.Quiet → ⊥) }
        ensures failed { OnErr result (into.new.items ≡ []) }
        ensures over { self.new.over ≡ self.old.over }
        ensures faults { self.new.faults ≡ self.old.faults }
    {
        self.open()?;
        match &self.line {
            Some(line) => hear(self.rt, line, self.peer, into, waits),
            None => Err(io::Error::from(io::ErrorKind::NotConnected)),
        }
    }

    fn hand_out(&mut self, to: Peer, bytes: &[u8]) -> io::Result<()>
        ensures over { self.new.over ≡ self.old.over }
        ensures faults { self.new.faults ≡ self.old.faults }
    {
        if to != self.peer {
            return Err(io::Error::from(io::ErrorKind::AddrNotAvailable));
        }
        self.open()?;
        match &mut self.line {
            Some(line) => {
                line.socket.set_nonblocking(false)?;
                line.socket.send(bytes)?;
                line.since = Instant::now(self.rt)?;
                Ok(())
            }
            None => Err(io::Error::from(io::ErrorKind::NotConnected)),
        }
    }

    // What a call that listens answers: once the port is over nothing is heard any more.
    fn answer(&mut self, into: &mut Gram, waits: bool) -> Result<Heard, PortErr>
        ensures blank { IsBlank result into.new.items }
        ensures waits { waits ≡ true → result ≡ Ok hears.Quiet → ⊥ }
        ensures ended { self.new.over ≡ (has_ended result || self.old.over) }
        ensures stays { IsTrue self.old.over → IfOk result (λ answer. answer ≡ hears.Ended) }
        ensures later { self.old.faults ≤ self.new.faults }
        ensures cause { result ≡ Err PortErr.Failed → Rose self.old.faults self.new.faults }
    {
        into.clear();
        if self.over {
            return Ok(Heard::Ended);
        }
        let listened = self.listen(into, waits);
        let heard = self.counted(listened)?;
        if heard == Heard::Ended {
            self.over = true;
        }
        Ok(heard)
    }

    // Counts a fault.
    fn counted<T>(&mut self, outcome: io::Result<T>) -> Result<T, PortErr>
        ensures ok { IfOk result (λ value. outcome ≡ Ok value) }
        ensures err { OnErr result (IsErr outcome) }
        ensures over { self.new.over ≡ self.old.over }
        ensures later { self.old.faults ≤ self.new.faults }
        ensures cause { OnErr result (Rose self.old.faults self.new.faults) }
        ensures memory { result ≡ Err PortErr.NoMemory → ⊥ }
    {
        match outcome {
            Ok(value) => Ok(value),
            Err(_) => {
                self.faults = self.faults.saturating_add(1);
                Err(PortErr::Failed)
            }
        }
    }
}

fn address_of(peer: Peer) -> SocketAddrV4 {
    SocketAddrV4::new(Ipv4Addr::from(peer.ip), peer.port)
}

// What is left of the time of a wait, and nothing where it has passed.
fn left<R: Clock>(rt: &R, line: &Line) -> io::Result<Duration> {
    Ok(Duration::from_secs(PATIENCE).saturating_sub(line.since.elapsed(rt)?))
}

// Makes the next call on the socket wait for what is left of the time, or for nothing; `false` where the time has passed.
fn prepare<R: Clock>(rt: &R, line: &Line, waits: bool) -> io::Result<bool> {
    line.socket.set_nonblocking(!waits)?;
    if !waits {
        return Ok(true);
    }
    let left = left(rt, line)?;
    if left.is_zero() {
        return Ok(false);
    }
    line.socket.set_read_timeout(Some(left))?;
    Ok(true)
}

// What it is that no datagram came: without a wait it is quiet, and with one the time has passed.
fn nothing(waits: bool) -> Heard
    ensures value { result ≡ if waits then hears.Ended else hears.Quiet }
{
    if waits { Heard::Ended } else { Heard::Quiet }
}

// A longer datagram is cut by the system to the room that there is. One that came from another peer before the socket was connected is passed
// over, and so is a signal.
fn hear<R: Clock>(
    rt: &R,
    line: &Line,
    peer: Peer,
    into: &mut Gram,
    waits: bool,
) -> io::Result<Heard>
    requires { into.old.items ≡ [] }
    ensures blank { IfOk result (λ heard. IsBlank (Ok heard) into.new.items) }
    ensures waits { waits ≡ true → IfOk result (λ heard. heard ≡ hears.Quiet → ⊥) }
    ensures failed { OnErr result (into.new.items ≡ []) }
{
    let mut octets = [0u8; 2048];
    for _ in 0..u64::MAX {
        if !prepare(rt, line, waits)? {
            return Ok(Heard::Ended);
        }
        match line.socket.recv_from(&mut octets) {
            Ok((count, from)) if from == SocketAddr::V4(address_of(peer)) => {
                append(into, &octets[..count]);
                return Ok(Heard::From(peer));
            }
            Ok(_) => {}
            Err(error) if error.kind() == io::ErrorKind::WouldBlock => return Ok(nothing(waits)),
            Err(error) if error.kind() == io::ErrorKind::Interrupted => {}
            Err(error) => return Err(error),
        }
    }
    Err(io::Error::from(io::ErrorKind::TimedOut))
}

impl<'a, R: Net + Clock> Port for PatientPort<'a, R> {
    ghost use Rattle.std.specs.Prelude.{None};

    ghost heard = { λ p. None };

    ghost sent = { λ p. None };

    ghost over = { λ p. p.over };

    ghost port_faults = { λ p. p.faults };

    fn wait(&mut self, into: &mut Gram) -> Result<Heard, PortErr> {
        self.answer(into, true)
    }

    fn poll(&mut self, into: &mut Gram) -> Result<Heard, PortErr> {
        self.answer(into, false)
    }

    fn send(&mut self, to: Peer, bytes: &[u8]) -> Result<(), PortErr> {
        let sent = self.hand_out(to, bytes);
        self.counted(sent)
    }
}
