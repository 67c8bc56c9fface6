ghost use Rattle.std.specs.Prelude.{◌≡◌, ◌≤◌, [], IsErr, IfOk, OnErr};
ghost use Rattle.ec_outside.specs.Faults.{Rose};
ghost use Rattle.ec_outside.specs.Port.{IsListened};

use crate::mem_port::fill;
use crate::port::{Gram, Heard, Peer, Port, PortErr};
use std::io;
use std::net::{Ipv4Addr, Net, SocketAddr, SocketAddrV4, UdpSocket};

/// A port on a UDP socket of the system. What it hears and sends isn't told, and it never ends.
///
/// A datagram that its peer can't be sent, or refuses, is lost as any datagram may be: that is no
/// fault of the port. Only what the socket itself fails at counts.
#[derive(Drop)]
pub struct UdpPort<'a, R: Net> {
    net: &'a R,
    address: SocketAddrV4,
    socket: Option<UdpSocket>,
    faults: u64,
}

impl<'a, R: Net> UdpPort<'a, R> {
    /// The port at this address, whose first octet is the highest of the number. Nothing is
    /// opened: the first call binds the socket, and a bind that fails is a fault of that call.
    pub fn new(net: &'a R, ip: u32, port: u16) -> UdpPort<'a, R> {
        UdpPort {
            net,
            address: SocketAddrV4::new(Ipv4Addr::from(ip), port),
            socket: None,
            faults: 0,
        }
    }

    // Binds the socket where that wasn't done.
    fn open(&mut self) -> io::Result<()>
        ensures faults { self.new.faults ≡ self.old.faults }
    {
        if self.socket.is_none() {
            self.socket = Some(UdpSocket::bind(self.net, self.address)?);
        }
        Ok(())
    }

    fn listen(&mut self, into: &mut Gram, waits: bool) -> io::Result<Heard>
        ensures heard { IfOk result (λ heard. IsListened waits heard into.new.items) }
        ensures failed { OnErr result (into.new.items ≡ []) }
        ensures faults { self.new.faults ≡ self.old.faults }
    {
        into.clear();
        self.open()?;
        match &self.socket {
            Some(socket) => hear(socket, into, waits),
            None => Err(io::Error::from(io::ErrorKind::NotConnected)),
        }
    }

    fn hand_out(&mut self, to: Peer, bytes: &[u8]) -> io::Result<()>
        ensures faults { self.new.faults ≡ self.old.faults }
    {
        self.open()?;
        match &self.socket {
            Some(socket) => send_or_lose(socket, to, bytes),
            None => Err(io::Error::from(io::ErrorKind::NotConnected)),
        }
    }

    // Counts a fault.
    fn counted<T>(&mut self, outcome: io::Result<T>) -> Result<T, PortErr>
        ensures ok { IfOk result (λ value. outcome ≡ Ok value) }
        ensures err { OnErr result (IsErr outcome) }
        ensures later { self.old.faults ≤ self.new.faults }
        ensures cause { OnErr result (Rose self.old.faults self.new.faults) }
        ensures memory { result ≡ Err PortErr.NoMemory → ⊥ }
    {
        match outcome {
            Ok(value) => Ok(value),
            Err(_) => {
                self.faults = self.faults.saturating_add(1);
                Err(PortErr::Failed)
            }
        }
    }
}

fn peer_at(address: SocketAddr) -> io::Result<Peer> {
    match address {
        SocketAddr::V4(address) => Ok(Peer {
            ip: u32::from(*address.ip()),
            port: address.port(),
        }),
        SocketAddr::V6(_) => Err(io::Error::from(io::ErrorKind::InvalidData)),
    }
}

// A peer, or a router before it, says that a datagram sent before didn't arrive.
fn is_undelivered(error: &io::Error) -> bool {
    matches!(
        error.kind(),
        io::ErrorKind::ConnectionRefused
            | io::ErrorKind::ConnectionReset
            | io::ErrorKind::HostUnreachable
            | io::ErrorKind::NetworkUnreachable
    )
}

// No datagram goes to this address, as port 0, a broadcast or one behind an interface that is down.
fn is_unsendable(error: &io::Error) -> bool {
    matches!(
        error.kind(),
        io::ErrorKind::InvalidInput
            | io::ErrorKind::AddrNotAvailable
            | io::ErrorKind::PermissionDenied
            | io::ErrorKind::NetworkDown
    )
}

// Where the system has no room for the datagram, this waits for it.
fn send_or_lose(socket: &UdpSocket, to: Peer, bytes: &[u8]) -> io::Result<()> {
    socket.set_nonblocking(false)?;
    match socket.send_to(bytes, (Ipv4Addr::from(to.ip), to.port)) {
        Ok(_) => Ok(()),
        Err(error) if is_undelivered(&error) || is_unsendable(&error) => Ok(()),
        Err(error) => Err(error),
    }
}

// A longer datagram is cut by the system to the room that there is. Word of a datagram that was
// lost is passed over: the next one is still to come.
fn hear(socket: &UdpSocket, into: &mut Gram, waits: bool) -> io::Result<Heard>
    requires { into.old.items ≡ [] }
    ensures heard { IfOk result (λ heard. IsListened waits heard into.new.items) }
    ensures failed { OnErr result (into.new.items ≡ []) }
{
    let mut octets = [0u8; 2048];
    socket.set_nonblocking(!waits)?;
    for _ in 0..u64::MAX {
        match socket.recv_from(&mut octets) {
            Ok((count, from)) => {
                let peer = peer_at(from)?;
                fill(into, &octets[..count]);
                return Ok(Heard::From(peer));
            }
            Err(error) if !waits && error.kind() == io::ErrorKind::WouldBlock => {
                return Ok(Heard::Quiet);
            }
            Err(error) if is_undelivered(&error) => {}
            Err(error) => return Err(error),
        }
    }
    Err(io::Error::from(io::ErrorKind::TimedOut))
}

impl<'a, R: Net> Port for UdpPort<'a, R> {
    ghost use Rattle.std.specs.Prelude.{None, false};

    ghost heard = { λ p. None };

    ghost sent = { λ p. None };

    ghost over = { λ p. false };

    ghost port_faults = { λ p. p.faults };

    fn wait(&mut self, into: &mut Gram) -> Result<Heard, PortErr> {
        let heard = self.listen(into, true);
        self.counted(heard)
    }

    fn poll(&mut self, into: &mut Gram) -> Result<Heard, PortErr> {
        let heard = self.listen(into, false);
        self.counted(heard)
    }

    fn send(&mut self, to: Peer, bytes: &[u8]) -> Result<(), PortErr> {
        let sent = self.hand_out(to, bytes);
        self.counted(sent)
    }
}
