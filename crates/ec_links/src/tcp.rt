ghost use Rattle.std.specs.Prelude.{◌≡◌, ◌≤◌, ◌+◌, true, length, None, Ok, IsErr, IsSome, IfOk, OnErr};
ghost use Rattle.ec_outside.specs.Faults.{Rose};
ghost use Rattle.ec_links.specs.Link.{Gives};

use crate::link::{Link, LinkErr, Piece};
use ec_fields::append;
use ec_outside::Gram;
use std::io;
use std::io::{Read, Write};
use std::net::{Ipv4Addr, Net, OpenListener, OpenStream, SocketAddrV4, TcpListener};

/// The port on which a link waits for its peer: that of the mailbox gateway (ETG.8200).
const GATEWAY: u16 = 34980;

/// A link on a TCP connection of the system, which one peer opens. What it gives and puts isn't
/// told. Nothing is opened at first: the first call listens on 127.0.0.1, port 34980.
#[derive(Drop)]
pub struct TcpLink<'a, R: Net> {
    net: &'a R,
    listener: Option<R::Listener>,
    stream: Option<R::Stream>,
    over: bool,
    faults: u64,
}

impl<'a, R: Net> TcpLink<'a, R> {
    /// The link, closed so far.
    pub fn new(net: &'a R) -> TcpLink<'a, R> {
        TcpLink {
            net,
            listener: None,
            stream: None,
            over: false,
            faults: 0,
        }
    }

    // Listens where that wasn't done.
    fn listen(&mut self) -> io::Result<()>
        ensures over { self.new.over ≡ self.old.over }
        ensures faults { self.new.faults ≡ self.old.faults }
    {
        if self.listener.is_none() {
            let address = SocketAddrV4::new(Ipv4Addr::LOCALHOST, GATEWAY);
            self.listener = Some(TcpListener::bind(self.net, address)?);
        }
        Ok(())
    }

    // Takes the peer's connection where that wasn't done, and then no other one. It says whether
    // there is one; where it is to wait there is.
    fn connect(&mut self, wait: bool) -> io::Result<bool>
        ensures waits { wait ≡ true → IfOk result (λ connected. connected ≡ true) }
        ensures over { self.new.over ≡ self.old.over }
        ensures faults { self.new.faults ≡ self.old.faults }
    {
        if self.stream.is_some() {
            return Ok(true);
        }
        self.listen()?;
        let taken = match &self.listener {
            Some(listener) => take_peer(listener, wait)?,
            None => return Err(io::Error::from(io::ErrorKind::NotConnected)),
        };
        match taken {
            Some(stream) => {
                self.stream = Some(stream);
                self.listener = None;
                Ok(true)
            }
            None => Ok(false),
        }
    }

    fn receive(&mut self, into: &mut Gram, most: usize, wait: bool) -> io::Result<Piece>
        requires some { 1 ≤ most }
        requires fits { length into.old.items + most ≤ 2048 }
        ensures gives { IfOk result (λ piece. Gives None None into.old.items into.new.items most (Ok piece)) }
        ensures waits { wait ≡ true → IfOk result (λ piece. piece ≡ Piece.Quiet → ⊥) }
        ensures failed { OnErr result (into.new.items ≡ into.old.items) }
        ensures over { self.new.over ≡ self.old.over }
        ensures faults { self.new.faults ≡ self.old.faults }
    {
        if !self.connect(wait)? {
            return Ok(Piece::Quiet);
        }
        match &mut self.stream {
            Some(stream) => read_piece(stream, into, most, wait),
            None => Err(io::Error::from(io::ErrorKind::NotConnected)),
        }
    }

    fn hand_out(&mut self, bytes: &[u8]) -> io::Result<()>
        ensures over { self.new.over ≡ self.old.over }
        ensures faults { self.new.faults ≡ self.old.faults }
    {
        self.connect(true)?;
        match &mut self.stream {
            Some(stream) => {
                stream.set_nonblocking(false)?;
                stream.write_all(bytes)
            }
            None => Err(io::Error::from(io::ErrorKind::NotConnected)),
        }
    }

    // Counts a fault.
    fn counted<T>(&mut self, outcome: io::Result<T>) -> Result<T, LinkErr>
        ensures ok { IfOk result (λ value. outcome ≡ Ok value) }
        ensures err { OnErr result (IsErr outcome) }
        ensures over { self.new.over ≡ self.old.over }
        ensures later { self.old.faults ≤ self.new.faults }
        ensures cause { OnErr result (Rose self.old.faults self.new.faults) }
        ensures memory { result ≡ Err LinkErr.NoMemory → ⊥ }
    {
        match outcome {
            Ok(value) => Ok(value),
            Err(_) => {
                self.faults = self.faults.saturating_add(1);
                Err(LinkErr::Failed)
            }
        }
    }
}

// The next peer; none where nobody waits and none is there.
fn take_peer<L: OpenListener>(listener: &L, wait: bool) -> io::Result<Option<L::Stream>>
    ensures waits { wait ≡ true → IfOk result IsSome }
{
    listener.set_nonblocking(!wait)?;
    match listener.accept() {
        Ok((stream, _)) => Ok(Some(stream)),
        Err(error) if !wait && error.kind() == io::ErrorKind::WouldBlock => Ok(None),
        Err(error) => Err(error),
    }
}

// The next octets of a stream, as many as are there, at most `most`.
fn read_piece<S: Read + OpenStream>(
    stream: &mut S,
    into: &mut Gram,
    most: usize,
    wait: bool,
) -> io::Result<Piece>
    requires some { 1 ≤ most }
    requires fits { length into.old.items + most ≤ 2048 }
    ensures gives { IfOk result (λ piece. Gives None None into.old.items into.new.items most (Ok piece)) }
    ensures waits { wait ≡ true → IfOk result (λ piece. piece ≡ Piece.Quiet → ⊥) }
    ensures failed { OnErr result (into.new.items ≡ into.old.items) }
{
    let mut octets = [0u8; 2048];
    stream.set_nonblocking(!wait)?;
    match stream.read(&mut octets[..most]) {
        Ok(0) => Ok(Piece::Ended),
        Ok(count) => {
            append(into, &octets[..count]);
            Ok(Piece::Bytes)
        }
        Err(error) if !wait && error.kind() == io::ErrorKind::WouldBlock => Ok(Piece::Quiet),
        Err(error) => Err(error),
    }
}

impl<'a, R: Net> Link for TcpLink<'a, R> {
    ghost use Rattle.std.specs.Prelude.{None};

    ghost given = { λ l. None };

    ghost sent = { λ l. None };

    ghost over = { λ l. l.over };

    ghost asked = { λ l. None };

    ghost link_faults = { λ l. l.faults };

    fn get(&mut self, into: &mut Gram, most: usize, wait: bool) -> Result<Piece, LinkErr> {
        if self.over {
            return Ok(Piece::Ended);
        }
        let received = self.receive(into, most, wait);
        let piece = self.counted(received)?;
        if piece == Piece::Ended {
            self.over = true;
        }
        Ok(piece)
    }

    fn put(&mut self, bytes: &[u8]) -> Result<(), LinkErr> {
        let put = self.hand_out(bytes);
        self.counted(put)
    }

    fn fail(&mut self) {
        self.faults = self.faults.saturating_add(1);
    }
}
