use ec_links::{Link, Piece, TcpLink};
use ec_outside::{Gram, Heard, Peer, Port, UdpPort};
use std::io::{Read, Write};
use std::net::{TcpStream, UdpSocket};
use std::test::Fail;

/// A link listens at its first call, takes the connection of a second socket, gives its octets and puts the reply.
#[test]
fn a_connection_gives_its_octets(rt: HostRuntime) -> Result<(), Fail> {
    let mut link = TcpLink::new(&rt);
    let mut into = Gram::new();
    assert_eq!(rt; link.get(&mut into, 9, false), Ok(Piece::Quiet));
    let mut peer = TcpStream::connect(&rt, "127.0.0.1:34980")?;
    peer.write_all(&[7])?;
    assert_eq!(rt; link.get(&mut into, 9, true), Ok(Piece::Bytes));
    assert_eq!(rt; into.as_slice(), [7u8].as_slice());
    assert_eq!(rt; link.put(&[8, 9]), Ok(()));
    let mut reply = [0u8; 2];
    peer.read_exact(&mut reply)?;
    assert_eq!(rt; reply, [8u8, 9]);
    drop(peer);
    assert_eq!(rt; link.get(&mut into, 9, true), Ok(Piece::Ended));
    assert_eq!(rt; link.get(&mut into, 9, false), Ok(Piece::Ended));
    Ok(())
}

/// A port listens at its first call, hears a second socket, a long datagram as its first 2,048 octets, and sends the reply.
#[test]
fn a_port_hears_and_sends_datagrams(rt: HostRuntime) -> Result<(), Fail> {
    let mut port = UdpPort::new(&rt, 0x7F00_0001, 34_980);
    let mut into = Gram::new();
    assert_eq!(rt; port.poll(&mut into), Ok(Heard::Quiet));
    let peer = UdpSocket::bind(&rt, "127.0.0.1:34981")?;
    peer.send_to(&[7, 8], "127.0.0.1:34980")?;
    let from = Peer {
        ip: 0x7F00_0001,
        port: 34_981,
    };
    assert_eq!(rt; port.wait(&mut into), Ok(Heard::From(from)));
    assert_eq!(rt; into.as_slice(), [7u8, 8].as_slice());
    peer.send_to(&[9; 3_000], "127.0.0.1:34980")?;
    assert_eq!(rt; port.wait(&mut into), Ok(Heard::From(from)));
    assert_eq!(rt; into.as_slice(), [9u8; 2_048].as_slice());
    assert_eq!(rt; port.poll(&mut into), Ok(Heard::Quiet));
    assert_eq!(rt; port.send(from, &[1, 2, 3]), Ok(()));
    let mut reply = [0u8; 9];
    let (count, _) = peer.recv_from(&mut reply)?;
    assert_eq!(rt; count, 3);
    assert_eq!(rt; reply, [1u8, 2, 3, 0, 0, 0, 0, 0, 0]);
    Ok(())
}

/// A datagram that no peer can be sent, to port 0 or to a broadcast address, is lost, and the port goes on.
#[test]
fn a_datagram_that_goes_nowhere_is_no_fault(rt: HostRuntime) -> Result<(), Fail> {
    let mut port = UdpPort::new(&rt, 0x7F00_0001, 34_982);
    let nowhere = Peer {
        ip: 0x7F00_0001,
        port: 0,
    };
    let broadcast = Peer {
        ip: 0xFFFF_FFFF,
        port: 34_983,
    };
    assert_eq!(rt; port.send(nowhere, &[1]), Ok(()));
    assert_eq!(rt; port.send(broadcast, &[1]), Ok(()));
    let peer = UdpSocket::bind(&rt, "127.0.0.1:34983")?;
    let to = Peer {
        ip: 0x7F00_0001,
        port: 34_983,
    };
    assert_eq!(rt; port.send(to, &[7, 8]), Ok(()));
    let mut heard = [0u8; 9];
    let (count, _) = peer.recv_from(&mut heard)?;
    assert_eq!(rt; count, 2);
    peer.send_to(&[9], "127.0.0.1:34982")?;
    let mut into = Gram::new();
    assert_eq!(rt; port.wait(&mut into), Ok(Heard::From(to)));
    assert_eq!(rt; into.as_slice(), [9u8].as_slice());
    Ok(())
}
