// Where a link listens, and where it dials.
ghost use Rattle.std.specs.Prelude.{◌≡◌, ◌≤◌, ◌+◌, ◌^◌, MatchOption, option_map};
ghost use Rattle.ld_real.specs.Places.{address_of};

use std::io;
use std::io::{Error, ErrorKind};
use std::net::{Ipv4Addr, Net, SocketAddr, TcpListener, TcpStream, ToSocketAddrs};
use std::time::Duration;

/// Where a link listens.
#[derive(Clone, Copy)]
pub enum Listening<'a> {
    /// At this port of 127.0.0.1; 0 is a port that the system chooses.
    Port(u16),
    /// At this address, `HOST:PORT`, where the host is an IP address or a name.
    At(&'a str),
}

/// The address of a node.
#[derive(Clone, Copy)]
pub struct DialAddress<'a> {
    /// The node's number.
    pub node: u8,
    /// `HOST:PORT`, where the host is an IP address or a name.
    pub address: &'a str,
}

/// Where a link dials nodes.
#[derive(Clone, Copy)]
pub enum Dialing<'a> {
    /// At 127.0.0.1: node N at the Nth port above this one.
    Above(u16),
    /// Each node at the first address that is said of it; one of which none is said can't be dialed.
    At(&'a [DialAddress<'a>]),
}

/// The port that comes so many behind this one, where there is one.
pub(crate) fn port_behind(port: u16, node: u8) -> Option<u16>
    ensures { MatchOption result (2 ^ 16 ≤ port + node) (λ behind. behind ≡ port + node) }
{
    port.checked_add(u16::from(node))
}

/// The address of a node, where one is said of it.
pub(crate) fn address_of<'a>(addresses: &[DialAddress<'a>], node: u8) -> Option<&'a str>
    ensures { option_map (λ s. s.now) result ≡ address_of addresses.now node }
{
    for of in addresses {
        if of.node == node {
            return Some(of.address);
        }
    }
    None
}

/// A socket that listens.
pub(crate) fn bound_at<R: Net<Listener = TcpListener, Stream = TcpStream>>(
    rt: &R,
    listening: Listening<'_>,
) -> io::Result<TcpListener> {
    match listening {
        Listening::Port(port) => TcpListener::bind(rt, (Ipv4Addr::LOCALHOST, port)),
        Listening::At(address) => TcpListener::bind(rt, address),
    }
}

/// The socket address of a place to listen at: where its host is a name, the first one that the resolver gives.
pub fn resolved<R: Net>(rt: &R, listening: Listening<'_>) -> io::Result<SocketAddr> {
    match listening {
        Listening::Port(port) => Ok(SocketAddr::from((Ipv4Addr::LOCALHOST, port))),
        Listening::At(address) => match address.to_socket_addrs(rt)?.next() {
            Some(address) => Ok(address),
            None => Err(ErrorKind::AddrNotAvailable.into()),
        },
    }
}

/// Connects to an address. Where its host is a name, each address that the resolver gives is tried in turn, within the
/// limit each; where none takes the call, the last one's fault comes.
pub(crate) fn connected_to<R: Net<Listener = TcpListener, Stream = TcpStream>>(
    rt: &R,
    address: &str,
    limit: Duration,
) -> io::Result<TcpStream> {
    let mut last = Error::from(ErrorKind::AddrNotAvailable);
    for address in address.to_socket_addrs(rt)? {
        match TcpStream::connect_timeout(rt, &address, limit) {
            Ok(stream) => return Ok(stream),
            Err(error) => last = error,
        }
    }
    Err(last)
}
