// Members that are reached over sockets.
ghost use Rattle.std.specs.Prelude.{◌≡◌, ◌≤◌, length, IfOk, IfSome};

use crate::Members;
use ld_past::Past;
use std::io;
use std::io::{ErrorKind, Read, Write};
use std::net::{Net, SocketAddr, TcpListener, TcpStream, ToSocketAddrs};
use std::time::Duration;

/// How many seconds a call to a member takes at most.
const LIMIT: u64 = 3;

/// The members of an etcd at their places, each HOST:PORT. A connection, a write and a read take 3 seconds at most.
#[derive(Drop)]
pub struct TcpMembers<'a, R: Net<Listener = TcpListener, Stream = TcpStream>> {
    rt: &'a R,
    places: Vec<String>,
    stream: Option<TcpStream>,
    did: Past,
}

impl<'a, R: Net<Listener = TcpListener, Stream = TcpStream>> TcpMembers<'a, R> {
    /// The members at these places, none of which is connected.
    pub fn new(rt: &'a R, places: Vec<String>) -> TcpMembers<'a, R> {
        TcpMembers {
            rt,
            places,
            stream: None,
            did: Past::new(),
        }
    }
}

impl<'a, R: Net<Listener = TcpListener, Stream = TcpStream>> Members for TcpMembers<'a, R> {
    ghost did = { λ m. m.did.events };

    fn count(&self) -> usize {
        self.places.len()
    }

    fn host(&self, member: usize) -> &str {
        match self.places.get(member) {
            Some(place) => place.as_str(),
            None => "",
        }
    }

    fn connect(&mut self, member: usize) -> Result<(), ErrorKind> {
        self.did.note(&[0, member as u64], &[]);
        self.stream = None;
        match connected(self.rt, self.host(member)) {
            Ok(stream) => {
                self.stream = Some(stream);
                Ok(())
            }
            Err(error) => Err(error.kind()),
        }
    }

    fn write(&mut self, bytes: &[u8]) -> Result<(), ErrorKind> {
        self.did.note(&[1], bytes);
        let Some(stream) = &mut self.stream else {
            return Err(ErrorKind::NotConnected);
        };
        match stream.write_all(bytes) {
            Ok(()) => Ok(()),
            Err(error) => Err(error.kind()),
        }
    }

    fn read(&mut self, buf: &mut [u8]) -> Result<usize, ErrorKind> {
        let Some(stream) = &mut self.stream else {
            return Err(ErrorKind::NotConnected);
        };
        read_some(stream, buf)
    }
}

/// Reads from a stream, and again where a signal came.
fn read_some(stream: &mut TcpStream, buf: &mut [u8]) -> Result<usize, ErrorKind>
    ensures bound { IfOk result (λ n. n ≤ length buf.new) }
    ensures len { length buf.new ≡ length buf.old }
{
    for _ in 0..u64::MAX {
        match stream.read(buf) {
            Ok(count) => return Ok(count),
            Err(error) if error.kind() == ErrorKind::Interrupted => {}
            Err(error) => return Err(error.kind()),
        }
    }
    Err(ErrorKind::Interrupted)
}

/// Connects to the first address of a place that takes the connection.
fn connected<R: Net<Listener = TcpListener, Stream = TcpStream>>(
    rt: &R,
    place: &str,
) -> io::Result<TcpStream> {
    let mut last = ErrorKind::NotFound.into();
    for address in place.to_socket_addrs(rt)? {
        match connected_to(rt, &address) {
            Ok(stream) => return Ok(stream),
            Err(error) => last = error,
        }
    }
    Err(last)
}

/// Connects to an address, with a limit on each call.
fn connected_to<R: Net<Listener = TcpListener, Stream = TcpStream>>(
    rt: &R,
    address: &SocketAddr,
) -> io::Result<TcpStream> {
    let limit = Duration::from_secs(LIMIT);
    let stream = TcpStream::connect_timeout(rt, address, limit)?;
    let _ = stream.set_nodelay(true);
    stream.set_read_timeout(Some(limit))?;
    stream.set_write_timeout(Some(limit))?;
    Ok(stream)
}
