// A link over sockets.
ghost use Rattle.std.specs.Prelude.{◌≡◌, ◌<◌, ◌≤◌, [], length, true, false, None, Ok, IfOk, IfSome, OnErr, is_ok};
ghost use Rattle.std.specs.Io.{ReadsAtMost, WritesAtMost};
ghost use Rattle.ld_io.specs.Causes.{HasCause};
ghost use Rattle.ld_link.specs.Calls.{after_next, after_read, after_write, after_dial};
ghost use Rattle.ld_real.specs.Dialed.{is_dialed, is_broken};
ghost use Rattle.ld_real.specs.declared.places.Dialing.TheVariants.{Above};
ghost use Rattle.ld_real.specs.declared.places.Listening.TheVariants.{Port};

use crate::backoff::Backoff;
use crate::places::{address_of, bound_at, connected_to, port_behind};
use crate::{Dialing, Listening, Tried};
use ld_io::Failed;
use ld_link::{Dial, Link};
use ld_past::Past;
use std::io::{ErrorKind, Read, Write};
use std::net::{Ipv4Addr, Net, SocketAddr, TcpListener, TcpStream};
use std::time::{Clock, Duration};
use std::{io, thread};

/// How many milliseconds a call of a dialed connection takes at most, where nothing else is said.
const LIMIT: u32 = 10_000;

/// The present peer.
#[derive(Drop)]
pub(crate) enum Peer {
    /// None has come, or its connection broke.
    Nobody,
    /// It connected to the address where the link listens.
    Came(TcpStream),
    /// It was dialed; none where nobody took the call, or the connection broke.
    Dialed(Option<TcpStream>),
}

/// A link whose peers are those that connect to the address where it listens, and those that are dialed. The address is
/// bound at the first call that waits for a peer, so a link that only dials never binds one. There is no last peer: where
/// none is there it waits.
///
/// A peer that came and whose connection breaks is one that has ended: a read gives nothing from then on, and what is
/// written to it is taken and goes nowhere, as bytes in a buffer of the system would. So no peer that came makes a call
/// fail. The faults are those of the address: it is taken, or the system gives no further connection.
///
/// Whoever dials has to know more. A dial that nobody takes is a fault, and so is a read or a write of a dialed
/// connection that breaks, or that the node keeps waiting for the link's limit, 10 seconds where nothing else is said.
/// After it each read and write fails, until the next peer is present. A dialed node that ends is no fault.
///
/// A node that kept the link waiting for its limit, at a dial, a read or a write, isn't dialed the next times: each such dial
/// fails at once, as one that nobody takes. They are 2 the first time, and twice as many each further time, up to 64; the dial
/// behind them is made. Once the node has sent something they are none again. A dial that is refused, or a connection that
/// breaks, leaves none out.
#[derive(Drop)]
pub struct TcpLink<'a, R: Net<Listener = TcpListener, Stream = TcpStream> + Clock> {
    rt: &'a R,
    listening: Listening<'a>,
    dialing: Dialing<'a>,
    limit: u32,
    listener: Option<TcpListener>,
    present: Peer,
    did: Past,
    faults: u64,
    tried: Tried,
    backoff: Backoff,
}

impl<'a, R: Net<Listener = TcpListener, Stream = TcpStream> + Clock> TcpLink<'a, R> {
    /// A link at this port of 127.0.0.1, which isn't bound yet, that dials nodes at the ports above it. No peer is there,
    /// and no call has failed yet.
    pub fn new(rt: &'a R, port: u16) -> TcpLink<'a, R>
        ensures listening { result.listening ≡ Port port }
        ensures dialing { result.dialing ≡ Above port }
        ensures nobody { is_dialed result.present ≡ false }
        ensures did { result.did.events ≡ [] }
        ensures faults { result.faults ≡ 0 }
    {
        TcpLink::over(rt, Listening::Port(port), Dialing::Above(port), LIMIT)
    }

    /// A link that listens at this address, which isn't bound yet. It isn't meant to dial: node N would be at port N of
    /// 127.0.0.1.
    pub fn listening(rt: &'a R, listening: Listening<'a>) -> TcpLink<'a, R>
        ensures listening { result.listening ≡ listening.entry }
        ensures nobody { is_dialed result.present ≡ false }
        ensures did { result.did.events ≡ [] }
        ensures faults { result.faults ≡ 0 }
    {
        TcpLink::over(rt, listening, Dialing::Above(0), LIMIT)
    }

    /// A link that dials nodes at these addresses, each call within so many milliseconds.
    pub fn dialing(rt: &'a R, dialing: Dialing<'a>, limit: u32) -> TcpLink<'a, R>
        ensures dialing { result.dialing ≡ dialing.entry }
        ensures limit { result.limit ≡ limit }
        ensures nobody { is_dialed result.present ≡ false }
        ensures did { result.did.events ≡ [] }
        ensures faults { result.faults ≡ 0 }
    {
        TcpLink::over(rt, Listening::Port(0), dialing, limit)
    }

    fn over(rt: &'a R, listening: Listening<'a>, dialing: Dialing<'a>, limit: u32) -> TcpLink<'a, R>
        ensures listening { result.listening ≡ listening.entry }
        ensures dialing { result.dialing ≡ dialing.entry }
        ensures limit { result.limit ≡ limit }
        ensures nobody { is_dialed result.present ≡ false }
        ensures did { result.did.events ≡ [] }
        ensures faults { result.faults ≡ 0 }
    {
        TcpLink {
            rt,
            listening,
            dialing,
            limit,
            listener: None,
            present: Peer::Nobody,
            did: Past::new(),
            faults: 0,
            tried: Tried::new(),
            backoff: Backoff::new(),
        }
    }

    /// Binds the address where it isn't bound. It fails where the address is taken or none of this machine, where the
    /// resolver doesn't know its name, or the system has no socket left, and the next call tries again.
    pub fn ready(&mut self) -> Result<(), Failed>
        ensures cause { HasCause self.old.faults self.new.faults result }
        ensures did { self.new.did ≡ self.old.did }
    {
        let answer = self.bind();
        self.count(answer)
    }

    /// The port that is bound: where the port 0 was asked for, the system chose one. It fails where `ready` does.
    pub fn port(&mut self) -> Result<u16, Failed>
        ensures cause { HasCause self.old.faults self.new.faults result }
    {
        let answer = match self.bind() {
            Ok(()) => bound_address(&self.listener),
            Err(error) => Err(error),
        };
        Ok(self.count(answer)?.port())
    }

    /// The address that is bound, where one is.
    pub fn bound(&self) -> Option<SocketAddr> {
        match bound_address(&self.listener) {
            Ok(address) => Some(address),
            Err(_) => None,
        }
    }

    /// What failed.
    pub fn tried(&self) -> Tried {
        self.tried
    }

    fn bind(&mut self) -> io::Result<()>
        ensures faults { self.new.faults ≡ self.old.faults }
        ensures did { self.new.did ≡ self.old.did }
    {
        if self.listener.is_none() {
            self.listener = Some(bound_at(self.rt, self.listening)?);
        }
        Ok(())
    }

    /// Closes the connection of the peer that was there, and waits for the next.
    fn accept(&mut self) -> io::Result<()>
        ensures faults { self.new.faults ≡ self.old.faults }
        ensures came { is_dialed self.new.present ≡ false }
        ensures did { self.new.did ≡ self.old.did }
    {
        self.present = Peer::Nobody;
        self.present = Peer::Came(accepted(&self.listener)?);
        Ok(())
    }

    /// Connects to a node, unless that is left out.
    fn connect(&mut self, node: u8) -> io::Result<TcpStream>
        ensures faults { self.new.faults ≡ self.old.faults }
        ensures did { self.new.did ≡ self.old.did }
        ensures present { self.new.present ≡ self.old.present }
    {
        if self.backoff.is_left_out(node) {
            return Err(ErrorKind::TimedOut.into());
        }
        let answer = connected(self.rt, self.dialing, node, self.limit);
        if let Err(error) = &answer {
            self.backoff.fails(error.kind());
        }
        answer
    }

    /// Reads from the present peer. One that came and whose connection breaks has ended.
    fn read_present(&mut self, buf: &mut [u8]) -> io::Result<usize>
        ensures bound { ReadsAtMost result buf.new }
        ensures faults { self.new.faults ≡ self.old.faults }
        ensures did { self.new.did ≡ self.old.did }
        ensures no_fault { is_dialed self.old.present ≡ false → is_ok result ≡ true }
        ensures broken { OnErr result (is_broken self.new.present ≡ true) }
        ensures stays { is_broken self.old.present ≡ true → is_ok result ≡ false }
        ensures same { is_dialed self.new.present ≡ is_dialed self.old.present }
    {
        match &mut self.present {
            Peer::Nobody => Ok(0),
            Peer::Came(stream) => match read_from(stream, buf) {
                Ok(count) => Ok(count),
                Err(_) => {
                    self.present = Peer::Nobody;
                    Ok(0)
                }
            },
            Peer::Dialed(stream) => read_dialed(stream, &mut self.backoff, buf),
        }
    }

    /// Writes to the present peer. What is written to one that came, and whose connection breaks, goes nowhere.
    fn write_present(&mut self, piece: &[u8]) -> io::Result<usize>
        ensures bound { WritesAtMost result piece.now }
        ensures some { IfOk result (λ n. 0 < length piece.now → 0 < n) }
        ensures faults { self.new.faults ≡ self.old.faults }
        ensures did { self.new.did ≡ self.old.did }
        ensures no_fault { is_dialed self.old.present ≡ false → is_ok result ≡ true }
        ensures broken { OnErr result (is_broken self.new.present ≡ true) }
        ensures stays { is_broken self.old.present ≡ true → is_ok result ≡ false }
        ensures same { is_dialed self.new.present ≡ is_dialed self.old.present }
    {
        match &mut self.present {
            Peer::Nobody => Ok(piece.len()),
            Peer::Came(stream) => match write_to(stream, piece) {
                Ok(count) => Ok(count),
                Err(_) => {
                    self.present = Peer::Nobody;
                    Ok(piece.len())
                }
            },
            Peer::Dialed(stream) => write_dialed(stream, &mut self.backoff, piece),
        }
    }

    /// Counts a call that failed.
    fn count<T: Drop>(&mut self, answer: io::Result<T>) -> Result<T, Failed>
        ensures cause { HasCause self.old.faults self.new.faults result }
        ensures value { IfOk result (λ v. answer ≡ Ok v) }
        ensures ok { is_ok result ≡ is_ok answer }
        ensures present { self.new.present ≡ self.old.present }
        ensures did { self.new.did ≡ self.old.did }
    {
        match answer {
            Ok(value) => Ok(value),
            Err(error) => {
                self.faults = self.faults.saturating_add(1);
                self.tried.fails(error.kind());
                Err(Failed)
            }
        }
    }
}

fn bound_address(listener: &Option<TcpListener>) -> io::Result<SocketAddr> {
    match listener {
        Some(listener) => listener.local_addr(),
        None => Err(ErrorKind::NotConnected.into()),
    }
}

/// Waits for the next peer, past those that were gone before they were accepted. Small answers go out at once.
fn accepted(listener: &Option<TcpListener>) -> io::Result<TcpStream> {
    let Some(listener) = listener else {
        return Err(ErrorKind::NotConnected.into());
    };
    for _ in 0..u64::MAX {
        match listener.accept() {
            Ok((stream, _)) => {
                let _ = stream.set_nodelay(true);
                return Ok(stream);
            }
            Err(error) if is_of_a_peer(error.kind()) => {}
            Err(error) => return Err(error),
        }
    }
    Err(ErrorKind::ConnectionAborted.into())
}

/// The connection broke before it was accepted.
fn is_of_a_peer(kind: ErrorKind) -> bool {
    matches!(
        kind,
        ErrorKind::ConnectionAborted | ErrorKind::ConnectionReset | ErrorKind::Interrupted
    )
}

/// Connects to a node, each call within so many milliseconds. Small messages go out at once.
fn connected<R: Net<Listener = TcpListener, Stream = TcpStream>>(
    rt: &R,
    dialing: Dialing<'_>,
    node: u8,
    limit: u32,
) -> io::Result<TcpStream> {
    let limit = Duration::from_millis(u64::from(limit));
    let stream = match dialing {
        Dialing::Above(port) => match port_behind(port, node) {
            Some(port) => {
                let address = SocketAddr::from((Ipv4Addr::LOCALHOST, port));
                TcpStream::connect_timeout(rt, &address, limit)?
            }
            None => return Err(ErrorKind::InvalidInput.into()),
        },
        Dialing::At(addresses) => match address_of(addresses, node) {
            Some(address) => connected_to(rt, address, limit)?,
            None => return Err(ErrorKind::InvalidInput.into()),
        },
    };
    let _ = stream.set_nodelay(true);
    stream.set_read_timeout(Some(limit))?;
    stream.set_write_timeout(Some(limit))?;
    Ok(stream)
}

/// Reads from a peer that was dialed. A connection that broke, or kept the link waiting, is closed.
fn read_dialed(
    stream: &mut Option<TcpStream>,
    backoff: &mut Backoff,
    buf: &mut [u8],
) -> io::Result<usize>
    ensures bound { ReadsAtMost result buf.new }
    ensures broken { OnErr result (stream.new ≡ None) }
    ensures stays { stream.old ≡ None → is_ok result ≡ false }
{
    let answer = match stream {
        Some(stream) => read_from(stream, buf),
        None => Err(ErrorKind::NotConnected),
    };
    match answer {
        Ok(count) => {
            if count > 0 {
                backoff.answered();
            }
            Ok(count)
        }
        Err(cause) => {
            *stream = None;
            backoff.fails(cause);
            Err(cause.into())
        }
    }
}

/// Writes to a peer that was dialed. A connection that broke, or kept the link waiting, is closed.
fn write_dialed(
    stream: &mut Option<TcpStream>,
    backoff: &mut Backoff,
    piece: &[u8],
) -> io::Result<usize>
    ensures bound { WritesAtMost result piece.now }
    ensures some { IfOk result (λ n. 0 < length piece.now → 0 < n) }
    ensures broken { OnErr result (stream.new ≡ None) }
    ensures stays { stream.old ≡ None → is_ok result ≡ false }
{
    let answer = match stream {
        Some(stream) => write_to(stream, piece),
        None => Err(ErrorKind::NotConnected),
    };
    match answer {
        Ok(count) => Ok(count),
        Err(cause) => {
            *stream = None;
            backoff.fails(cause);
            Err(cause.into())
        }
    }
}

/// Reads from the peer's stream. It fails with the system's reason where the connection broke, or nothing came in time.
fn read_from(stream: &mut TcpStream, buf: &mut [u8]) -> Result<usize, ErrorKind>
    ensures bound { IfOk result (λ n. n ≤ length buf.new) }
    ensures len { length buf.new ≡ length buf.old }
{
    for _ in 0..u64::MAX {
        match stream.read(buf) {
            Ok(count) => return Ok(count),
            Err(error) if error.kind() == ErrorKind::Interrupted => {}
            Err(error) => return Err(error.kind()),
        }
    }
    Err(ErrorKind::Interrupted)
}

/// Writes to the peer's stream. It fails with the system's reason where the connection broke, or nothing was taken in time of a
/// piece that isn't empty.
fn write_to(stream: &mut TcpStream, piece: &[u8]) -> Result<usize, ErrorKind>
    ensures bound { IfOk result (λ n. n ≤ length piece.now) }
    ensures some { IfOk result (λ n. 0 < length piece.now → 0 < n) }
{
    for _ in 0..u64::MAX {
        match stream.write(piece) {
            Ok(count) if count > 0 || piece.is_empty() => return Ok(count),
            Ok(_) => return Err(ErrorKind::WriteZero),
            Err(error) if error.kind() == ErrorKind::Interrupted => {}
            Err(error) => return Err(error.kind()),
        }
    }
    Err(ErrorKind::Interrupted)
}

impl<'a, R: Net<Listener = TcpListener, Stream = TcpStream> + Clock> Link for TcpLink<'a, R> {
    ghost peers = { λ _. None };

    ghost did = { λ l. l.did.events };

    ghost faults = { λ l. l.faults };

    /// Binds the address where it isn't bound, closes the connection of the peer that was there, and waits for the next.
    /// It never answers false. A call that fails leaves no peer, once the address is bound.
    fn next_peer(&mut self) -> Result<bool, Failed>
        ensures cause { HasCause self.old.faults self.new.faults result }
        ensures did { self.new.did.events ≡ after_next result self.old.did.events }
        ensures always { IfOk result (λ there. (there ≡ true) × (is_dialed self.new.present ≡ false)) }
    {
        self.ready()?;
        let answer = self.accept();
        self.count(answer)?;
        self.did.note(&[0], &[]);
        Ok(true)
    }

    /// Never fails where the peer came: where the connection breaks, the peer has ended.
    fn read(&mut self, buf: &mut [u8]) -> Result<usize, Failed>
        ensures bound { ReadsAtMost result buf.new }
        ensures did { self.new.did.events ≡ after_read result buf.new self.old.did.events }
        ensures cause { HasCause self.old.faults self.new.faults result }
        ensures no_fault { is_dialed self.old.present ≡ false → is_ok result ≡ true }
        ensures broken { OnErr result (is_broken self.new.present ≡ true) }
        ensures stays { is_broken self.old.present ≡ true → is_ok result ≡ false }
        ensures same { is_dialed self.new.present ≡ is_dialed self.old.present }
    {
        let answer = self.read_present(buf);
        let count = self.count(answer)?;
        self.did.note(&[2], &buf[..count]);
        Ok(count)
    }

    /// Never fails where the peer came: where the connection breaks, what is written goes nowhere.
    fn write(&mut self, piece: &[u8]) -> Result<usize, Failed>
        ensures bound { WritesAtMost result piece.now }
        ensures some { IfOk result (λ n. 0 < length piece.now → 0 < n) }
        ensures did { self.new.did.events ≡ after_write result piece.now self.old.did.events }
        ensures cause { HasCause self.old.faults self.new.faults result }
        ensures no_fault { is_dialed self.old.present ≡ false → is_ok result ≡ true }
        ensures broken { OnErr result (is_broken self.new.present ≡ true) }
        ensures stays { is_broken self.old.present ≡ true → is_ok result ≡ false }
        ensures same { is_dialed self.new.present ≡ is_dialed self.old.present }
    {
        let answer = self.write_present(piece);
        let count = self.count(answer)?;
        self.did.note(&[3], &piece[..count]);
        Ok(count)
    }
}

impl<'a, R: Net<Listener = TcpListener, Stream = TcpStream> + Clock> Dial for TcpLink<'a, R> {
    /// Closes the connection of the peer that was there, and dials the node where the link has it. A name is looked up by
    /// the system's resolver at each dial, whose time isn't bounded; its addresses are tried in the order in which they come.
    /// The address where the link listens isn't bound by it. It fails where nobody takes the call within the link's limit,
    /// for each of the addresses, and at once where the dial is left out, since the node kept the link waiting before; and then
    /// there is no peer: each read and write fails.
    fn dial(&mut self, node: u8) -> Result<(), Failed>
        ensures cause { HasCause self.old.faults self.new.faults result }
        ensures did { self.new.did.events ≡ after_dial result node self.old.did.events }
        ensures dialed { is_dialed self.new.present ≡ true }
        ensures nobody { OnErr result (is_broken self.new.present ≡ true) }
    {
        self.present = Peer::Dialed(None);
        self.tried.dials(node);
        let answer = self.connect(node);
        let stream = self.count(answer)?;
        self.present = Peer::Dialed(Some(stream));
        self.did.note(&[1, u64::from(node)], &[]);
        Ok(())
    }

    /// Closes the connection of a peer that was dialed, and sleeps. One that came stays.
    fn rest(&mut self, milliseconds: u32)
        ensures did { self.new.did.events ≡ self.old.did.events }
        ensures faults { self.new.faults ≡ self.old.faults }
        ensures closed { is_dialed self.old.present ≡ true → is_broken self.new.present ≡ true }
        ensures stays { is_dialed self.old.present ≡ false → self.new.present ≡ self.old.present }
    {
        if let Peer::Dialed(stream) = &mut self.present {
            *stream = None;
        }
        if milliseconds > 0 {
            thread::sleep(self.rt, Duration::from_millis(u64::from(milliseconds)));
        }
    }

    fn failures(&self) -> u64 {
        self.faults
    }
}
