// Sockets of peers that are there at once, which epoll watches.
ghost use Rattle.std.specs.Prelude.{◌≡◌, ◌<◌, ◌++◌, length, IfOk, OnOk, OnErr};
ghost use Rattle.ld_crowd.specs.Calls.{IsWithin};
ghost use Rattle.ld_real.specs.Pending.{said_in};
ghost use Rattle.ld_real.specs.Sockets.{IsNext};

use crate::pending::Pending;
use ld_crowd::{Heard, Turn};
use ld_io::NoMemory;
use mio::net::{TcpListener, TcpStream};
use mio::{Events, Interest, Poll, Token};
use std::alloc::Global;
use std::collections::{BTreeMap, VecDeque};
use std::io;
use std::io::{ErrorKind, Read, Write};
use std::net::{Net, SocketAddr};
use std::time::{Clock, Duration, Instant};

/// The listener's token. A peer's is its number.
const LISTENER: usize = usize::MAX;

/// How many events one wait gives.
const EVENTS: usize = 256;

/// The error number of Linux for as many open files in the whole system as it allows.
const SYSTEM_LIMIT: i32 = 23;

/// How many bytes may wait to be written to a peer before no more is read of it.
const MOST_WAITING: usize = 1 << 20;

/// The connection of one peer.
#[derive(Drop)]
pub(crate) struct Peer {
    stream: TcpStream,
    waiting: Pending,
    /// It is in the line of those of whom there may be something to read.
    is_in_line: bool,
    /// The connection broke: it has ended, and what is said to it goes nowhere.
    is_broken: bool,
    /// It is let go once all that waits is written.
    is_ending: bool,
    /// When it last said something, took something or was said something.
    heard: Instant,
}

/// The port, and what epoll reports.
#[derive(Drop)]
pub(crate) struct Door {
    listener: TcpListener,
    poll: Poll,
    events: Events,
}

/// The port and the peers that connected to it.
#[derive(Drop)]
pub(crate) struct Sockets<'a, R: Net + Clock> {
    rt: &'a R,
    alloc: Global,
    address: SocketAddr,
    door: Option<Door>,
    peers: BTreeMap<u64, Peer>,
    line: VecDeque<u64>,
    /// How many of the line have their turn before the sockets are looked at again.
    until_look: usize,
    limit: usize,
    idle: Duration,
    /// Somebody may wait to be let in.
    may_knock: bool,
    swept: Option<Instant>,
    /// The system's reason for the last call that failed.
    cause: Option<ErrorKind>,
}

impl<'a, R: Net + Clock> Sockets<'a, R> {
    /// No port is bound yet.
    pub(crate) fn new(
        rt: &'a R,
        alloc: Global,
        address: SocketAddr,
        limit: usize,
        idle: Duration,
    ) -> Sockets<'a, R> {
        Sockets {
            rt,
            alloc,
            address,
            door: None,
            peers: BTreeMap::new(alloc),
            line: VecDeque::new(alloc),
            until_look: 0,
            limit,
            idle,
            may_knock: true,
            swept: None,
            cause: None,
        }
    }

    /// Binds the port where it isn't bound.
    pub(crate) fn ready(&mut self) -> io::Result<()> {
        let answer = self.bind();
        if let Err(error) = &answer {
            self.cause = Some(error.kind());
        }
        answer
    }

    /// The system's reason for the last call that failed.
    pub(crate) fn cause(&self) -> Option<ErrorKind> {
        self.cause
    }

    fn bind(&mut self) -> io::Result<()> {
        if self.door.is_none() {
            let mut listener = TcpListener::bind(self.rt, self.address)?;
            let poll = Poll::new(self.rt)?;
            poll.registry()
                .register(&mut listener, Token(LISTENER), Interest::READABLE)?;
            let events = Events::with_capacity(self.alloc, EVENTS)?;
            self.door = Some(Door {
                listener,
                poll,
                events,
            });
        }
        Ok(())
    }

    /// The address that is bound, where one is.
    pub(crate) fn bound(&self) -> Option<SocketAddr> {
        match &self.door {
            Some(door) => match door.listener.local_addr() {
                Ok(address) => Some(address),
                Err(_) => None,
            },
            None => None,
        }
    }

    /// Whether one who waits may be let in.
    fn may_let_in(&self) -> bool {
        self.may_knock && self.peers.len() < self.limit
    }

    /// Lets in one who waits, under this number, where there is room. Where the process has no file descriptor left for it, it
    /// waits until a peer goes.
    fn let_in(&mut self, next: u64) -> io::Result<bool> {
        'knocks: for _ in 0..u64::MAX {
            if !self.may_let_in() {
                return Ok(false);
            }
            match accepted(&self.door) {
                Ok(stream) => {
                    self.welcome(stream, next)?;
                    return Ok(true);
                }
                Err(error) if error.kind() == ErrorKind::WouldBlock => self.may_knock = false,
                Err(error) if is_of_a_peer(error.kind()) => {}
                Err(error) if is_out_of_files(&error) && !self.peers.is_empty() => {
                    self.may_knock = false;
                }
                Err(error) => return Err(error),
            }
        }
        Ok(false)
    }

    /// A peer came. Small answers go out at once.
    fn welcome(&mut self, stream: TcpStream, number: u64) -> io::Result<()> {
        let mut stream = stream;
        let _ = stream.set_nodelay(true);
        watch(&self.door, &mut stream, number)?;
        let peer = Peer {
            stream,
            waiting: Pending::new(self.alloc),
            is_in_line: true,
            is_broken: false,
            is_ending: false,
            heard: Instant::now(self.rt)?,
        };
        self.line.push_back(number)?;
        self.peers.insert(number, peer)?;
        Ok(())
    }

    /// Takes what the system reports: those peers come behind the others in the line.
    fn look(&mut self, timeout: Duration) -> io::Result<()> {
        let Some(door) = &mut self.door else {
            return Err(ErrorKind::NotConnected.into());
        };
        door.poll.poll(&mut door.events, Some(timeout))?;
        'events: for event in door.events.iter() {
            let token = event.token().0;
            if token == LISTENER {
                self.may_knock = true;
                continue;
            }
            let number = token as u64;
            if let Some(peer) = self.peers.get_mut(&number) {
                if !peer.is_in_line {
                    self.line.push_back(number)?;
                    peer.is_in_line = true;
                }
            }
        }
        self.until_look = self.line.len();
        Ok(())
    }

    /// The first peer who was silent for too long, where it is time to look for one.
    fn silent(&mut self) -> io::Result<Option<u64>> {
        let now = Instant::now(self.rt)?;
        let is_time = match self.swept {
            Some(swept) => now.duration_since(swept) >= self.idle / 4,
            None => true,
        };
        if !is_time {
            return Ok(None);
        }
        'peers: for (number, peer) in self.peers.iter() {
            if now.duration_since(peer.heard) >= self.idle {
                return Ok(Some(*number));
            }
        }
        self.swept = Some(now);
        Ok(None)
    }

    /// Lets a peer go.
    fn remove(&mut self, number: u64) -> bool {
        self.may_knock = true;
        match self.peers.remove(&number) {
            Some(peer) => peer.is_ending,
            None => false,
        }
    }

    /// Dismisses a peer who was silent for too long, and says which. One that was to be let go anyway isn't said.
    fn sweep(&mut self) -> io::Result<Option<u64>> {
        'peers: for _ in 0..u64::MAX {
            let Some(number) = self.silent()? else {
                return Ok(None);
            };
            if !self.remove(number) {
                return Ok(Some(number));
            }
        }
        Ok(None)
    }

    /// Whether it is the turn of the first one in the line, who leaves it.
    fn first_in_line(&mut self) -> Option<u64> {
        let number = self.line.pop_front()?;
        self.until_look = self.until_look.saturating_sub(1);
        let (is_turn, is_done) = match self.peers.get_mut(&number) {
            Some(peer) => {
                peer.is_in_line = false;
                let before = peer.waiting.len();
                flush(peer);
                if peer.waiting.len() < before {
                    touch(self.rt, peer);
                }
                (is_next(peer), is_done(peer))
            }
            None => (false, false),
        };
        if is_done {
            let _ = self.remove(number);
        }
        if is_turn { Some(number) } else { None }
    }

    /// Whose turn it is; one that comes has this number.
    pub(crate) fn turn(&mut self, next: u64, may_wait: bool) -> io::Result<Turn>
        ensures named { IfOk result (IsNext next) }
    {
        let answer = self.next_turn(next, may_wait);
        if let Err(error) = &answer {
            self.cause = Some(error.kind());
        }
        answer
    }

    fn next_turn(&mut self, next: u64, may_wait: bool) -> io::Result<Turn>
        ensures named { IfOk result (IsNext next) }
    {
        self.bind()?;
        'turns: for _ in 0..u64::MAX {
            if self.let_in(next)? {
                return Ok(Turn::Came(next));
            }
            if let Some(number) = self.sweep()? {
                if number < next {
                    return Ok(Turn::Silent(number));
                }
            }
            if self.until_look > 0 {
                if let Some(number) = self.first_in_line() {
                    return Ok(Turn::Of(number));
                }
                continue;
            }
            let is_empty = self.line.is_empty();
            let timeout = if is_empty && may_wait {
                self.idle / 4
            } else {
                Duration::from_secs(0)
            };
            self.look(timeout)?;
            if !may_wait && self.line.is_empty() && !self.may_let_in() {
                return Ok(Turn::Nobody);
            }
        }
        Err(ErrorKind::TimedOut.into())
    }

    /// Reads of a peer. One that isn't there has nothing to say.
    pub(crate) fn read(&mut self, number: u64, buf: &mut [u8]) -> Heard
        ensures bound { IsWithin result (length buf.new) }
        ensures len { length buf.new ≡ length buf.old }
    {
        let Some(peer) = self.peers.get_mut(&number) else {
            return Heard::Later;
        };
        let heard = hear(peer, buf);
        if let Heard::Some(_) = heard {
            touch(self.rt, peer);
            // More may be there: the system reports only what changes.
            if !peer.is_in_line && self.line.push_back(number).is_ok() {
                peer.is_in_line = true;
            }
        }
        heard
    }

    /// Says bytes to a peer. To one that isn't there they go nowhere.
    pub(crate) fn say(&mut self, number: u64, bytes: &[u8]) -> Result<(), NoMemory> {
        let Some(peer) = self.peers.get_mut(&number) else {
            return Ok(());
        };
        tell(peer, bytes)?;
        touch(self.rt, peer);
        // One whose connection broke is told to have ended in its turn.
        if peer.is_broken && !peer.is_in_line && self.line.push_back(number).is_ok() {
            peer.is_in_line = true;
        }
        Ok(())
    }

    /// Whether more waits to be written to a peer than may.
    pub(crate) fn is_full(&self, number: u64) -> bool {
        match self.peers.get(&number) {
            Some(peer) => !peer.is_broken && peer.waiting.len() > MOST_WAITING,
            None => false,
        }
    }

    /// Lets a peer go once all that waits is written.
    pub(crate) fn finish(&mut self, number: u64) {
        let is_done = match self.peers.get_mut(&number) {
            Some(peer) => {
                peer.is_ending = true;
                flush(peer);
                is_done(peer)
            }
            None => false,
        };
        if is_done {
            let _ = self.remove(number);
        }
    }

    /// Lets a peer go at once: closing its connection takes it out of what epoll watches.
    pub(crate) fn dismiss(&mut self, number: u64) {
        let _ = self.remove(number);
    }
}

/// The next connection of those that wait.
fn accepted(door: &Option<Door>) -> io::Result<TcpStream> {
    match door {
        Some(door) => {
            let (stream, _) = door.listener.accept()?;
            Ok(stream)
        }
        None => Err(ErrorKind::NotConnected.into()),
    }
}

/// Has epoll report the connection under this number.
fn watch(door: &Option<Door>, stream: &mut TcpStream, number: u64) -> io::Result<()> {
    match door {
        Some(door) => door.poll.registry().register(
            stream,
            Token(number as usize),
            Interest::READABLE | Interest::WRITABLE,
        ),
        None => Err(ErrorKind::NotConnected.into()),
    }
}

/// The connection broke before it was accepted.
fn is_of_a_peer(kind: ErrorKind) -> bool {
    matches!(
        kind,
        ErrorKind::ConnectionAborted | ErrorKind::ConnectionReset | ErrorKind::Interrupted
    )
}

/// The process, or the system, has as many files open as it may.
fn is_out_of_files(error: &io::Error) -> bool {
    match error.raw_os_error() {
        Some(code) => code == libc::EMFILE || code == SYSTEM_LIMIT,
        None => false,
    }
}

/// The peer isn't silent.
fn touch<R: Clock>(rt: &R, peer: &mut Peer)
    ensures { said_in peer.new.waiting ≡ said_in peer.old.waiting }
{
    if let Ok(now) = Instant::now(rt) {
        peer.heard = now;
    }
}

/// Whether the peer may be read: it isn't let go, and takes what is said to it, or has broken off.
fn is_next(peer: &Peer) -> bool {
    !peer.is_ending && (peer.is_broken || peer.waiting.len() <= MOST_WAITING)
}

/// Whether a peer that is to be let go may be.
fn is_done(peer: &Peer) -> bool {
    peer.is_ending && (peer.is_broken || peer.waiting.len() == 0)
}

/// Writes what waits, as far as the system takes it.
fn flush(peer: &mut Peer)
    ensures { said_in peer.new.waiting ≡ said_in peer.old.waiting }
{
    'pieces: for _ in 0..u64::MAX {
        if peer.is_broken || peer.waiting.len() == 0 {
            return;
        }
        match peer.stream.write(peer.waiting.as_slice()) {
            Ok(0) => peer.is_broken = true,
            Ok(count) => peer.waiting.advance(count),
            Err(error) if error.kind() == ErrorKind::WouldBlock => return,
            Err(error) if error.kind() == ErrorKind::Interrupted => {}
            Err(_) => peer.is_broken = true,
        }
    }
}

/// Says bytes to the peer, behind those that wait. Without memory nothing is said.
fn tell(peer: &mut Peer, bytes: &[u8]) -> Result<(), NoMemory>
    ensures ok { OnOk result (said_in peer.new.waiting ≡ said_in peer.old.waiting ++ bytes.now) }
    ensures err { OnErr result (said_in peer.new.waiting ≡ said_in peer.old.waiting) }
{
    peer.waiting.push(bytes)?;
    flush(peer);
    Ok(())
}

/// Reads of the peer. One whose connection broke has ended.
fn hear(peer: &mut Peer, buf: &mut [u8]) -> Heard
    ensures bound { IsWithin result (length buf.new) }
    ensures len { length buf.new ≡ length buf.old }
    ensures said { said_in peer.new.waiting ≡ said_in peer.old.waiting }
{
    if buf.is_empty() {
        return Heard::Later;
    }
    'tries: for _ in 0..u64::MAX {
        if peer.is_broken {
            return Heard::End;
        }
        match peer.stream.read(buf) {
            Ok(0) => return Heard::End,
            Ok(count) => return Heard::Some(count),
            Err(error) if error.kind() == ErrorKind::WouldBlock => return Heard::Later,
            Err(error) if error.kind() == ErrorKind::Interrupted => {}
            Err(_) => peer.is_broken = true,
        }
    }
    Heard::Later
}
