// A crowd over the sockets of this machine.
ghost use Rattle.std.specs.Prelude.{◌≡◌, ◌∷◌, [], length, None, Ok};
ghost use Rattle.ld_io.specs.Causes.{HasCause};
ghost use Rattle.ld_crowd.specs.Calls.{arrivals, after_turn, after_read, after_say, IsNamed, HeardAtMost, finished, dismissed};

use crate::sockets::Sockets;
use ld_crowd::{Crowd, Heard, News, Turn};
use ld_io::{Failed, NoMemory};
use ld_past::Past;
use std::alloc::Global;
use std::io::ErrorKind;
use std::net::{Net, SocketAddr};
use std::time::{Clock, Duration};

/// A crowd whose peers are those that connect to a port, at most so many at once: others wait in the listener's queue
/// until one goes. The port is bound at the first turn. Where it may wait, it waits until somebody comes or says
/// something.
///
/// A peer whose connection breaks is one that has ended: what is said to it is taken and goes nowhere, as bytes in a
/// buffer of the system would. What is said to a peer is kept until the system takes it, and a peer gets a turn only
/// while at most 2^20 bytes wait. One that says nothing, takes nothing of what waits and is said nothing for so long is
/// dismissed for its silence. So no peer makes a call fail: the faults are those of the port, of epoll and of the
/// clock, that the system gives no further connection, or no memory for one, and that no number is left.
#[derive(Drop)]
pub struct TcpCrowd<'a, R: Net + Clock> {
    sockets: Sockets<'a, R>,
    next: u64,
    did: Past,
    faults: u64,
    ghost counted: { next ≡ arrivals did.events },
}

impl<'a, R: Net + Clock> TcpCrowd<'a, R> {
    /// A crowd at this address, which isn't bound yet: at most so many peers at once, each of which may be silent for
    /// so long. Nobody is there, and no call has failed yet.
    pub fn new(
        rt: &'a R,
        alloc: Global,
        address: SocketAddr,
        limit: usize,
        idle: Duration,
    ) -> TcpCrowd<'a, R>
        ensures did { result.did.events ≡ [] }
        ensures faults { result.faults ≡ 0 }
    {
        TcpCrowd {
            sockets: Sockets::new(rt, alloc, address, limit, idle),
            next: 0,
            did: Past::new(),
            faults: 0,
        }
    }

    /// Binds the port where it isn't bound. It fails where the port is taken or the system has no socket left, and the
    /// next call tries again.
    pub fn ready(&mut self) -> Result<(), Failed>
        ensures did { self.new.did ≡ self.old.did }
        ensures cause { HasCause self.old.faults self.new.faults result }
    {
        match self.sockets.ready() {
            Ok(()) => Ok(()),
            Err(_) => {
                self.faults = self.faults.saturating_add(1);
                Err(Failed)
            }
        }
    }

    /// The address that is bound, where one is.
    pub fn bound(&self) -> Option<SocketAddr> {
        self.sockets.bound()
    }

    /// The system's reason for the last call that failed.
    pub fn cause(&self) -> Option<ErrorKind> {
        self.sockets.cause()
    }
}

impl<'a, R: Net + Clock> Crowd for TcpCrowd<'a, R> {
    ghost left = { λ _. None };

    ghost did = { λ c. c.did.events };

    ghost faults = { λ c. c.faults };

    fn turn(&mut self, may_wait: bool) -> Result<Turn, Failed>
        ensures did { self.new.did.events ≡ after_turn result may_wait self.old.did.events }
        ensures named { IsNamed result self.old.did.events }
        ensures cause { HasCause self.old.faults self.new.faults result }
    {
        let (Ok(turn), Some(behind)) = (
            self.sockets.turn(self.next, may_wait),
            self.next.checked_add(1),
        ) else {
            self.faults = self.faults.saturating_add(1);
            return Err(Failed);
        };
        match turn {
            Turn::Came(_) => {
                self.next = behind;
                self.did.note(&[0], &[]);
            }
            Turn::Of(peer) => self.did.note(&[2, peer], &[]),
            Turn::Silent(peer) => self.did.note(&[1, peer], &[]),
            Turn::Nobody => self.did.note(&[3, u64::from(may_wait)], &[]),
        }
        Ok(turn)
    }

    /// Never fails: a peer whose connection broke has ended.
    fn read(&mut self, peer: u64, buf: &mut [u8]) -> Result<Heard, Failed>
        ensures bound { HeardAtMost result (length buf.new) }
        ensures len { length buf.new ≡ length buf.old }
        ensures did { self.new.did.events ≡ after_read result peer buf.new self.old.did.events }
        ensures cause { HasCause self.old.faults self.new.faults result }
    {
        let heard = self.sockets.read(peer, buf);
        match heard {
            Heard::Some(count) => self.did.note(&[4, peer], &buf[..count]),
            Heard::Later => {}
            Heard::End => self.did.note(&[5, peer], &[]),
        }
        Ok(heard)
    }

    fn say(&mut self, peer: u64, bytes: &[u8]) -> Result<(), NoMemory>
        ensures did { self.new.did.events ≡ after_say result peer bytes.now self.old.did.events }
        ensures faults { self.new.faults ≡ self.old.faults }
    {
        self.sockets.say(peer, bytes)?;
        self.did.note(&[6, peer], bytes);
        Ok(())
    }

    fn is_full(&self, peer: u64) -> bool {
        self.sockets.is_full(peer)
    }

    fn finish(&mut self, peer: u64)
        ensures did { self.new.did.events ≡ finished peer ∷ self.old.did.events }
        ensures faults { self.new.faults ≡ self.old.faults }
    {
        self.sockets.finish(peer);
        self.did.note(&[7, peer], &[]);
    }

    fn dismiss(&mut self, peer: u64)
        ensures did { self.new.did.events ≡ dismissed peer ∷ self.old.did.events }
        ensures faults { self.new.faults ≡ self.old.faults }
    {
        self.sockets.dismiss(peer);
        self.did.note(&[8, peer], &[]);
    }

    /// Tells nobody.
    fn note(&mut self, _news: News)
        ensures same { self.new ≡ self.old }
    {}
}
