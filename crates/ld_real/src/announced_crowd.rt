// A crowd that tells when it listens, whom it dismisses, and what became of its node.
ghost use Rattle.std.specs.Prelude.{◌≡◌, ◌∷◌, [], length};
ghost use Rattle.ld_io.specs.Causes.{HasCause};
ghost use Rattle.ld_crowd.specs.Calls.{after_turn, after_read, after_say, IsNamed, HeardAtMost, finished, dismissed};

use crate::TcpCrowd;
use ld_crowd::{Crowd, Heard, News, Turn};
use ld_io::{Failed, NoMemory};
use std::alloc::AllocError;
use std::fmt::Write as _;
use std::io::{ErrorKind, Write};
use std::net::Net;
use std::time::Clock;

/// A crowd that writes lines for a person: once its address is bound, before it waits for the first peer, a text and behind it
/// the port, or the address; one where it dismisses a peer, with the peer's number and why; and one for each news of its node.
/// Where there is nowhere to write them, or no memory for one, or that fails, it goes on.
#[derive(Drop)]
pub struct AnnouncedCrowd<'a, R: Net + Clock, W: Write + Drop> {
    crowd: TcpCrowd<'a, R>,
    by_port: bool,
    out: Option<W>,
    text: String,
    is_listening: bool,
}

impl<'a, R: Net + Clock, W: Write + Drop> AnnouncedCrowd<'a, R, W> {
    /// A crowd whose address isn't bound yet, and the first line's text up to the port, or up to the address. No call has
    /// failed yet.
    pub fn new(
        crowd: TcpCrowd<'a, R>,
        by_port: bool,
        out: Option<W>,
        text: String,
    ) -> AnnouncedCrowd<'a, R, W>
        ensures did { result.crowd.did.events ≡ crowd.entry.did.events }
        ensures faults { result.crowd.faults ≡ crowd.entry.faults }
    {
        AnnouncedCrowd {
            crowd,
            by_port,
            out,
            text,
            is_listening: false,
        }
    }

    /// Whether the address was bound.
    pub fn is_listening(&self) -> bool
        ensures { result ≡ self.now.is_listening }
    {
        self.is_listening
    }

    /// The system's reason for the last call that failed.
    pub fn cause(&self) -> Option<ErrorKind> {
        self.crowd.cause()
    }

    /// Writes that it listens.
    fn announce(&mut self)
        ensures crowd { self.new.crowd ≡ self.old.crowd }
    {
        self.is_listening = true;
        if let Some(address) = self.crowd.bound() {
            let _ = if self.by_port {
                writeln!(self.text, "{}", address.port())
            } else {
                writeln!(self.text, "{address}")
            };
            if let Some(out) = &mut self.out {
                let _ = out.write_all(self.text.as_bytes());
            }
        }
    }

    /// Writes what became of the node. The text of the first line stays, which may be still to come.
    fn write_news(&mut self, news: News)
        ensures crowd { self.new.crowd ≡ self.old.crowd }
    {
        if let Some(out) = &mut self.out {
            let mut line = String::new(*self.text.allocator());
            if add_news(&mut line, news).is_ok() {
                let _ = out.write_all(line.as_bytes());
            }
        }
    }

    /// Writes that a peer is dismissed, and why.
    fn tell(&mut self, peer: u64, why: &str)
        ensures crowd { self.new.crowd ≡ self.old.crowd }
    {
        if let Some(out) = &mut self.out {
            self.text.clear();
            let _ = writeln!(self.text, "ld: peer {peer} was dismissed: {why}");
            let _ = out.write_all(self.text.as_bytes());
        }
    }
}

/// The line of what became of a node.
fn add_news(line: &mut String, news: News) -> Result<(), AllocError> {
    match news {
        News::Formatted { generation } => {
            writeln!(
                line,
                "ld: the store was formatted under generation {generation}"
            )
        }
        News::Rebuilt { log, epoch } => {
            writeln!(line, "ld: log {log} was rebuilt up to epoch {epoch}")
        }
        News::Closed { log, epoch } => {
            writeln!(line, "ld: epoch {epoch} of log {log} is closed")
        }
        News::Switched { count } => writeln!(line, "ld: segment {count} was begun"),
    }
}

impl<'a, R: Net + Clock, W: Write + Drop> Crowd for AnnouncedCrowd<'a, R, W> {
    ghost use Rattle.std.specs.Prelude.{None};

    ghost left = { λ _. None };

    ghost did = { λ c. c.crowd.did.events };

    ghost faults = { λ c. c.crowd.faults };

    fn turn(&mut self, may_wait: bool) -> Result<Turn, Failed>
        ensures did { self.new.crowd.did.events ≡ after_turn result may_wait self.old.crowd.did.events }
        ensures named { IsNamed result self.old.crowd.did.events }
        ensures cause { HasCause self.old.crowd.faults self.new.crowd.faults result }
    {
        if !self.is_listening {
            self.crowd.ready()?;
            self.announce();
        }
        let turn = self.crowd.turn(may_wait)?;
        if let Turn::Silent(peer) = turn {
            self.tell(peer, "it was silent for too long");
        }
        Ok(turn)
    }

    fn read(&mut self, peer: u64, buf: &mut [u8]) -> Result<Heard, Failed>
        ensures bound { HeardAtMost result (length buf.new) }
        ensures len { length buf.new ≡ length buf.old }
        ensures did { self.new.crowd.did.events ≡ after_read result peer buf.new self.old.crowd.did.events }
        ensures cause { HasCause self.old.crowd.faults self.new.crowd.faults result }
    {
        self.crowd.read(peer, buf)
    }

    fn say(&mut self, peer: u64, bytes: &[u8]) -> Result<(), NoMemory>
        ensures did { self.new.crowd.did.events ≡ after_say result peer bytes.now self.old.crowd.did.events }
        ensures faults { self.new.crowd.faults ≡ self.old.crowd.faults }
    {
        self.crowd.say(peer, bytes)
    }

    fn is_full(&self, peer: u64) -> bool {
        self.crowd.is_full(peer)
    }

    fn finish(&mut self, peer: u64)
        ensures did { self.new.crowd.did.events ≡ finished peer ∷ self.old.crowd.did.events }
        ensures faults { self.new.crowd.faults ≡ self.old.crowd.faults }
    {
        self.crowd.finish(peer)
    }

    fn dismiss(&mut self, peer: u64)
        ensures did { self.new.crowd.did.events ≡ dismissed peer ∷ self.old.crowd.did.events }
        ensures faults { self.new.crowd.faults ≡ self.old.crowd.faults }
    {
        self.crowd.dismiss(peer);
        self.tell(peer, "its bytes begin no frame");
    }

    fn note(&mut self, news: News)
        ensures did { self.new.crowd.did.events ≡ self.old.crowd.did.events }
        ensures faults { self.new.crowd.faults ≡ self.old.crowd.faults }
    {
        self.write_news(news);
    }
}
