// A link that tells when it listens.
ghost use Rattle.std.specs.Prelude.{◌≡◌, []};

use crate::{Listening, TcpLink, Tried};
use ld_io::Failed;
use ld_link::Link;
use std::fmt::Write as _;
use std::io::Write;
use std::net::{Net, TcpListener, TcpStream};
use std::time::Clock;

/// A link that writes a line for a person once its address is bound, before it waits for the first peer: a text, and behind
/// it the port, where it listens at a port of 127.0.0.1, or else the address. Where there is nowhere to write it, or that
/// fails, it goes on.
#[derive(Drop)]
pub struct Announced<
    'a,
    R: Net<Listener = TcpListener, Stream = TcpStream> + Clock,
    W: Write + Drop,
> {
    link: TcpLink<'a, R>,
    by_port: bool,
    out: Option<W>,
    text: String,
    is_listening: bool,
}

impl<'a, R: Net<Listener = TcpListener, Stream = TcpStream> + Clock, W: Write + Drop> Announced<
    'a,
    R,
    W,
> {
    /// A link that listens there, which isn't bound yet, and the line's text up to the port or the address. No call has
    /// failed yet.
    pub fn new(
        rt: &'a R,
        listening: Listening<'a>,
        out: Option<W>,
        text: String,
    ) -> Announced<'a, R, W>
        ensures listening { result.link.listening ≡ listening.entry }
        ensures did { result.link.did.events ≡ [] }
        ensures faults { result.link.faults ≡ 0 }
    {
        Announced {
            link: TcpLink::listening(rt, listening),
            by_port: matches!(listening, Listening::Port(_)),
            out,
            text,
            is_listening: false,
        }
    }

    /// Whether the address was bound.
    pub fn is_listening(&self) -> bool
        ensures { result ≡ self.now.is_listening }
    {
        self.is_listening
    }

    /// What failed.
    pub fn tried(&self) -> Tried {
        self.link.tried()
    }

    /// Writes the line.
    fn announce(&mut self)
        ensures link { self.new.link ≡ self.old.link }
    {
        self.is_listening = true;
        if let Some(address) = self.link.bound() {
            let _ = if self.by_port {
                writeln!(self.text, "{}", address.port())
            } else {
                writeln!(self.text, "{address}")
            };
            if let Some(out) = &mut self.out {
                let _ = out.write_all(self.text.as_bytes());
            }
        }
    }
}

impl<'a, R: Net<Listener = TcpListener, Stream = TcpStream> + Clock, W: Write + Drop> Link
    for Announced<'a, R, W> {
    ghost use Rattle.std.specs.Prelude.{None};

    ghost peers = { λ _. None };

    ghost did = { λ l. l.link.did.events };

    ghost faults = { λ l. l.link.faults };

    fn next_peer(&mut self) -> Result<bool, Failed> {
        if !self.is_listening {
            self.link.ready()?;
            self.announce();
        }
        self.link.next_peer()
    }

    fn read(&mut self, buf: &mut [u8]) -> Result<usize, Failed> {
        self.link.read(buf)
    }

    fn write(&mut self, piece: &[u8]) -> Result<usize, Failed> {
        self.link.write(piece)
    }
}
