// Bytes that wait to be written.
ghost use Rattle.std.specs.Prelude.{◌≡◌, ◌≤◌, ◌++◌, [], length, take, drop, OnOk, OnErr};
ghost use Rattle.ld_real.specs.Pending.{said_in};

use ld_io::NoMemory;
use ld_past::Past;
use std::alloc::Global;
use std::marker::Model;

/// Bytes on their way to a peer, the first one first. Those that were written are no more held: clauses alone tell them.
#[derive(Drop)]
pub(crate) struct Pending {
    bytes: Vec<u8>,
    at: usize,
    written: Past,
}

impl Model for Pending {
    ghost use Rattle.std.specs.Prelude.{◌≤◌, length, drop};
    ghost use Rattle.ld_past.specs.Events.{bytes_of};
    ghost use Rattle.ld_real.specs.Pending.{Way};

    ghost Value = { Way };

    ghost view = { λ p. record { written = bytes_of p.written.events; waiting = drop p.at p.bytes.items } };

    ghost invariant = { λ p. p.at ≤ length p.bytes.items };
}

impl Pending {
    /// None.
    pub(crate) fn new(alloc: Global) -> Pending
        ensures { result ≡ record { written = []; waiting = [] } }
    {
        Pending {
            bytes: Vec::new(alloc),
            at: 0,
            written: Past::new(),
        }
    }

    /// How many wait.
    pub(crate) fn len(&self) -> usize
        ensures { result ≡ length self.now.waiting }
    {
        self.bytes.len() - self.at
    }

    /// All that waits.
    pub(crate) fn as_slice(&self) -> &[u8]
        ensures { result.now ≡ self.now.waiting }
    {
        &self.bytes[self.at..]
    }

    /// These come behind the others. Without memory nothing changes.
    pub(crate) fn push(&mut self, piece: &[u8]) -> Result<(), NoMemory>
        ensures ok { OnOk result (self.new ≡ record { written = self.old.written; waiting = self.old.waiting ++ piece.now }) }
        ensures err { OnErr result (self.new ≡ self.old) }
    {
        if self.at > self.bytes.len() / 2 {
            drop_front(&mut self.bytes, self.at);
            self.at = 0;
        }
        self.bytes.extend_from_slice(piece)?;
        Ok(())
    }

    /// So many of the first ones were written.
    pub(crate) fn advance(&mut self, count: usize)
        requires { count ≤ length self.old.waiting }
        ensures way { self.new ≡ record { written = self.old.written ++ take count self.old.waiting; waiting = drop count self.old.waiting } }
        ensures said { said_in self.new ≡ said_in self.old }
    {
        let rest = &self.bytes[self.at..];
        self.written.note(&[], &rest[..count]);
        self.at += count;
    }
}

/// Takes bytes away in front.
fn drop_front(buffer: &mut Vec<u8>, count: usize)
    requires { count ≤ length buffer.old.items }
    ensures { buffer.new.items ≡ drop count buffer.old.items }
{
    let left = buffer.len() - count;
    buffer.as_mut_slice().copy_within(count.., 0);
    buffer.truncate(left);
}
