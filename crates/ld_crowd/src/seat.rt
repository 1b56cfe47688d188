// One peer in memory.
ghost use Rattle.std.specs.Prelude.{◌≡◌, ◌≤◌, ◌-◌, ◌==◌, [], length, take, drop, min, OnOk, OnErr};
ghost use Rattle.ld_crowd.specs.Memory.{allowed, told_more};

use ld_io::NoMemory;
use std::alloc::Global;
use std::marker::Model;

/// A peer: the bytes that it sends, of which the first are taken and so many more are there, and what was said to it.
#[derive(Drop)]
pub(crate) struct MemPeer {
    bytes: Vec<u8>,
    at: usize,
    ready: usize,
    told: Vec<u8>,
}

impl Model for MemPeer {
    ghost use Rattle.std.specs.Prelude.{◌+◌, ◌≤◌, length, drop};
    ghost use Rattle.ld_crowd.specs.Memory.{Seat};

    ghost Value = { Seat };

    ghost view = { λ p. record { left = drop p.at p.bytes.items; ready = p.ready; told = p.told.items } };

    ghost invariant = { λ p. p.at + p.ready ≤ length p.bytes.items };
}

impl MemPeer {
    /// A peer that sends these bytes, of which none is there yet.
    pub(crate) fn new(alloc: Global, bytes: Vec<u8>) -> MemPeer
        ensures { result ≡ record { left = bytes.items; ready = 0; told = [] } }
    {
        MemPeer {
            bytes,
            at: 0,
            ready: 0,
            told: Vec::new(alloc),
        }
    }

    /// So many further bytes are there, or all that are left.
    pub(crate) fn allow(&mut self, count: usize)
        ensures { self.new ≡ allowed count self.old }
    {
        let left = self.bytes.len() - self.at;
        self.ready = self.ready.saturating_add(count).min(left);
    }

    /// Whether nothing is left of it.
    pub(crate) fn is_at_end(&self) -> bool
        ensures { result ≡ (length self.now.left == 0) }
    {
        self.bytes.len() == self.at
    }

    /// Reads as much as is there and as the buffer takes, and says how much.
    pub(crate) fn read(&mut self, buf: &mut [u8]) -> usize
        ensures count { result ≡ min self.old.ready (length buf.new) }
        ensures len { length buf.new ≡ length buf.old }
        ensures most { result ≤ length self.old.left }
        ensures bytes { take result buf.new ≡ take result self.old.left }
        ensures seat { self.new ≡ record { left = drop result self.old.left; ready = self.old.ready - result; told = self.old.told } }
    {
        let rest = &self.bytes[self.at..];
        let count = self.ready.min(buf.len());
        buf[..count].copy_from_slice(&rest[..count]);
        self.at += count;
        self.ready -= count;
        count
    }

    /// These bytes are said to it. Without memory nothing changes.
    pub(crate) fn say(&mut self, bytes: &[u8]) -> Result<(), NoMemory>
        ensures ok { OnOk result (self.new ≡ told_more bytes.now self.old) }
        ensures err { OnErr result (self.new ≡ self.old) }
    {
        self.told.extend_from_slice(bytes)?;
        Ok(())
    }

    /// What was said to it.
    pub(crate) fn told(&self) -> &[u8]
        ensures { result.now ≡ self.now.told }
    {
        &self.told
    }
}
