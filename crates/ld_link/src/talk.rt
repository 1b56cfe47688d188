// The talk with one peer in memory.
ghost use Rattle.std.specs.Prelude.{◌≡◌, ◌≤◌, ◌<◌, ◌+◌, ◌-◌, ◌++◌, [], length, take, drop, min};
ghost use Rattle.std.specs.Vec.{vec_capacity};
ghost use Rattle.ld_link.specs.Peers.{fresh, heard, said};

use std::marker::Model;

/// The bytes written to a peer, up to their room.
#[derive(Drop)]
pub(crate) struct Outgoing {
    bytes: Vec<u8>,
    room: usize,
}

impl Model for Outgoing {
    ghost use Rattle.std.specs.Prelude.{◌≤◌, length};
    ghost use Rattle.std.specs.Vec.{vec_capacity};
    ghost use Rattle.ld_link.specs.Memory.{Page};

    ghost Value = { Page };

    ghost view = { λ o. record { bytes = o.bytes.items; room = o.room } };

    ghost invariant = { λ o. (length o.bytes.items ≤ o.room) × (o.room ≤ vec_capacity o.bytes) };
}

impl Outgoing {
    /// No bytes yet, in a vector that has this room.
    pub(crate) fn new(bytes: Vec<u8>, room: usize) -> Outgoing
        requires empty { bytes.items ≡ [] }
        requires capacity { room ≤ vec_capacity bytes }
        ensures { result ≡ record { bytes = []; room = room } }
    {
        Outgoing { bytes, room }
    }

    /// Takes as much of the piece as there is room for, and says how much.
    fn take(&mut self, piece: &[u8]) -> usize
        ensures count { result ≡ min (self.old.room - length self.old.bytes) (length piece.now) }
        ensures bytes { self.new.bytes ≡ self.old.bytes ++ take result piece.now }
        ensures room { self.new.room ≡ self.old.room }
    {
        let count = (self.room - self.bytes.len()).min(piece.len());
        extend_within(&mut self.bytes, &piece[..count]);
        count
    }
}

/// Adds bytes for which there is room.
fn extend_within(bytes: &mut Vec<u8>, more: &[u8])
    requires { length bytes.old.items + length more.now ≤ vec_capacity bytes.old }
    ensures items { bytes.new.items ≡ bytes.old.items ++ more.now }
    ensures capacity { vec_capacity bytes.old ≤ vec_capacity bytes.new }
{
    let _ = bytes.extend_from_slice(more);
}

/// A peer that is still to come.
#[derive(Drop)]
pub(crate) struct Coming {
    bytes: Vec<u8>,
    out: Outgoing,
}

impl Model for Coming {
    ghost use Rattle.std.specs.Prelude.{◌≡◌, []};
    ghost use Rattle.ld_link.specs.Memory.{Caller};

    ghost Value = { Caller };

    ghost view = { λ c. record { bytes = c.bytes.items; room = c.out.room } };

    ghost invariant = { λ c. c.out.bytes ≡ [] };
}

impl Coming {
    /// A peer that sends these bytes.
    pub(crate) fn new(bytes: Vec<u8>, out: Outgoing) -> Coming
        requires { out.bytes ≡ [] }
        ensures { result ≡ record { bytes = bytes.items; room = out.room } }
    {
        Coming { bytes, out }
    }

    /// The peer has come.
    pub(crate) fn begin(self) -> MemTalk
        ensures { result ≡ record { talk = fresh self.bytes; room = self.room } }
    {
        MemTalk {
            bytes: self.bytes,
            at: 0,
            out: self.out,
        }
    }
}

/// The talk with one peer.
#[derive(Drop)]
pub(crate) struct MemTalk {
    bytes: Vec<u8>,
    at: usize,
    out: Outgoing,
}

impl Model for MemTalk {
    ghost use Rattle.std.specs.Prelude.{◌≤◌, length, take, drop};
    ghost use Rattle.ld_link.specs.Memory.{Line};

    ghost Value = { Line };

    ghost view = { λ t. record { talk = record { got = take t.at t.bytes.items; left = drop t.at t.bytes.items; sent = t.out.bytes }; room = t.out.room } };

    ghost invariant = { λ t. t.at ≤ length t.bytes.items };
}

impl MemTalk {
    /// Reads as much as there is and as the buffer takes, and says how much.
    pub(crate) fn read(&mut self, buf: &mut [u8]) -> usize
        ensures count { result ≡ min (length self.old.talk.left) (length buf.new) }
        ensures len { length buf.new ≡ length buf.old }
        ensures bytes { take result buf.new ≡ take result self.old.talk.left }
        ensures talk { self.new.talk ≡ heard result self.old.talk }
        ensures room { self.new.room ≡ self.old.room }
    {
        let rest = &self.bytes[self.at..];
        let count = rest.len().min(buf.len());
        buf[..count].copy_from_slice(&rest[..count]);
        self.at += count;
        count
    }

    /// Writes as much of the piece as there is room for, and says how much.
    pub(crate) fn write(&mut self, piece: &[u8]) -> usize
        ensures count { result ≡ min (self.old.room - length self.old.talk.sent) (length piece.now) }
        ensures talk { self.new.talk ≡ said (take result piece.now) self.old.talk }
        ensures room { self.new.room ≡ self.old.room }
    {
        self.out.take(piece)
    }

    /// The bytes that were written to it.
    pub(crate) fn sent(&self) -> &[u8]
        ensures { result.now ≡ self.now.talk.sent }
    {
        &self.out.bytes
    }
}
