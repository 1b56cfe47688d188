// A link in memory, which fails where it is told to.
ghost use Rattle.std.specs.Prelude.{◌≡◌, ◌≤◌, ◌<◌, ◌+◌, ◌++◌, ◌∷◌, [], length, map, min, Some, None, IfOk, is_ok, false, MatchOption};
ghost use Rattle.std.specs.List.{All, slice_get};
ghost use Rattle.std.specs.Option.{option_map};
ghost use Rattle.std.specs.Vec.{vec_capacity};
ghost use Rattle.std.specs.Io.{ReadsAtMost, WritesAtMost};
ghost use Rattle.ld_io.specs.Causes.{HasCause};
ghost use Rattle.ld_io.specs.Memory.{is_listed, one_more};
ghost use Rattle.ld_link.specs.Calls.{after_next, after_read, after_write};
ghost use Rattle.ld_link.specs.Memory.{call_succeeds, write_succeeds, taken, talks};
ghost use Rattle.ld_link.specs.Peers.{Turns, Reads, Writes, as_list, left_of};

use crate::talk::{Coming, MemTalk, Outgoing};
use crate::{Dial, Link};
use ld_io::{Failed, NoMemory};
use ld_past::Past;
use std::alloc::Global;
use std::marker::Model;

/// A link whose peers are given, each with the bytes that it sends. What is written to a peer is kept, up to the room
/// of each. The calls whose numbers are listed fail.
#[derive(Drop)]
pub struct MemLink {
    past: Vec<MemTalk>,
    present: Option<MemTalk>,
    coming: Vec<Coming>,
    did: Past,
    room: usize,
    calls: u64,
    fails: Vec<u64>,
    faults: u64,
}

impl Model for MemLink {
    ghost use Rattle.std.specs.Prelude.{◌≡◌, ◌≤◌, ◌+◌, length, map, IfSome};
    ghost use Rattle.std.specs.List.{All};
    ghost use Rattle.std.specs.Option.{option_map};
    ghost use Rattle.std.specs.Vec.{vec_capacity};
    ghost use Rattle.ld_link.specs.Memory.{LinkState};
    ghost use Rattle.ld_link.specs.Peers.{as_list};

    ghost Value = { LinkState };

    ghost view = { λ l. record { did = l.did.events; peers = record { past = map (λ t. t.talk) l.past.items; present = option_map (λ t. t.talk) l.present; coming = map (λ c. c.bytes) l.coming.items }; room = l.room; calls = l.calls; fails = l.fails.items; faults = l.faults } };

    ghost invariant = { λ l. (length l.past.items + length (as_list l.present) + length l.coming.items ≤ vec_capacity l.past) × (IfSome l.present (λ t. t.room ≡ l.room)) × (All (λ c. c.room ≡ l.room) l.coming.items) };
}

impl MemLink {
    /// A link to these peers, of which none has come yet. To each that many bytes may be written. The calls with these
    /// numbers, from 0 on, are to fail.
    pub fn new(
        alloc: Global,
        peers: Vec<Vec<u8>>,
        room: usize,
        fails: Vec<u64>,
    ) -> Result<MemLink, NoMemory>
        ensures { IfOk result (λ link. link ≡ record { did = []; peers = record { past = []; present = None; coming = map (λ p. p.items) peers.items }; room = room; calls = 0; fails = fails.items; faults = 0 }) }
    {
        let past = Vec::with_capacity(alloc, peers.len())?;
        let coming = coming_peers(alloc, peers, room)?;
        Ok(MemLink {
            past,
            present: None,
            coming,
            did: Past::new(),
            room,
            calls: 0,
            fails,
            faults: 0,
        })
    }

    /// What was written to the peer of this number, from 0 on. None where it hasn't come.
    pub fn sent(&self, peer: usize) -> Option<&[u8]>
        ensures { option_map (λ s. s.now) result ≡ option_map (λ t. t.sent) (slice_get (talks self.now.peers) peer) }
    {
        match self.past.get(peer) {
            Some(talk) => Some(talk.sent()),
            None if peer == self.past.len() => match &self.present {
                Some(talk) => Some(talk.sent()),
                None => None,
            },
            None => None,
        }
    }

    /// Counts a call, and says whether it is one of those that fail.
    fn is_next_to_fail(&mut self) -> bool
        ensures listed { result ≡ is_listed self.old.calls self.old.fails }
        ensures counted { self.new ≡ record self.old { calls = one_more self.old.calls } }
    {
        let fails_now = self.fails.contains(&self.calls);
        self.calls = self.calls.saturating_add(1);
        fails_now
    }
}

/// Counts a fault, and answers it.
fn count_fault(faults: &mut u64) -> Failed
    ensures counted { faults.new ≡ one_more faults.old }
    ensures later { faults.old ≤ faults.new }
{
    *faults = faults.saturating_add(1);
    Failed
}

/// The peers with their bytes, each with its room.
fn coming_peers(alloc: Global, peers: Vec<Vec<u8>>, room: usize) -> Result<Vec<Coming>, NoMemory>
    ensures bytes { IfOk result (λ coming. map (λ c. c.bytes) coming.items ≡ map (λ p. p.items) peers.items) }
    ensures room { IfOk result (λ coming. All (λ c. c.room ≡ room) coming.items) }
    ensures count { IfOk result (λ coming. length coming.items ≡ length peers.items) }
{
    let mut coming = Vec::with_capacity(alloc, peers.len())?;
    'peers: for bytes in peers {
        let out = Outgoing::new(Vec::with_capacity(alloc, room)?, room);
        coming.push(Coming::new(bytes, out))?;
    }
    Ok(coming)
}

/// Takes the first peer that is to come.
fn take_first(coming: &mut Vec<Coming>) -> Option<Coming>
    ensures { MatchOption result ((coming.old.items ≡ []) × (coming.new.items ≡ [])) (λ first. coming.old.items ≡ first ∷ coming.new.items) }
{
    if coming.is_empty() {
        return None;
    }
    Some(coming.remove(0))
}

/// Puts a talk behind those that are past, for which there is room.
fn put_behind(past: &mut Vec<MemTalk>, talk: Option<MemTalk>)
    requires { length past.old.items + length (as_list talk) ≤ vec_capacity past.old }
    ensures items { past.new.items ≡ past.old.items ++ as_list talk }
    ensures talks { map (λ t. t.talk) past.new.items ≡ map (λ t. t.talk) past.old.items ++ as_list (option_map (λ t. t.talk) talk) }
    ensures capacity { vec_capacity past.old ≤ vec_capacity past.new }
{
    if let Some(talk) = talk {
        let _ = past.push(talk);
    }
}

impl Link for MemLink {
    ghost peers = { λ l. Some l.peers };

    ghost did = { λ l. l.did };

    ghost faults = { λ l. l.faults };

    /// Fails exactly where the call is listed.
    fn next_peer(&mut self) -> Result<bool, Failed>
        ensures did { self.new.did ≡ after_next result self.old.did }
        ensures peer { Turns self.old.peers (Some self.new.peers) result }
        ensures cause { HasCause self.old.faults self.new.faults result }
        ensures told { is_ok result ≡ call_succeeds self.old }
        ensures room { self.new.room ≡ self.old.room }
        ensures calls { (self.new.calls ≡ one_more self.old.calls) × (self.new.fails ≡ self.old.fails) }
    {
        if self.is_next_to_fail() {
            return Err(count_fault(&mut self.faults));
        }
        match take_first(&mut self.coming) {
            Some(next) => {
                put_behind(&mut self.past, self.present.take());
                self.present = Some(next.begin());
                self.did.note(&[0], &[]);
                Ok(true)
            }
            None => {
                self.did.note(&[4], &[]);
                Ok(false)
            }
        }
    }

    /// Gives as much as is left of the present peer and as the buffer takes, exactly where the call isn't listed.
    fn read(&mut self, buf: &mut [u8]) -> Result<usize, Failed>
        ensures bound { ReadsAtMost result buf.new }
        ensures did { self.new.did ≡ after_read result buf.new self.old.did }
        ensures bytes { Reads self.old.peers (Some self.new.peers) buf.new result }
        ensures cause { HasCause self.old.faults self.new.faults result }
        ensures told { is_ok result ≡ call_succeeds self.old }
        ensures all { IfOk result (λ n. n ≡ min (length (left_of self.old.peers.present)) (length buf.new)) }
        ensures room { self.new.room ≡ self.old.room }
        ensures calls { (self.new.calls ≡ one_more self.old.calls) × (self.new.fails ≡ self.old.fails) }
    {
        if self.is_next_to_fail() {
            return Err(count_fault(&mut self.faults));
        }
        let count = match &mut self.present {
            Some(talk) => talk.read(buf),
            None => 0,
        };
        self.did.note(&[2], &buf[..count]);
        Ok(count)
    }

    /// Takes as much as the present peer has room for, exactly where the call isn't listed and a byte is taken of a
    /// piece that has one.
    fn write(&mut self, piece: &[u8]) -> Result<usize, Failed>
        ensures bound { WritesAtMost result piece.now }
        ensures some { IfOk result (λ n. 0 < length piece.now → 0 < n) }
        ensures did { self.new.did ≡ after_write result piece.now self.old.did }
        ensures bytes { Writes self.old.peers (Some self.new.peers) piece.now result }
        ensures cause { HasCause self.old.faults self.new.faults result }
        ensures told { is_ok result ≡ write_succeeds self.old piece.now }
        ensures all { IfOk result (λ n. n ≡ taken self.old.room self.old.peers.present piece.now) }
        ensures room { self.new.room ≡ self.old.room }
        ensures calls { (self.new.calls ≡ one_more self.old.calls) × (self.new.fails ≡ self.old.fails) }
    {
        if self.is_next_to_fail() {
            return Err(count_fault(&mut self.faults));
        }
        let count = match &mut self.present {
            Some(talk) => talk.write(piece),
            None => 0,
        };
        if count == 0 && !piece.is_empty() {
            return Err(count_fault(&mut self.faults));
        }
        self.did.note(&[3], &piece[..count]);
        Ok(count)
    }
}

impl Dial for MemLink {
    /// Always fails: no peer in memory has a number. Only the count of faults changes.
    fn dial(&mut self, _node: u8) -> Result<(), Failed>
        ensures cause { HasCause self.old.faults self.new.faults result }
        ensures never { is_ok result ≡ false }
        ensures same { self.new ≡ record self.old { faults = one_more self.old.faults } }
    {
        Err(count_fault(&mut self.faults))
    }

    /// Nobody waits for a peer in memory.
    fn rest(&mut self, _milliseconds: u32)
        ensures same { self.new ≡ self.old }
    {}

    fn failures(&self) -> u64 {
        self.faults
    }
}
