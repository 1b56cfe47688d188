// A source and a sink in memory, which fail where they are told to.
ghost use Rattle.std.specs.Prelude.{◌≡◌, ◌≤◌, ◌+◌, ◌++◌, ◌-◌, ◌^◌, ◌<◌, List, [], ℕ, Some, IfOk, OnOk, MatchResult, is_ok, length, take, min};
ghost use Rattle.std.specs.Vec.{vec_capacity};
ghost use Rattle.std.specs.Io.{ReadsAtMost, WritesAtMost};
ghost use Rattle.std.specs.Io.KnownBytes.{ReadConsumes};
ghost use Rattle.ld_io.specs.Causes.{Counts, HasCause};
ghost use Rattle.ld_io.specs.Memory.{is_listed, one_more, read_succeeds, write_succeeds, taken};

use crate::{Failed, NoMemory, Sink, Source};
use std::alloc::Global;
use std::marker::Model;

/// A source gives at most this many bytes.
const MOST_GIVEN: usize = (1 << 63) - 1;

/// A source that gives the bytes of a vector. The calls whose numbers are listed fail.
#[derive(Drop)]
pub struct MemSource {
    bytes: Vec<u8>,
    at: usize,
    calls: u64,
    fails: Vec<u64>,
    faults: u64,
}

impl Model for MemSource {
    ghost use Rattle.std.specs.Prelude.{◌≤◌, length, take, drop};
    ghost use Rattle.ld_io.specs.Memory.{SourceState};

    ghost Value = { SourceState };

    ghost view = { λ s. record { gave = take s.at s.bytes.items; left = drop s.at s.bytes.items; calls = s.calls; fails = s.fails.items; faults = s.faults } };

    ghost invariant = { λ s. s.at ≤ length s.bytes.items };
}

impl MemSource {
    /// A source of these bytes, whose calls with these numbers, from 0 on, are to fail.
    pub fn new(bytes: Vec<u8>, fails: Vec<u64>) -> MemSource
        ensures { result ≡ record { gave = []; left = bytes.items; calls = 0; fails = fails.items; faults = 0 } }
    {
        MemSource {
            bytes,
            at: 0,
            calls: 0,
            fails,
            faults: 0,
        }
    }
}

/// Counts a call, and says whether it is one of those that fail.
fn is_next_to_fail(calls: &mut u64, fails: &[u64]) -> bool
    ensures listed { result ≡ is_listed calls.old fails.now }
    ensures counted { calls.new ≡ one_more calls.old }
{
    let fails_now = fails.contains(calls);
    *calls = calls.saturating_add(1);
    fails_now
}

impl Source for MemSource {
    ghost use Rattle.ld_io.specs.Input.{IsSome};
    ghost use Rattle.std.proofs.Common.{refl};

    ghost gave = { λ s. s.gave };

    ghost may_be = { λ s all. all ≡ s.gave ++ s.left };

    ghost known = { λ s. Some (s.gave ++ s.left) };

    ghost faults = { λ s. s.faults };

    ghost begins = { λ s all is. record { rest = s.left; is = is } };

    ghost some = { λ s. record { all = s.gave ++ s.left; may = refl } };

    ghost knows = { λ s. refl };

    /// Gives as much as there is and as the buffer takes, exactly where the call isn't listed and fewer than
    /// 2^63-1 bytes were given.
    fn read(&mut self, buf: &mut [u8]) -> Result<usize, Failed>
        ensures bound { ReadsAtMost result buf.new }
        ensures bytes { ReadConsumes (Some self.old.left) (Some self.new.left) result buf.new }
        ensures gives { MatchResult result (λ n. self.new.gave ≡ self.old.gave ++ take n buf.new) (λ _. self.new.gave ≡ self.old.gave) }
        ensures given { MatchResult result (λ n. Counts (length self.old.gave) (length self.new.gave) n) (λ _. self.new.gave ≡ self.old.gave) }
        ensures most { OnOk result (length self.old.gave < 2 ^ 63 - 1) }
        ensures cause { HasCause self.old.faults self.new.faults result }
        ensures told { is_ok result ≡ read_succeeds self.old }
        ensures all { IfOk result (λ n. n ≡ min (length self.old.left) (length buf.new)) }
        ensures calls { (self.new.calls ≡ one_more self.old.calls) × (self.new.fails ≡ self.old.fails) }
    {
        if is_next_to_fail(&mut self.calls, &self.fails) || self.at >= MOST_GIVEN {
            self.faults = self.faults.saturating_add(1);
            return Err(Failed);
        }
        let rest = &self.bytes[self.at..];
        let count = rest.len().min(buf.len());
        buf[..count].copy_from_slice(&rest[..count]);
        self.at += count;
        Ok(count)
    }
}

/// A sink that keeps what it is given, up to its room. The calls whose numbers are listed fail.
#[derive(Drop)]
pub struct MemSink {
    bytes: Vec<u8>,
    room: usize,
    calls: u64,
    fails: Vec<u64>,
    faults: u64,
}

impl Model for MemSink {
    ghost use Rattle.std.specs.Prelude.{◌≤◌, length};
    ghost use Rattle.std.specs.Vec.{vec_capacity};
    ghost use Rattle.ld_io.specs.Memory.{SinkState};

    ghost Value = { SinkState };

    ghost view = { λ s. record { written = s.bytes.items; room = s.room; calls = s.calls; fails = s.fails.items; faults = s.faults } };

    ghost invariant = { λ s. (length s.bytes.items ≤ s.room) × (s.room ≤ vec_capacity s.bytes) };
}

impl MemSink {
    /// An empty sink with room for that many bytes, whose calls with these numbers, from 0 on, are to fail.
    pub fn new(alloc: Global, room: usize, fails: Vec<u64>) -> Result<MemSink, NoMemory>
        ensures { IfOk result (λ sink. sink ≡ record { written = []; room = room; calls = 0; fails = fails.items; faults = 0 }) }
    {
        Ok(MemSink {
            bytes: Vec::with_capacity(alloc, room)?,
            room,
            calls: 0,
            fails,
            faults: 0,
        })
    }

    /// The bytes that were written.
    pub fn bytes(&self) -> &[u8]
        ensures { result.now ≡ self.now.written }
    {
        &self.bytes
    }
}

/// Adds bytes for which there is room.
fn extend_within(bytes: &mut Vec<u8>, more: &[u8])
    requires { length bytes.old.items + length more.now ≤ vec_capacity bytes.old }
    ensures items { bytes.new.items ≡ bytes.old.items ++ more.now }
    ensures capacity { vec_capacity bytes.old ≤ vec_capacity bytes.new }
{
    let _ = bytes.extend_from_slice(more);
}

impl Sink for MemSink {
    ghost written = { λ s. s.written };

    ghost faults = { λ s. s.faults };

    /// Takes as much as there is room for, exactly where the call isn't listed and a byte is taken of a piece that
    /// has one.
    fn write(&mut self, piece: &[u8]) -> Result<usize, Failed>
        ensures bound { WritesAtMost result piece.now }
        ensures some { IfOk result (λ n. 0 < length piece.now → 0 < n) }
        ensures bytes { MatchResult result (λ n. self.new.written ≡ self.old.written ++ take n piece.now) (λ _. self.new.written ≡ self.old.written) }
        ensures cause { HasCause self.old.faults self.new.faults result }
        ensures told { is_ok result ≡ write_succeeds self.old piece.now }
        ensures all { IfOk result (λ n. n ≡ taken self.old piece.now) }
        ensures calls { (self.new.calls ≡ one_more self.old.calls) × (self.new.fails ≡ self.old.fails) × (self.new.room ≡ self.old.room) }
    {
        let count = (self.room - self.bytes.len()).min(piece.len());
        let takes_none = count == 0 && !piece.is_empty();
        if is_next_to_fail(&mut self.calls, &self.fails) || takes_none {
            self.faults = self.faults.saturating_add(1);
            return Err(Failed);
        }
        extend_within(&mut self.bytes, &piece[..count]);
        Ok(count)
    }
}
