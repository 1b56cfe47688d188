// A source over any reader and a sink over any writer.
ghost use Rattle.std.specs.Prelude.{◌≡◌, ◌<◌, ◌≤◌, ◌^◌, ◌-◌, ◌++◌, ℕ, List, length, take, None, false, IfOk, OnOk, MatchResult};
ghost use Rattle.std.specs.Io.{ReadsAtMost, WritesAtMost};
ghost use Rattle.std.specs.Io.KnownBytes.{Consumes, IsAtEnd, ReadConsumes, WriteAppends};
ghost use Rattle.ld_io.specs.Causes.{HasCause, Counts};
ghost use Rattle.ld_io.specs.Input.{left_in, Follows};
ghost use Rattle.ld_past.specs.Events.{bytes_of};

use ld_io::{Failed, Sink, Source};
use ld_past::Past;
use ld_ready::Ready;
use std::io::{Read, Write};

/// How many bytes a source gives at most.
const MOST: u64 = 0x7fff_ffff_ffff_ffff;

/// The file descriptor of the standard input.
const STANDARD_INPUT: i32 = 0;

/// A source over a reader. After 2^63 - 1 bytes it fails. Once the reader gave nothing it isn't asked again.
#[derive(Drop)]
pub struct StdSource<R: Read + Drop> {
    inner: R,
    given: u64,
    has_ended: bool,
    descriptor: Option<i32>,
    faults: u64,
    past: Past,
    ghost counted: { given ≡ length (bytes_of past.events) },
    ghost bound: { length (bytes_of past.events) < 2 ^ 63 },
}

impl<R: Read + Drop> StdSource<R> {
    /// A source over this reader. It has given nothing yet, and no read has failed. It doesn't know whether a read would
    /// wait.
    pub fn new(inner: R) -> StdSource<R>
        ensures over { result.inner ≡ inner }
        ensures given { result.given ≡ 0 }
        ensures ended { result.has_ended ≡ false }
        ensures faults { result.faults ≡ 0 }
    {
        StdSource::over(inner, None)
    }

    /// A source over a reader that gives the bytes of the standard input and holds none of them itself. It asks the system
    /// whether a read would wait.
    pub fn standard(inner: R) -> StdSource<R>
        ensures over { result.inner ≡ inner }
        ensures given { result.given ≡ 0 }
        ensures ended { result.has_ended ≡ false }
        ensures faults { result.faults ≡ 0 }
    {
        StdSource::over(inner, Some(STANDARD_INPUT))
    }

    fn over(inner: R, descriptor: Option<i32>) -> StdSource<R>
        ensures over { result.inner ≡ inner }
        ensures given { result.given ≡ 0 }
        ensures ended { result.has_ended ≡ false }
        ensures faults { result.faults ≡ 0 }
    {
        StdSource {
            inner,
            given: 0,
            has_ended: false,
            descriptor,
            faults: 0,
            past: Past::new(),
        }
    }
}

impl<R: Read + Drop> Source for StdSource<R> {
    ghost use Rattle.ld_io.specs.Input.{itself};

    ghost gave = { λ s. bytes_of s.past.events };

    /// What was given, and then anything, or nothing where the end was told.
    ghost may_be = { λ s all. Follows s.has_ended (bytes_of s.past.events) all };

    ghost known = { λ _. None };

    ghost faults = { λ s. s.faults };

    ghost begins = { λ s all it. it.front };

    ghost some = { λ s. record { all = bytes_of s.past.events; may = itself _ _ } };

    ghost knows = { λ _. tt };

    /// What it gives is what the reader gave, where the reader is known.
    fn read(&mut self, buf: &mut [u8]) -> Result<usize, Failed>
        ensures bound { ReadsAtMost result buf.new }
        ensures bytes { (all : List ℕ) → Follows self.new.has_ended (bytes_of self.new.past.events) all
            → Follows self.old.has_ended (bytes_of self.old.past.events) all × ReadConsumes (left_in all (bytes_of self.old.past.events)) (left_in all (bytes_of self.new.past.events)) result buf.new }
        ensures gives { MatchResult result (λ n. bytes_of self.new.past.events ≡ bytes_of self.old.past.events ++ take n buf.new) (λ _. bytes_of self.new.past.events ≡ bytes_of self.old.past.events) }
        ensures given { MatchResult result (λ n. Counts (length (bytes_of self.old.past.events)) (length (bytes_of self.new.past.events)) n) (λ _. bytes_of self.new.past.events ≡ bytes_of self.old.past.events) }
        ensures most { OnOk result (length (bytes_of self.old.past.events) < 2 ^ 63 - 1) }
        ensures cause { HasCause self.old.faults self.new.faults result }
        ensures tied { IfOk result (λ n. Consumes (R.remaining self.old.inner) (R.remaining self.new.inner) (take n buf.new)) }
        ensures ends { self.old.has_ended ≡ false → IfOk result (λ n. n ≡ 0 → 0 < length buf.new → IsAtEnd (R.remaining self.new.inner)) }
    {
        if self.given < MOST {
            if self.has_ended {
                return Ok(0);
            }
            match self.inner.read(buf) {
                Ok(count) if count as u64 <= MOST && self.given <= MOST - count as u64 => {
                    self.given += count as u64;
                    self.has_ended = count == 0 && !buf.is_empty();
                    self.past.note(&[], &buf[..count]);
                    return Ok(count);
                }
                _ => {}
            }
        }
        self.faults = self.faults.saturating_add(1);
        Err(Failed)
    }
}

/// Whether a read of the descriptor gives bytes, the end or a fault at once. Where the system can't say, it is taken to be so.
fn is_readable(descriptor: i32) -> bool {
    let mut asked = [libc::types::pollfd {
        fd: descriptor,
        events: libc::net::POLLIN,
        revents: 0,
    }];
    libc::net::poll(&mut asked, 0) != 0
}

impl<R: Read + Drop> Ready for StdSource<R> {
    ghost ready = { λ _. None };

    /// After the end, and where it doesn't know, a read doesn't wait.
    fn is_ready(&self) -> bool {
        match self.descriptor {
            Some(descriptor) => self.has_ended || is_readable(descriptor),
            None => true,
        }
    }
}

/// A sink over a writer.
#[derive(Drop)]
pub struct StdSink<W: Write + Drop> {
    inner: W,
    faults: u64,
    past: Past,
}

impl<W: Write + Drop> StdSink<W> {
    /// A sink over this writer. No write has failed yet.
    pub fn new(inner: W) -> StdSink<W>
        ensures over { result.inner ≡ inner }
        ensures faults { result.faults ≡ 0 }
    {
        StdSink {
            inner,
            faults: 0,
            past: Past::new(),
        }
    }
}

impl<W: Write + Drop> Sink for StdSink<W> {
    ghost written = { λ s. bytes_of s.past.events };

    ghost faults = { λ s. s.faults };

    /// What it takes is what the writer took, where the writer is known.
    fn write(&mut self, piece: &[u8]) -> Result<usize, Failed>
        ensures bound { WritesAtMost result piece.now }
        ensures some { IfOk result (λ n. 0 < length piece.now → 0 < n) }
        ensures bytes { MatchResult result (λ n. bytes_of self.new.past.events ≡ bytes_of self.old.past.events ++ take n piece.now) (λ _. bytes_of self.new.past.events ≡ bytes_of self.old.past.events) }
        ensures cause { HasCause self.old.faults self.new.faults result }
        ensures tied { WriteAppends (W.contents self.old.inner) (W.contents self.new.inner) result piece.now }
    {
        match self.inner.write(piece) {
            Ok(count) if count > 0 || piece.is_empty() => {
                self.past.note(&[], &piece[..count]);
                Ok(count)
            }
            _ => {
                self.faults = self.faults.saturating_add(1);
                Err(Failed)
            }
        }
    }
}
