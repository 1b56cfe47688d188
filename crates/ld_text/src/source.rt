// Text as the lines that the program reads.
ghost use Rattle.std.specs.Prelude.{◌≡◌, ◌<◌, ◌≤◌, ◌^◌, ◌-◌, ◌++◌, length, take, ℕ, List, false, None, IfOk, OnOk, MatchResult};
ghost use Rattle.std.specs.Io.{ReadsAtMost};
ghost use Rattle.std.specs.Io.KnownBytes.{ReadConsumes};
ghost use Rattle.ld_io.specs.Causes.{HasCause, Counts};
ghost use Rattle.ld_io.specs.Input.{left_in, Follows};
ghost use Rattle.ld_io.specs.Memory.{one_more};
ghost use Rattle.ld_past.specs.Events.{bytes_of};

use crate::{TextFault, payload_of};
use ld_io::{Failed, NoMemory, Source};
use ld_past::Past;
use ld_ready::Ready;
use std::alloc::Global;

/// How many bytes a source gives at most.
const MOST: u64 = 0x7fff_ffff_ffff_ffff;

/// How many bytes are read at once.
const CHUNK: usize = 4096;

/// A source whose lines, where they are text, are given as the lines that spell the same payloads: two hexadecimal digits for
/// each byte, or a dash for none. A line that is the text of no payload is given as one that spells none, `x`. A last line
/// without the byte that ends it is given without it too.
#[derive(Drop)]
pub struct TextSource<S: Ready + Drop> {
    alloc: Global,
    inner: S,
    is_text: bool,
    chunk: Vec<u8>,
    line: Vec<u8>,
    lines: Vec<u8>,
    at: usize,
    given: u64,
    has_ended: bool,
    faults: u64,
    past: Past,
    ghost counted: { given ≡ length (bytes_of past.events) },
    ghost bound: { length (bytes_of past.events) < 2 ^ 63 },
}

impl<S: Ready + Drop> TextSource<S> {
    /// Over a source of lines, which are text or are given as they are. It has given nothing yet, and no read has failed.
    pub fn new(alloc: Global, inner: S, is_text: bool) -> Result<TextSource<S>, NoMemory>
        ensures over { IfOk result (λ source. source.inner ≡ inner) }
        ensures given { IfOk result (λ source. source.given ≡ 0) }
        ensures ended { IfOk result (λ source. source.has_ended ≡ false) }
        ensures faults { IfOk result (λ source. source.faults ≡ 0) }
    {
        Ok(TextSource {
            alloc,
            inner,
            is_text,
            chunk: vec![in alloc; 0u8; CHUNK]?,
            line: Vec::new(alloc),
            lines: Vec::new(alloc),
            at: 0,
            given: 0,
            has_ended: false,
            faults: 0,
            past: Past::new(),
        })
    }

    /// The source below.
    pub fn inner(&self) -> &S
        ensures { result.now ≡ self.now.inner }
    {
        &self.inner
    }
}

/// Puts a line behind the others that spells the payload of a text.
fn put_line(alloc: Global, line: &[u8], lines: &mut Vec<u8>) -> Result<(), Failed> {
    match payload_of(alloc, line) {
        Ok(bytes) => {
            if bytes.is_empty() {
                return push(lines, b'-');
            }
            'bytes: for byte in bytes.iter() {
                push(lines, digit(*byte / 16))?;
                push(lines, digit(*byte % 16))?;
            }
            Ok(())
        }
        Err(TextFault::Bad(_)) => push(lines, b'x'),
        Err(TextFault::NoMemory) => Err(Failed),
    }
}

/// A small hexadecimal digit.
fn digit(value: u8) -> u8
    requires { value < 16 }
{
    if value < 10 {
        b'0' + value
    } else {
        b'a' + (value - 10)
    }
}

/// Puts a byte behind the others.
fn push(bytes: &mut Vec<u8>, byte: u8) -> Result<(), Failed> {
    match bytes.push(byte) {
        Ok(()) => Ok(()),
        Err(_) => Err(Failed),
    }
}

/// Puts the lines behind the others that the bytes of a chunk end, and keeps the bytes of the line behind them.
fn put_chunk(
    alloc: Global,
    chunk: &[u8],
    line: &mut Vec<u8>,
    lines: &mut Vec<u8>,
) -> Result<(), Failed> {
    'bytes: for byte in chunk {
        if *byte == b'\n' {
            put_line(alloc, line, lines)?;
            push(lines, b'\n')?;
            line.clear();
        } else {
            push(line, *byte)?;
        }
    }
    Ok(())
}

/// Reads until there is a line to be given. None is where the source below has ended.
fn refill<S: Ready + Drop>(
    alloc: Global,
    inner: &mut S,
    chunk: &mut Vec<u8>,
    line: &mut Vec<u8>,
    lines: &mut Vec<u8>,
) -> Result<(), Failed> {
    lines.clear();
    'reads: for _ in 0..u64::MAX {
        let count = inner.read(chunk)?;
        let Some(bytes) = chunk.get(..count) else {
            return Err(Failed);
        };
        if bytes.is_empty() {
            if !line.is_empty() {
                put_line(alloc, line, lines)?;
                line.clear();
            }
            return Ok(());
        }
        put_chunk(alloc, bytes, line, lines)?;
        if !lines.is_empty() {
            return Ok(());
        }
    }
    Err(Failed)
}

/// Takes as many of the bytes from this place on as there are and as the buffer takes.
fn give(lines: &[u8], at: usize, buf: &mut [u8]) -> usize
    ensures len { length buf.new ≡ length buf.old }
    ensures bound { result ≤ length buf.old }
{
    let Some(rest) = lines.get(at..) else {
        return 0;
    };
    let count = rest.len().min(buf.len());
    buf[..count].copy_from_slice(&rest[..count]);
    count
}

impl<S: Ready + Drop> TextSource<S> {
    /// Takes the next bytes.
    fn next(&mut self, buf: &mut [u8]) -> Result<usize, Failed>
        ensures bound { ReadsAtMost result buf.new }
        ensures len { length buf.new ≡ length buf.old }
        ensures given { self.new.given ≡ self.old.given }
        ensures ended { self.new.has_ended ≡ self.old.has_ended }
        ensures faults { self.new.faults ≡ self.old.faults }
        ensures past { self.new.past ≡ self.old.past }
    {
        if !self.is_text {
            return self.inner.read(buf);
        }
        if self.at >= self.lines.len() {
            self.at = 0;
            refill(
                self.alloc,
                &mut self.inner,
                &mut self.chunk,
                &mut self.line,
                &mut self.lines,
            )?;
        }
        let count = give(&self.lines, self.at, buf);
        self.at = self.at.saturating_add(count);
        Ok(count)
    }
}

impl<S: Ready + Drop> TextSource<S> {
    /// Takes the next bytes, and counts them.
    fn attempt(&mut self, buf: &mut [u8]) -> Result<usize, Failed>
        ensures bound { ReadsAtMost result buf.new }
        ensures bytes { (all : List ℕ) → Follows self.new.has_ended (bytes_of self.new.past.events) all
            → Follows self.old.has_ended (bytes_of self.old.past.events) all × ReadConsumes (left_in all (bytes_of self.old.past.events)) (left_in all (bytes_of self.new.past.events)) result buf.new }
        ensures gives { MatchResult result (λ n. bytes_of self.new.past.events ≡ bytes_of self.old.past.events ++ take n buf.new) (λ _. bytes_of self.new.past.events ≡ bytes_of self.old.past.events) }
        ensures given { MatchResult result (λ n. Counts (length (bytes_of self.old.past.events)) (length (bytes_of self.new.past.events)) n) (λ _. bytes_of self.new.past.events ≡ bytes_of self.old.past.events) }
        ensures most { OnOk result (length (bytes_of self.old.past.events) < 2 ^ 63 - 1) }
        ensures faults { self.new.faults ≡ self.old.faults }
    {
        if self.given < MOST {
            if self.has_ended {
                return Ok(0);
            }
            match self.next(buf) {
                Ok(count) if count as u64 <= MOST && self.given <= MOST - count as u64 => {
                    self.given += count as u64;
                    self.has_ended = count == 0 && !buf.is_empty();
                    self.past.note(&[], &buf[..count]);
                    return Ok(count);
                }
                _ => {}
            }
        }
        Err(Failed)
    }
}

/// Counts a fault, and answers it.
pub(crate) fn count_fault(faults: &mut u64) -> Failed
    ensures counted { faults.new ≡ one_more faults.old }
    ensures later { faults.old ≤ faults.new }
{
    *faults = faults.saturating_add(1);
    Failed
}

impl<S: Ready + Drop> Source for TextSource<S> {
    ghost use Rattle.ld_io.specs.Input.{itself};

    ghost gave = { λ s. bytes_of s.past.events };

    /// What was given, and then anything, or nothing where the end was told.
    ghost may_be = { λ s all. Follows s.has_ended (bytes_of s.past.events) all };

    ghost known = { λ _. None };

    ghost faults = { λ s. s.faults };

    ghost begins = { λ s all it. it.front };

    ghost some = { λ s. record { all = bytes_of s.past.events; may = itself _ _ } };

    ghost knows = { λ _. tt };

    fn read(&mut self, buf: &mut [u8]) -> Result<usize, Failed>
        ensures bound { ReadsAtMost result buf.new }
        ensures bytes { (all : List ℕ) → Follows self.new.has_ended (bytes_of self.new.past.events) all
            → Follows self.old.has_ended (bytes_of self.old.past.events) all × ReadConsumes (left_in all (bytes_of self.old.past.events)) (left_in all (bytes_of self.new.past.events)) result buf.new }
        ensures gives { MatchResult result (λ n. bytes_of self.new.past.events ≡ bytes_of self.old.past.events ++ take n buf.new) (λ _. bytes_of self.new.past.events ≡ bytes_of self.old.past.events) }
        ensures given { MatchResult result (λ n. Counts (length (bytes_of self.old.past.events)) (length (bytes_of self.new.past.events)) n) (λ _. bytes_of self.new.past.events ≡ bytes_of self.old.past.events) }
        ensures most { OnOk result (length (bytes_of self.old.past.events) < 2 ^ 63 - 1) }
        ensures cause { HasCause self.old.faults self.new.faults result }
    {
        match self.attempt(buf) {
            Ok(count) => Ok(count),
            Err(_) => Err(count_fault(&mut self.faults)),
        }
    }
}

impl<S: Ready + Drop> Ready for TextSource<S> {
    ghost ready = { λ _. None };

    /// A read doesn't wait where bytes are held, after the end, and where one of the source below doesn't.
    fn is_ready(&self) -> bool {
        self.at < self.lines.len() || self.has_ended || self.inner.is_ready()
    }
}
