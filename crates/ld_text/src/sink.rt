// Lines of a reader that are shown as text or as JSON.
ghost use Rattle.std.specs.Prelude.{◌≡◌, ◌<◌, ◌++◌, length, take, IfOk, MatchResult};
ghost use Rattle.std.specs.Io.{WritesAtMost};
ghost use Rattle.ld_io.specs.Causes.{HasCause};
ghost use Rattle.ld_past.specs.Events.{bytes_of};

use crate::Form;
use crate::shown::show;
use crate::source::count_fault;
use ld_io::{Failed, Sink};
use ld_past::Past;
use std::alloc::Global;

/// A sink of lines of a reader, which are written to another sink as they are shown: each as it is ended. A line that isn't
/// ended isn't written.
#[derive(Drop)]
pub struct ShownSink<O: Sink + Drop> {
    alloc: Global,
    inner: O,
    form: Form,
    line: Vec<u8>,
    faults: u64,
    past: Past,
}

impl<O: Sink + Drop> ShownSink<O> {
    /// Over a sink. It has taken nothing yet, and no write has failed.
    pub fn new(alloc: Global, inner: O, form: Form) -> ShownSink<O>
        ensures over { result.inner ≡ inner }
        ensures faults { result.faults ≡ 0 }
    {
        ShownSink {
            alloc,
            inner,
            form,
            line: Vec::new(alloc),
            faults: 0,
            past: Past::new(),
        }
    }
}

/// Writes all bytes.
fn write_all<O: Sink>(out: &mut O, bytes: &[u8]) -> Result<(), Failed> {
    let mut at = 0;
    'writes: for _ in 0..bytes.len() {
        let Some(rest) = bytes.get(at..) else {
            return Ok(());
        };
        if rest.is_empty() {
            return Ok(());
        }
        at = out.write(rest)?.saturating_add(at);
    }
    Ok(())
}

/// Takes a byte of a line, and writes the line as it is shown where it is ended by it.
fn take<O: Sink>(
    alloc: Global,
    form: Form,
    byte: u8,
    line: &mut Vec<u8>,
    text: &mut Vec<u8>,
    out: &mut O,
) -> Result<(), Failed> {
    if byte != b'\n' {
        return match line.push(byte) {
            Ok(()) => Ok(()),
            Err(_) => Err(Failed),
        };
    }
    text.clear();
    if show(alloc, form, line, text).is_err() {
        return Err(Failed);
    }
    line.clear();
    write_all(out, text)
}

/// Takes the bytes of lines.
fn take_all<O: Sink>(
    alloc: Global,
    form: Form,
    piece: &[u8],
    line: &mut Vec<u8>,
    out: &mut O,
) -> Result<usize, Failed>
    ensures { IfOk result (λ n. n ≡ length piece.now) }
{
    let mut text = Vec::new(alloc);
    'bytes: for byte in piece {
        take(alloc, form, *byte, line, &mut text, out)?;
    }
    Ok(piece.len())
}

impl<O: Sink + Drop> ShownSink<O> {
    /// Takes some of the bytes.
    fn put(&mut self, piece: &[u8]) -> Result<usize, Failed>
        ensures bound { WritesAtMost result piece.now }
        ensures some { IfOk result (λ n. 0 < length piece.now → 0 < n) }
        ensures faults { self.new.faults ≡ self.old.faults }
        ensures past { self.new.past ≡ self.old.past }
    {
        if self.form == Form::Line {
            return self.inner.write(piece);
        }
        take_all(
            self.alloc,
            self.form,
            piece,
            &mut self.line,
            &mut self.inner,
        )
    }
}

impl<O: Sink + Drop> Sink for ShownSink<O> {
    ghost written = { λ s. bytes_of s.past.events };

    ghost faults = { λ s. s.faults };

    fn write(&mut self, piece: &[u8]) -> Result<usize, Failed>
        ensures bound { WritesAtMost result piece.now }
        ensures some { IfOk result (λ n. 0 < length piece.now → 0 < n) }
        ensures bytes { MatchResult result (λ n. bytes_of self.new.past.events ≡ bytes_of self.old.past.events ++ take n piece.now) (λ _. bytes_of self.new.past.events ≡ bytes_of self.old.past.events) }
        ensures cause { HasCause self.old.faults self.new.faults result }
    {
        match self.put(piece) {
            Ok(count) => {
                self.past.note(&[], &piece[..count]);
                Ok(count)
            }
            Err(_) => Err(count_fault(&mut self.faults)),
        }
    }
}
