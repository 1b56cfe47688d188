// A source that can show the line that was read last.
ghost use Rattle.std.specs.Prelude.{◌≡◌};

use ld_io::{Failed, Source};
use ld_ready::Ready;
use std::alloc::{AllocError, Global};

/// A source over another one that keeps the line in which its last read began, and what was read since. It gives what
/// the other one gives. Where there is no memory to keep a line in, that line is not shown.
#[derive(Drop)]
pub struct Recent<S: Source + Drop> {
    inner: S,
    held: Vec<u8>,
    first: u64,
}

impl<S: Source + Drop> Recent<S> {
    /// Over this source, at the first line.
    pub fn new(alloc: Global, inner: S) -> Recent<S>
        ensures over { result.inner ≡ inner }
    {
        Recent {
            inner,
            held: Vec::new(alloc),
            first: 1,
        }
    }

    /// The line of this number, counted from 1, without the byte that ends it; none where it isn't kept.
    pub fn line(&self, number: u64) -> Option<&[u8]> {
        let mut at = self.first;
        for line in self.held.split(|byte| *byte == b'\n') {
            if at == number {
                return Some(line);
            }
            at = at.saturating_add(1);
        }
        None
    }

    /// Whether the line of this number is kept, and was read with the byte that ends it.
    pub fn is_ended(&self, number: u64) -> bool {
        let mut at = self.first;
        for byte in self.held.iter() {
            if *byte == b'\n' {
                if at == number {
                    return true;
                }
                at = at.saturating_add(1);
            }
        }
        false
    }
}

/// Lets the whole lines go, and counts them.
fn let_go(held: &mut Vec<u8>, first: &mut u64) {
    let mut keep = 0;
    let mut lines = 0u64;
    for (at, byte) in held.iter().enumerate() {
        if *byte == b'\n' {
            keep = at + 1;
            lines = lines.saturating_add(1);
        }
    }
    held.drain(..keep.min(held.len()));
    *first = first.saturating_add(lines);
}

/// Keeps the bytes behind those that are held.
fn keep(held: &mut Vec<u8>, bytes: &[u8]) -> Result<(), AllocError> {
    held.extend_from_slice(bytes)?;
    Ok(())
}

impl<S: Source + Drop> Source for Recent<S> {
    ghost gave = { λ s. S.gave s.inner };

    ghost may_be = { λ s all. S.may_be s.inner all };

    ghost known = { λ s. S.known s.inner };

    ghost faults = { λ s. S.faults s.inner };

    ghost begins = { λ s all may. S.begins s.inner all may };

    ghost some = { λ s. S.some s.inner };

    ghost knows = { λ s. S.knows s.inner };

    fn read(&mut self, buf: &mut [u8]) -> Result<usize, Failed> {
        let count = self.inner.read(buf)?;
        let_go(&mut self.held, &mut self.first);
        if let Some(bytes) = buf.get(..count) {
            if keep(&mut self.held, bytes).is_err() {
                self.first = u64::MAX;
            }
        }
        Ok(count)
    }
}

impl<S: Ready + Drop> Ready for Recent<S> {
    ghost ready = { λ s. S.ready s.inner };

    fn is_ready(&self) -> bool {
        self.inner.is_ready()
    }
}
