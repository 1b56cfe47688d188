// A source whose bytes come in pieces.
ghost use Rattle.std.specs.Prelude.{◌≡◌, ◌++◌, Some, not};
ghost use Rattle.ld_io.specs.Memory.{is_listed};

use crate::Ready;
use ld_io::{Failed, MemSource, Source};

/// A source in memory whose next read would wait each time that as many calls of it were made as one of these numbers says. It
/// doesn't wait for all that: such a read gives what the source in memory gives.
#[derive(Drop)]
pub struct PacedSource {
    inner: MemSource,
    calls: u64,
    waits: Vec<u64>,
}

impl PacedSource {
    /// Over this source, which would wait before the reads of these numbers, from 0 on.
    pub fn new(inner: MemSource, waits: Vec<u64>) -> PacedSource
        ensures over { result.inner ≡ inner }
        ensures calls { result.calls ≡ 0 }
        ensures waits { result.waits ≡ waits }
    {
        PacedSource {
            inner,
            calls: 0,
            waits,
        }
    }
}

impl Source for PacedSource {
    ghost use Rattle.ld_io.specs.Input.{IsSome};
    ghost use Rattle.std.proofs.Common.{refl};

    ghost gave = { λ s. s.inner.gave };

    ghost may_be = { λ s all. all ≡ s.inner.gave ++ s.inner.left };

    ghost known = { λ s. Some (s.inner.gave ++ s.inner.left) };

    ghost faults = { λ s. s.inner.faults };

    ghost begins = { λ s all is. record { rest = s.inner.left; is = is } };

    ghost some = { λ s. record { all = s.inner.gave ++ s.inner.left; may = refl } };

    ghost knows = { λ s. refl };

    fn read(&mut self, buf: &mut [u8]) -> Result<usize, Failed> {
        self.calls = self.calls.saturating_add(1);
        self.inner.read(buf)
    }
}

impl Ready for PacedSource {
    ghost ready = { λ s. Some (not (is_listed s.calls s.waits.items)) };

    fn is_ready(&self) -> bool
        ensures { result ≡ not (is_listed self.now.calls self.now.waits.items) }
    {
        !self.waits.contains(&self.calls)
    }
}
