//! Where bytes come from and go to, with the faults of both counted, and what the calls of the environment answer.
#![tactic(auto)]

ghost use Rattle.std.specs.Prelude.{◌≡◌, ◌-◌, ◌<◌, ◌^◌, ◌++◌, List, ℕ, length, take, Option, MatchResult, IfOk, OnOk, IfSome};
ghost use Rattle.std.specs.Io.{ReadsAtMost, WritesAtMost};
ghost use Rattle.std.specs.Io.KnownBytes.{ReadConsumes};
ghost use Rattle.ld_io.specs.Causes.{HasCause, Counts};
ghost use Rattle.ld_io.specs.Input.{Front, IsSome, left_in};

mod fault;
mod memory;

pub use fault::{Failed, NoMemory};
pub use memory::{MemSink, MemSource};

/// Where bytes come from. A call fails only where the source's own count of faults rose in it.
pub trait Source {
    /// The bytes that were given so far, fewer than 2^63.
    ghost gave: { Self → List ℕ };

    /// The whole input, from its first byte on, may be these bytes. Of a source that knows what comes they are one
    /// list; of any other, all that begin with what was given, and none longer once the end was told.
    ghost may_be: { Self → List ℕ → Type 0 };

    /// The whole input, where it is known before its end.
    ghost known: { Self → Option (List ℕ) };

    /// How often a read has failed, up to the greatest 64-bit number.
    ghost faults: { Self → ℕ };

    /// Takes the next bytes of what is left, and says how many. None for a buffer that isn't empty is the end. A
    /// source that has given 2^63-1 bytes fails. A failed call takes nothing.
    fn read(&mut self, buf: &mut [u8]) -> Result<usize, Failed>
        ensures bound { ReadsAtMost result buf.new }
        ensures bytes { (all : List ℕ) → may_be self.new all → may_be self.old all × ReadConsumes (left_in all (gave self.old)) (left_in all (gave self.new)) result buf.new }
        ensures steady { known self.new ≡ known self.old }
        ensures gives { MatchResult result (λ n. gave self.new ≡ gave self.old ++ take n buf.new) (λ _. gave self.new ≡ gave self.old) }
        ensures given { MatchResult result (λ n. Counts (length (gave self.old)) (length (gave self.new)) n) (λ _. gave self.new ≡ gave self.old) }
        ensures most { OnOk result (length (gave self.old) < 2 ^ 63 - 1) }
        ensures cause { HasCause (faults self.old) (faults self.new) result };

    /// It begins with what was given.
    ghost begins: { (source : Self) (all : List ℕ) → may_be source all → Front (gave source) all };

    /// It may be something.
    ghost some: { (source : Self) → IsSome (may_be source) };

    /// Where it is known it is that one.
    ghost knows: { (source : Self) → IfSome (known source) (may_be source) };
}

/// Where bytes go. A call fails only where the sink's own count of faults rose in it.
pub trait Sink {
    /// The bytes that were taken so far.
    ghost written: { Self → List ℕ };

    /// How often a write has failed, up to the greatest 64-bit number.
    ghost faults: { Self → ℕ };

    /// Appends some of the bytes from the front, and says how many. To take none of a piece that isn't empty is a
    /// fault. A failed call appends nothing.
    fn write(&mut self, piece: &[u8]) -> Result<usize, Failed>
        ensures bound { WritesAtMost result piece.now }
        ensures some { IfOk result (λ n. 0 < length piece.now → 0 < n) }
        ensures bytes { MatchResult result (λ n. written self.new ≡ written self.old ++ take n piece.now) (λ _. written self.new ≡ written self.old) }
        ensures cause { HasCause (faults self.old) (faults self.new) result };
}
