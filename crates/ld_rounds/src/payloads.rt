// Where requests come from.
ghost use Rattle.std.specs.Prelude.{◌≡◌, ◌≤◌, ℕ, Bool, Option, IfErr, IfSome};
ghost use Rattle.ld_rounds.specs.Input.{Input, Gives, IsReadFault};

use crate::Request;
use ld_ids::NoMemory;
use std::alloc::Global;

/// Why no request is given.
#[derive(Clone, Copy)]
pub enum InputFault {
    /// The line, counted from 1, is the first one with a syntax error, and this is the byte offset of it.
    BadLine { line: u64, place: u64 },
    /// A read failed.
    Read,
    /// There is no memory left.
    NoMemory,
}

/// Payloads that are to be appended, and numbers that the log is to be trimmed up to, one after the other.
pub trait Payloads {
    /// What is still to come, where this tells it.
    ghost coming: { Self → Option Input };

    /// How often a read has failed, up to the greatest 64-bit number.
    ghost faults: { Self → ℕ };

    /// Which one this is, so that one that was lent is known to have come back. Each call keeps it.
    ghost identity: { Self → ℕ };

    /// Whether the next request can be taken without a wait, where this tells it.
    ghost ready: { Self → Option Bool };

    /// Takes the next request, and waits for it; none is at the end of the input. It is refused with `BadLine` where the next line has a syntax
    /// error, with `Read` where a read failed, and when out of memory.
    fn next(&mut self, alloc: Global) -> Result<Option<Request>, InputFault>
        ensures gives { Gives (coming self.old) (coming self.new) result }
        ensures later { faults self.old ≤ faults self.new }
        ensures itself { identity self.new ≡ identity self.old }
        ensures cause { IfErr result (IsReadFault (faults self.old) (faults self.new)) };

    /// Whether the next request, or a part of it, has come, or the input has ended or failed.
    fn is_ready(&self) -> bool
        ensures { IfSome (ready self.now) (λ is_ready. result ≡ is_ready) };
}
