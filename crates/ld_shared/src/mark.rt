// What stands before a body, and tells whose record it is.
ghost use Rattle.std.specs.Prelude.{◌≡◌, ◌++◌, ◌+◌, ◌-◌, ◌^◌, min, IfOk};
ghost use Rattle.std.specs.Int.{w64, to_be_bytes};
ghost use Rattle.ld_shared.specs.Bodies.{owner, IsValueOf};

use std::alloc::{AllocError, Global};

/// A program's own mark: two numbers that no other program has, and a count that no two of its values share. So two programs'
/// equal changes are different values.
#[derive(Clone, Copy)]
pub struct Mark {
    high: u64,
    low: u64,
    count: u64,
}

impl Mark {
    /// A mark of these numbers, which are to be random.
    pub fn new(high: u64, low: u64) -> Mark
        ensures { result ≡ record { high = high; low = low; count = 0 } }
    {
        Mark {
            high,
            low,
            count: 0,
        }
    }

    /// The mark of a copy's record of this number, which no program has.
    pub(crate) fn of_copy(number: u64) -> Mark
        ensures { result ≡ record { high = 0; low = 0; count = number } }
    {
        Mark {
            high: 0,
            low: 0,
            count: number,
        }
    }

    /// The value with this body, and the mark with its next count before it: 24 bytes.
    pub fn value(&mut self, alloc: Global, body: &[u8]) -> Result<Vec<u8>, AllocError>
        ensures value { IfOk result (λ v. v.items ≡ to_be_bytes w64 self.old.high ++ (to_be_bytes w64 self.old.low ++ (to_be_bytes w64 self.old.count ++ body.now))) }
        ensures owned { IfOk result (λ v. IsValueOf (owner self.old) body.now v.items) }
        ensures counted { self.new ≡ record self.old { count = min (self.old.count + 1) (2 ^ 64 - 1) } }
    {
        let count = self.count;
        self.count = count.saturating_add(1);
        let mut value = Vec::new(alloc);
        value.extend_from_slice(&self.high.to_be_bytes())?;
        value.extend_from_slice(&self.low.to_be_bytes())?;
        value.extend_from_slice(&count.to_be_bytes())?;
        value.extend_from_slice(body)?;
        Ok(value)
    }
}
