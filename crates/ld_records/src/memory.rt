// Records in memory.
ghost use Rattle.std.specs.Prelude.{◌≡◌, ◌⊎◌, map};

use crate::kept::{append_to, read_from};
use crate::{Appended, Records, RecordsFault};
use std::alloc::Global;

/// Records in memory, to which nobody else appends.
#[derive(Drop)]
pub struct MemRecords {
    values: Vec<Vec<u8>>,
}

impl MemRecords {
    ghost use Rattle.ld_records.specs.Memory.{values_in};

    /// Records with these values.
    pub fn new(values: Vec<Vec<u8>>) -> MemRecords
        ensures { values_in result ≡ map (λ v. v.items) values.items }
    {
        MemRecords { values }
    }

    /// The values, in order.
    pub fn values(&self) -> &[Vec<u8>]
        ensures { map (λ v. v.items) result.now ≡ values_in self.now }
    {
        &self.values
    }
}

impl Records for MemRecords {
    ghost use Rattle.ld_records.specs.Memory.{values_in};

    ghost list = { λ r. values_in r };

    ghost sole = { λ _. Unit {0} };

    fn read(
        &mut self,
        _alloc: Global,
        number: u64,
        value: &mut Vec<u8>,
    ) -> Result<bool, RecordsFault> {
        read_from(&self.values, number, value)
    }

    fn append(
        &mut self,
        alloc: Global,
        number: u64,
        value: &[u8],
    ) -> Result<Appended, RecordsFault> {
        append_to(&mut self.values, alloc, number, value)
    }
}
