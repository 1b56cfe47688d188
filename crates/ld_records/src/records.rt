// Records as their users see them.
ghost use Rattle.std.specs.Prelude.{◌≡◌, ◌≢◌, ◌≤◌, ◌⊎◌, ◌∷◌, ◌++◌, [], ℕ, List, length, true, false, Ok, Err};
ghost use Rattle.ld_records.specs.Growth.{Grows, IsAt, IsTaken};

use std::alloc::{AllocError, Global};
use thiserror::Error;

/// How an append ended.
#[derive(Clone, Copy, Debug, PartialEq, Eq)]
pub enum Appended {
    /// The record of that number has this very value.
    Made,
    /// The record of that number has another value, which it had before.
    Taken,
}

/// Why a call failed.
#[derive(Clone, Copy, Debug, PartialEq, Eq, Error)]
pub enum RecordsFault {
    /// A call of the environment failed. An append is made or not, or will be made as long as no other record has its
    /// number.
    #[error("a call to the records failed")]
    Failed,
    /// What stands in the place of the record of this number is none.
    #[error("record {0} is none")]
    Damaged(u64),
    /// There is no memory left. An append isn't made, and won't be.
    #[error("out of memory")]
    NoMemory,
}

impl From<AllocError> for RecordsFault {
    ghost use Rattle.ld_records.specs.declared.records.RecordsFault.TheVariants.{NoMemory};

    ghost from_gives = { λ _ e. e ≡ NoMemory };

    fn from(_: AllocError) -> RecordsFault {
        RecordsFault::NoMemory
    }
}

/// Records with the numbers 0, 1 and so on, to which others append as well. Each is made once and never changes, and none
/// lacks the one before it.
pub trait Records {
    /// The values of the records that are known to be there, in order. It only grows.
    ghost list: { Self → List (List ℕ) };

    /// Nobody else appends, and no call fails but for memory.
    ghost sole: { Self → Type 0 };

    /// Puts the value of the record of this number in the place of `value`. False where there is no such record when it is
    /// called.
    ///
    /// It refuses with `Failed` where a call of the environment failed, with `Damaged` where what stands there is no record,
    /// and with `NoMemory`.
    fn read(
        &mut self,
        alloc: Global,
        number: u64,
        value: &mut Vec<u8>,
    ) -> Result<bool, RecordsFault>
        ensures grows { Grows (list self.old) (list self.new) }
        ensures found { result ≡ Ok true → IsAt number value.new.items (list self.new) }
        ensures ended { result ≡ Ok false → length (list self.new) ≤ number }
        ensures alone { sole self.old → sole self.new × (list self.new ≡ list self.old) × ((result ≡ Ok true) ⊎ (result ≡ Ok false) ⊎ (result ≡ Err RecordsFault.NoMemory)) };

    /// Makes the record of this number with this value, where none has the number. Where one has it, the answer says whether
    /// its value is this one, as after an earlier call of the same number and value whose answer was lost.
    ///
    /// It refuses with `Failed` where a call of the environment failed or where the record before it isn't there, and with
    /// `NoMemory`.
    fn append(&mut self, alloc: Global, number: u64, value: &[u8]) -> Result<Appended, RecordsFault>
        ensures grows { Grows (list self.old) (list self.new) }
        ensures made { result ≡ Ok Appended.Made → IsAt number value.now (list self.new) }
        ensures taken { result ≡ Ok Appended.Taken → IsTaken number value.now (list self.new) }
        ensures whole { (place : ℕ) → result ≢ Err (RecordsFault.Damaged place) }
        ensures alone { sole self.old → number ≡ length (list self.old) → sole self.new × (((result ≡ Ok Appended.Made) × (list self.new ≡ list self.old ++ value.now ∷ []))
            ⊎ ((result ≡ Err RecordsFault.NoMemory) × (list self.new ≡ list self.old))) };
}
