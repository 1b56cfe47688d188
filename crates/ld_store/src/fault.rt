// Why a store refuses.
use ld_journal::JournalFault;
use ld_op::OpFault;
use std::alloc::AllocError;
use thiserror::Error;

/// Why a store refuses a call.
#[derive(Clone, Copy, Debug, PartialEq, Eq, Error)]
pub enum StoreFault {
    /// A call of the disk failed. The store has to be loaded again.
    #[error("the disk failed")]
    Disk,
    /// The record whose gate is at this offset is cut short by the disk's end, or its body is no record that may stand there.
    #[error("the store is damaged")]
    Damaged(u64),
    /// The journal would pass its greatest length.
    #[error("the store is full")]
    Full,
    /// An earlier call answered `Disk`.
    #[error("the store has to be loaded again")]
    NeedsLoad,
    /// There is no memory left.
    #[error("out of memory")]
    NoMemory,
}

impl From<ld_ids::NoMemory> for StoreFault {
    ghost use Rattle.std.specs.Prelude.{◌≡◌};
    ghost use Rattle.ld_store.specs.declared.fault.StoreFault.TheVariants as faults;

    ghost from_gives = { λ _ e. e ≡ faults.NoMemory };

    fn from(_: ld_ids::NoMemory) -> StoreFault {
        StoreFault::NoMemory
    }
}

impl From<ld_io::NoMemory> for StoreFault {
    ghost use Rattle.std.specs.Prelude.{◌≡◌};
    ghost use Rattle.ld_store.specs.declared.fault.StoreFault.TheVariants as faults;

    ghost from_gives = { λ _ e. e ≡ faults.NoMemory };

    fn from(_: ld_io::NoMemory) -> StoreFault {
        StoreFault::NoMemory
    }
}

impl From<ld_io::Failed> for StoreFault {
    ghost use Rattle.std.specs.Prelude.{◌≡◌};
    ghost use Rattle.ld_store.specs.declared.fault.StoreFault.TheVariants as faults;

    ghost from_gives = { λ _ e. e ≡ faults.Disk };

    fn from(_: ld_io::Failed) -> StoreFault {
        StoreFault::Disk
    }
}

impl From<JournalFault> for StoreFault {
    ghost use Rattle.std.specs.Prelude.{◌≡◌};
    ghost use Rattle.ld_store.specs.Faults.{passed_on};

    ghost from_gives = { λ fault e. e ≡ passed_on fault };

    fn from(fault: JournalFault) -> StoreFault {
        match fault {
            JournalFault::Disk => StoreFault::Disk,
            JournalFault::Damaged(place) => StoreFault::Damaged(place),
            JournalFault::Full => StoreFault::Full,
            JournalFault::NeedsLoad => StoreFault::NeedsLoad,
            JournalFault::NoMemory => StoreFault::NoMemory,
        }
    }
}
