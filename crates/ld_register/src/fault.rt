// Why a register refuses.
ghost use Rattle.std.specs.Prelude.{◌≡◌};
ghost use Rattle.ld_register.specs.declared.fault.RegisterFault.TheVariants.{NoMemory as Memory};

use ld_ids::{NoMemory, Spec};
use ld_journal::JournalFault;
use std::alloc::AllocError;
use thiserror::Error;

/// Why a register refuses a call.
#[derive(Clone, Copy, Debug, PartialEq, Eq, Error)]
pub enum RegisterFault {
    /// A call of the environment failed. The change is made or not.
    #[error("the register failed")]
    Failed,
    /// From this offset on the register's bytes are no journal of its changes.
    #[error("the register's journal is damaged")]
    Damaged(u64),
    /// As many other logs are held as may be.
    #[error("the register holds no further log")]
    LogLimit,
    /// The last closed epoch is this one, and not the one before that which was to be closed; and what is fixed for the
    /// epoch behind it, as a look at that one shows.
    #[error("the last closed epoch is {lce}")]
    Behind { lce: u32, next: Option<Spec> },
    /// This greatest epoch was handed out, and a short close came from the sequencer of another one.
    #[error("epoch {0} has been handed out")]
    Overtaken(u32),
    /// The greatest epoch has been handed out.
    #[error("no epoch is left")]
    EpochLimit,
    /// The greatest generation has been handed out.
    #[error("no generation is left")]
    GenLimit,
    /// As many swaps of the log were made as may be.
    #[error("no swap is left")]
    SwapLimit,
    /// The register's journal would pass its greatest length.
    #[error("the register's journal is full")]
    Full,
    /// There is no memory left.
    #[error("out of memory")]
    NoMemory,
}

impl From<NoMemory> for RegisterFault {
    ghost from_gives = { λ _ e. e ≡ Memory };

    fn from(_: NoMemory) -> RegisterFault {
        RegisterFault::NoMemory
    }
}

impl From<AllocError> for RegisterFault {
    ghost from_gives = { λ _ e. e ≡ Memory };

    fn from(_: AllocError) -> RegisterFault {
        RegisterFault::NoMemory
    }
}

impl From<JournalFault> for RegisterFault {
    ghost use Rattle.ld_register.specs.Faults.{passed_on};

    ghost from_gives = { λ fault e. e ≡ passed_on fault };

    fn from(fault: JournalFault) -> RegisterFault {
        match fault {
            JournalFault::Disk => RegisterFault::Failed,
            JournalFault::Damaged(place) => RegisterFault::Damaged(place),
            JournalFault::Full => RegisterFault::Full,
            JournalFault::NeedsLoad => RegisterFault::Failed,
            JournalFault::NoMemory => RegisterFault::NoMemory,
        }
    }
}
