// Why a sequencer refuses.
ghost use Rattle.std.specs.Prelude.{◌≡◌};
ghost use Rattle.ld_sequencer.specs.declared.fault.SequencerFault.TheVariants.{NoMemory as Memory};

use ld_ids::NoMemory;
use ld_lsn::Lsn;
use ld_register::RegisterFault;
use thiserror::Error;

/// Why a sequencer refuses a call.
#[derive(Clone, Copy, Debug, PartialEq, Eq, Error)]
pub enum SequencerFault {
    /// The payload has so many bytes, more than 65,535.
    #[error("a payload of {0} bytes is too long")]
    PayloadTooLong(usize),
    /// The sequencer of this greater epoch is at work.
    #[error("preempted by epoch {0}")]
    Preempted(u32),
    /// The next offset would be 2^32-1.
    #[error("the epoch is full")]
    EpochFull,
    /// 128 appends wait.
    #[error("the window is full")]
    WindowFull,
    /// A trim goes past this released number.
    #[error("the number is above the released one")]
    PastReleased(Lsn),
    /// The register refused so. It is never out of memory.
    #[error("the register refused: {0}")]
    Register(RegisterFault),
    /// There is no memory left.
    #[error("out of memory")]
    NoMemory,
}

/// Why the close of an epoch isn't known to be made.
#[derive(Clone, Copy, PartialEq, Eq)]
pub enum CloseFault {
    /// A call of the register failed: the close is made or not.
    Failed,
    /// The register's journal has no room for it: it isn't made.
    Full,
}

impl From<NoMemory> for SequencerFault {
    ghost from_gives = { λ _ e. e ≡ Memory };

    fn from(_: NoMemory) -> SequencerFault {
        SequencerFault::NoMemory
    }
}

impl From<RegisterFault> for SequencerFault {
    ghost use Rattle.ld_sequencer.specs.Register.{of_register};

    ghost from_gives = { λ fault e. e ≡ of_register fault };

    fn from(fault: RegisterFault) -> SequencerFault {
        match fault {
            RegisterFault::NoMemory => SequencerFault::NoMemory,
            _ => SequencerFault::Register(fault),
        }
    }
}
