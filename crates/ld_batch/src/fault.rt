// Why a batch is refused.
ghost use Rattle.std.specs.Prelude.{◌≡◌};
ghost use Rattle.ld_batch.specs.declared.fault.UnpackFault.TheVariants.{NoMemory as Memory};
ghost use Rattle.ld_batch.specs.declared.fault.PushFault.TheVariants.{NoMemory as Room};

use ld_ids::NoMemory;
use std::alloc::AllocError;
use thiserror::Error;

/// Why bytes aren't unpacked.
#[derive(Clone, Copy, Debug, PartialEq, Eq, Error)]
pub enum UnpackFault {
    /// The bytes are no batch. The offset is that of the first byte of the first field that is cut or out of its range, or
    /// else of the first byte that is left over. A message whose bytes are cut is off at its length.
    #[error("no batch from byte {0} on")]
    BadBatch(usize),
    /// There is no memory left.
    #[error("out of memory")]
    NoMemory,
}

impl From<NoMemory> for UnpackFault {
    ghost from_gives = { λ _ e. e ≡ Memory };

    fn from(_: NoMemory) -> UnpackFault {
        UnpackFault::NoMemory
    }
}

impl From<AllocError> for UnpackFault {
    ghost from_gives = { λ _ e. e ≡ Memory };

    fn from(_: AllocError) -> UnpackFault {
        UnpackFault::NoMemory
    }
}

/// Why a batch takes no further message.
#[derive(Clone, Copy, Debug, PartialEq, Eq, Error)]
pub enum PushFault {
    /// The payload would have so many bytes, which are more than 65,535.
    #[error("a payload of {0} bytes is too long")]
    TooLong(usize),
    /// The batch has 1,024 messages.
    #[error("the batch is full")]
    Full,
    /// There is no memory left.
    #[error("out of memory")]
    NoMemory,
}

impl From<NoMemory> for PushFault {
    ghost from_gives = { λ _ e. e ≡ Room };

    fn from(_: NoMemory) -> PushFault {
        PushFault::NoMemory
    }
}
