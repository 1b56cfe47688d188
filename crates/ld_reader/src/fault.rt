// Why a reader refuses.
ghost use Rattle.std.specs.Prelude.{◌≡◌};
ghost use Rattle.ld_reader.specs.declared.fault.ReaderFault.TheVariants.{NoMemory as Memory};

use ld_ids::NoMemory;
use ld_register::RegisterFault;
use thiserror::Error;

/// Why a reader refuses a call.
#[derive(Clone, Copy, Debug, PartialEq, Eq, Error)]
pub enum ReaderFault {
    /// The register refused a look so. It is never out of memory.
    #[error("the register refused: {0}")]
    Register(RegisterFault),
    /// There is no memory left.
    #[error("out of memory")]
    NoMemory,
}

impl From<NoMemory> for ReaderFault {
    ghost from_gives = { λ _ e. e ≡ Memory };

    fn from(_: NoMemory) -> ReaderFault {
        ReaderFault::NoMemory
    }
}

impl From<RegisterFault> for ReaderFault {
    ghost use Rattle.ld_reader.specs.Faults.{of_register};

    ghost from_gives = { λ fault e. e ≡ of_register fault };

    fn from(fault: RegisterFault) -> ReaderFault {
        match fault {
            RegisterFault::NoMemory => ReaderFault::NoMemory,
            _ => ReaderFault::Register(fault),
        }
    }
}
