// Why bytes are no frames.
ghost use Rattle.std.specs.Prelude.{◌≡◌};

use ld_ids::NoMemory;
use thiserror::Error;

/// Why bytes were not read as a message.
#[derive(Clone, Copy, Debug, PartialEq, Eq, Error)]
pub enum WireFault {
    /// The length says so many bytes, more than a frame may have.
    #[error("a frame of {0} bytes is too long")]
    TooLong(u32),
    /// There is no such kind of message.
    #[error("there is no message of kind {0}")]
    BadKind(u8),
    /// In a frame of the kind, the first field that is cut off or out of its range begins at the offset, counted from
    /// behind the length; or else the first byte that is too many stands there. A length of 0 is kind 0 and offset 0.
    #[error("no message of kind {0} at byte {1}")]
    BadField(u8, u64),
    /// There is no memory left.
    #[error("out of memory")]
    NoMemory,
}

impl From<NoMemory> for WireFault {
    ghost use Rattle.std.specs.Prelude.{◌≡◌};
    ghost use Rattle.ld_wire.specs.declared.fault.WireFault.TheVariants as faults;

    ghost from_gives = { λ e f. f ≡ faults.NoMemory };

    fn from(_: NoMemory) -> WireFault {
        WireFault::NoMemory
    }
}
