// Why a call over a stopped node's store doesn't do what is asked.
ghost use Rattle.std.specs.Prelude.{◌≡◌};
ghost use Rattle.ld_stopped.specs.declared.stop.Stop.TheVariants.{NoMemory as Memory};

use ld_ids::NoMemory;
use ld_serve::Which;
use ld_wire::WireFault;

/// Why a call over a stopped node's store doesn't do what is asked.
#[derive(Clone, Copy, PartialEq, Eq)]
pub enum Stop {
    /// There is no memory left.
    NoMemory,
    /// A call of the store's disk failed.
    Disk,
    /// A call of the register failed.
    Register,
    /// The output failed.
    Write,
    /// What a node sent begins no frame.
    BadFrame(WireFault),
    /// From this offset on that journal can't be read.
    Damaged(Which, u64),
    /// The store isn't formatted.
    Blank,
    /// A record, or the segment that it needs, would make that journal longer than 2^40 bytes.
    Full(Which),
    /// The log was swapped as often as it may be.
    SwapLimit,
}

impl From<NoMemory> for Stop {
    ghost from_gives = { λ _ stop. stop ≡ Memory };

    fn from(_: NoMemory) -> Stop {
        Stop::NoMemory
    }
}
