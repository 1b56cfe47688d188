// How a drive ends.
ghost use Rattle.std.specs.Prelude.{◌≡◌};
ghost use Rattle.ld_rounds.specs.declared.ended.Ended.TheVariants.{NoMemory as Memory};

use ld_ids::NoMemory;
use ld_wire::WireFault;
use std::alloc::{AllocError, AllocFailed};

/// Why a register refuses a sequencer.
#[derive(Clone, Copy)]
pub enum Refusal {
    /// A call of the environment failed.
    Failed,
    /// The register's journal would pass its greatest length.
    Full,
    /// From this place on the register's bytes are no journal of its changes.
    Damaged(u64),
}

/// How the drive of a sequencer or a reader ends.
#[derive(Clone, Copy)]
pub enum Ended {
    /// It is done.
    Done,
    /// All rounds were taken, and it isn't done.
    Rounds,
    /// The sequencer was preempted by the one of this epoch.
    Preempted(u32),
    /// The register holds as many other logs as may be.
    LogLimit,
    /// The log's epochs are used up.
    EpochLimit,
    /// The places of the sequencer's epoch are used up.
    EpochFull,
    /// The register refused otherwise.
    Register(Refusal),
    /// What a node sent begins no frame.
    BadFrame(WireFault),
    /// The line of the input, counted from 1, is the first one with a syntax error, and this is the byte offset of it.
    BadLine { line: u64, place: u64 },
    /// The input failed.
    Read,
    /// The output failed.
    Write,
    /// There is no memory left.
    NoMemory,
}

impl From<NoMemory> for Ended {
    ghost from_gives = { λ _ ended. ended ≡ Memory };

    fn from(_: NoMemory) -> Ended {
        Ended::NoMemory
    }
}

impl From<AllocError> for Ended {
    ghost from_gives = { λ _ ended. ended ≡ Memory };

    fn from(_: AllocError) -> Ended {
        Ended::NoMemory
    }
}

impl<T: Drop> From<AllocFailed<T>> for Ended {
    ghost from_gives = { λ _ ended. ended ≡ Memory };

    fn from(_: AllocFailed<T>) -> Ended {
        Ended::NoMemory
    }
}
