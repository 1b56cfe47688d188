// How a run ends.
ghost use Rattle.std.specs.Prelude.{◌≡◌};
ghost use Rattle.ld_cli.specs.declared.status.Stop.TheVariants.{NoMemory as Memory};
ghost use Rattle.ld_cli.specs.Code.{code};

use ld_ids::Spec;
use ld_serve::Which;
use ld_wire::WireFault;
use std::alloc::{AllocError, AllocFailed};

/// How a run ends.
#[derive(Clone, Copy, Debug, PartialEq, Eq)]
pub enum Status {
    /// The schedule was read to its end, the made one was run, all turns were taken, all that was to be appended is
    /// acknowledged, or the log was read to its last number.
    Ok,
    /// The arguments are no command.
    Usage,
    /// The line, counted from 1, is the first one with a syntax error, and this is the byte offset of it.
    BadSchedule { line: u64, place: u64 },
    /// There is no memory left.
    NoMemory,
    /// The input failed.
    Read,
    /// The output failed.
    Write,
    /// The store's disk failed.
    Disk,
    /// The register failed.
    Register,
    /// The link failed: the node's own, or in all rounds were taken while calls to nodes failed.
    Link,
    /// The bytes of a peer begin no frame.
    BadFrame(WireFault),
    /// The bytes of the store or of the register are no journal, from the offset on.
    Damaged { which: Which, place: u64 },
    /// The store isn't formatted, and isn't to be.
    Blank,
    /// The journal of the store or of the register would be longer than 2^40 bytes.
    JournalFull(Which),
    /// The node was formatted as often as it can be.
    GenLimit,
    /// All rounds were taken, no call to a node failed, and there is something left to do.
    NotDone,
    /// The sequencer of this greater epoch is at work.
    Preempted(u32),
    /// The register holds 64 other logs.
    LogLimit,
    /// The log's epochs are used up.
    EpochLimit,
    /// The offsets of the sequencer's epoch are used up.
    EpochFull,
    /// Nodes of the log have taken others' places as often as they can.
    SwapLimit,
    /// The log would move: of its greatest epoch the register says the first, and the configuration says the second.
    Moves { from: Spec, to: Spec },
}

impl Status {
    /// The status as the number that the program ends with.
    pub fn code(&self) -> u8
        ensures { result ≡ code self.now }
    {
        match self {
            Status::Ok => 0,
            Status::Usage => 2,
            Status::BadSchedule { .. } => 3,
            Status::NoMemory => 4,
            Status::Read => 5,
            Status::Write => 6,
            Status::Disk => 7,
            Status::Register => 8,
            Status::Link => 9,
            Status::BadFrame(_) => 10,
            Status::Damaged { .. } => 11,
            Status::Blank => 12,
            Status::JournalFull(_) => 13,
            Status::GenLimit => 14,
            Status::NotDone => 15,
            Status::Preempted(_) => 16,
            Status::LogLimit => 17,
            Status::EpochLimit => 18,
            Status::EpochFull => 19,
            Status::SwapLimit => 21,
            Status::Moves { .. } => 22,
        }
    }
}

/// Why a replay stops before the end of its input.
#[derive(Clone, Copy)]
pub enum Stop {
    BadSchedule { line: u64, place: u64 },
    NoMemory,
    Read,
    Write,
}

impl From<ld_ids::NoMemory> for Stop {
    ghost from_gives = { λ _ stop. stop ≡ Memory };

    fn from(_: ld_ids::NoMemory) -> Stop {
        Stop::NoMemory
    }
}

impl From<AllocError> for Stop {
    ghost from_gives = { λ _ stop. stop ≡ Memory };

    fn from(_: AllocError) -> Stop {
        Stop::NoMemory
    }
}

impl<T: Drop> From<AllocFailed<T>> for Stop {
    ghost from_gives = { λ _ stop. stop ≡ Memory };

    fn from(_: AllocFailed<T>) -> Stop {
        Stop::NoMemory
    }
}
