// Ops.
ghost use Rattle.std.specs.Prelude.{◌≡◌};
ghost use Rattle.ld_op.specs.Room.{log_named};

use ld_ids::LogId;
use ld_lsn::Lsn;
use ld_msg::{Entries, Entry, Summary};
use std::marker::Model;

/// The epoch of each log that has one, the logs rising.
#[derive(Drop)]
pub struct Epochs {
    list: Vec<(LogId, u32)>,
}

impl Model for Epochs {
    ghost use Rattle.std.specs.Prelude.{List, ℕ};

    ghost Value = { List (ℕ × ℕ) };

    ghost view = { λ epochs. epochs.list.items };
}

impl Epochs {
    /// These, the logs rising.
    pub fn new(list: Vec<(LogId, u32)>) -> Epochs
        ensures { result ≡ list.items }
    {
        Epochs { list }
    }

    /// All of them, in order.
    pub fn as_slice(&self) -> &[(LogId, u32)]
        ensures { result.now ≡ self.now }
    {
        &self.list
    }
}

/// A change of a node's plain state, as one record of its journal.
#[derive(Drop)]
pub enum Op {
    /// The store is formatted under a generation; what the logs' epochs held so far is lost here.
    Format {
        generation: u32,
        epochs: Epochs,
    },
    /// A store was accepted.
    Accept {
        log: LogId,
        lng: u32,
        entry: Entry,
    },
    /// The node is sealed by an epoch.
    Seal {
        log: LogId,
        ballot: u32,
    },
    /// An epoch is closed, and clean here.
    Clean {
        log: LogId,
        epoch: u32,
        summary: Summary,
    },
    /// All up to a number is trimmed.
    Trim {
        log: LogId,
        trim: Lsn,
    },
    /// Entries of closed epochs that were lost here.
    Refill {
        log: LogId,
        entries: Entries,
    },
    /// Nothing is missing any more.
    Refilled {
        log: LogId,
    },
}

impl Op {
    /// The log that the op changes. A format changes all.
    pub fn log(&self) -> Option<LogId>
        ensures { result ≡ log_named self.now }
    {
        match self {
            Op::Format { .. } => None,
            Op::Accept { log, .. } => Some(*log),
            Op::Seal { log, .. } => Some(*log),
            Op::Clean { log, .. } => Some(*log),
            Op::Trim { log, .. } => Some(*log),
            Op::Refill { log, .. } => Some(*log),
            Op::Refilled { log } => Some(*log),
        }
    }
}
