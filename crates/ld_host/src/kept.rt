// How a host is, and how its calls end.
use ld_register::{Drawn, RegisterFault};

/// How a host is.
#[derive(Clone, Copy, Debug, PartialEq, Eq)]
pub enum Status {
    /// Its store isn't formatted.
    Blank,
    /// A node runs on it.
    Up,
    /// No node runs on it.
    Down,
    /// A call of the disk failed, or the journal would have passed its limit. It has to be stopped, and then loaded.
    Failed,
}

/// How a load, or the keeping of an op, ends.
#[derive(Clone, Copy, Debug, PartialEq, Eq)]
pub enum Kept {
    /// All its calls of the disk were made.
    Written,
    /// A call of the disk failed, and the node stands still.
    Failed,
    /// The disk crashed in a call, and the node is down.
    Crashed,
    /// The journal would pass its limit. Nothing is written, and the node stands still.
    Full,
}

/// How a format ends.
#[derive(Drop)]
pub enum Formatted {
    /// The load before it didn't succeed, and nothing was drawn.
    NotLoaded(Kept),
    /// The register refused to draw, and the store stays blank.
    Refused(RegisterFault),
    /// A generation was drawn, and the format wasn't kept.
    NotKept(Kept),
    /// The format is kept under what was drawn.
    Done(Drawn),
}
