// News of a node.

/// What became of the node that serves the crowd.
#[derive(Clone, Copy, PartialEq, Eq)]
pub enum News {
    /// Its store was blank, and was formatted under this generation.
    Formatted { generation: u32 },
    /// What it had lost of this log with its disk, of the epochs up to this one, is there again.
    Rebuilt { log: u32, epoch: u32 },
    /// This epoch of this log is closed here.
    Closed { log: u32, epoch: u32 },
    /// Its store goes on in a new segment: so many were begun behind the first one.
    Switched { count: u64 },
}
