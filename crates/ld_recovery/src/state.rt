// States of a recovery.
use ld_msg::Summary;

/// Where a recovery stands.
#[derive(Clone, Copy)]
pub enum State {
    /// The nodes are asked for what they have.
    Sealing,
    /// The plan is sent to nodes.
    Storing,
    /// The plan is stored: the epoch is to be closed with this summary, now or at a retry. It is a short close, where all
    /// nodes have answered or are lost, but too few stored the plan, or where the plan says what is lost.
    Closing(Summary, bool),
    /// The epoch is closed with this summary.
    Done(Summary),
    /// The epoch was closed by another sequencer, and so are all up to this one.
    Gone(u32),
    /// The sequencer is preempted by this epoch.
    Preempted(u32),
}

/// What the register answered to a close.
#[derive(Clone, Copy)]
pub enum Answer {
    /// The epoch is closed.
    Taken,
    /// The last closed epoch is this one, and not the one before.
    Behind(u32),
    /// The close is short, and this later epoch was handed out.
    Overtaken(u32),
    /// It refused for another cause, or failed: the close is made or not.
    Failed,
}
