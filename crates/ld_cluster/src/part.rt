// What is left to do of a calm.
use ld_ids::{LogId, Name, NodeId};

/// A part of a calm.
#[derive(Drop)]
pub(crate) enum Part {
    /// The log's last sequencer retries and tells its released number again.
    Announces(LogId),
    /// All new messages are delivered; then the log's nodes look at the register.
    Settles(LogId),
    /// The node looks at the log in the register, again as long as that cleaned an epoch.
    Ticks(LogId, NodeId),
    /// The reader asks, unless it is finished.
    Reads(Name),
    /// All new messages are delivered.
    Drains,
    /// The reader asks again, if its next number isn't this one any longer.
    Again(Name, u128),
}
