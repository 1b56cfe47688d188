//! A log's sequencer. It gets its epoch from a register, numbers appends, counts the nodes that stored them, recovers and
//! closes the epochs before its own, and says what is released.
#![tactic(auto)]

mod announce;
mod close;
mod earlier;
mod fault;
mod look;
mod origin;
mod own;
mod recovering;
mod report;
mod round;
mod row;
mod spent;
mod start;
mod whole;

pub use fault::{CloseFault, SequencerFault};
pub use origin::Origin;
pub use own::{Learnt, OwnEpoch};
pub use report::Report;
pub use row::Row;
pub use whole::Sequencer;
