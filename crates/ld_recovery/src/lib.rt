//! The recovery of an epoch: its digest, its plan, the storing of the plan, and the close.
#![tactic(auto)]

mod laws;
mod marks;
mod planned;
mod recovery;
mod send;
mod stage;
mod state;
mod storing;

pub use laws::{closings_are_summaries, recoveries_hold};
pub use planned::Planned;
pub use recovery::Recovery;
pub use send::{Notice, Sender};
pub use state::{Answer, State};
pub use storing::Storing;
