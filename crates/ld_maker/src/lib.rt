//! The made schedule: a configuration, seven first events, and then events that are drawn from a seed, one at a time;
//! and the summary of the lines of its run.
#![tactic(auto)]

mod begin;
mod draw;
mod event;
mod maker;
mod named;
mod summary;
mod tally;

pub use begin::{configuration, first_events};
pub use maker::Maker;
pub use summary::summary_line;
pub use tally::Tally;
