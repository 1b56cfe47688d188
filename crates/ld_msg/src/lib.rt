//! Messages between sequencers, readers and nodes, as plain data.
#![tactic(auto)]

mod entries;
mod msg;
mod outbox;
mod style;

pub use entries::Entries;
pub use msg::{Body, Entry, Msg, Summary, What, Who};
pub use outbox::{Outbox, Replies};
pub use style::Style;
