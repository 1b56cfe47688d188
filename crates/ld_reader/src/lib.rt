//! A reader of a log: it asks the nodes, and gives the items of the log one after the other.
#![tactic(auto)]

mod asked;
mod asks;
mod beginning;
mod course;
mod fault;
mod following;
mod item;
mod laws;
mod missing;
mod place;
mod reader;
mod round;
mod seen;
mod senders;

pub use fault::ReaderFault;
pub use item::{Given, Item, Items};
pub use laws::{items_join, items_stay_within};
pub use reader::Reader;
