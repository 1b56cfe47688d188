//! The copyset: the nodes that a number is sent to.
#![tactic(auto)]

mod choice;
mod nodes;

pub use choice::{Choice, TooFew, choose, choose_for, sender};
pub use nodes::NodeList;
