//! Nodes in memory, reached as over a link.
#![tactic(auto)]

mod answers;
mod handing;
mod knows;
mod links;

pub use links::NodeLinks;
