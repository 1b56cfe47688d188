//! Nodes, logs, names and payloads: the small values that events, lines and messages carry.
#![tactic(auto)]

mod id;
mod memory;
mod name;
mod payload;
mod set;

pub use id::{LogId, NodeId};
pub use memory::NoMemory;
pub use name::Name;
pub use payload::Payload;
pub use set::{NodeSet, Spec, subsets_meet};
