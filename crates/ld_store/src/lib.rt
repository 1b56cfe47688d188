//! A node's plain state on a disk: each op is durable before it is applied, or it is staged, and all that are staged are made
//! durable together. In memory stands its index, whose payloads are the offsets of their bytes.
#![tactic(auto)]

mod fault;
mod group;
mod laid;
mod open;
mod payloads;
mod read;
mod replay;
mod store;
mod write;

pub use fault::StoreFault;
pub use store::Store;
