//! A node: what it makes of messages, and what its store keeps first.
#![tactic(auto)]

mod epochs;
mod fault;
mod format;
mod handled;
mod keep;
mod known;
mod msgs;
mod node;
mod register;
mod replace;
mod settled;
mod tick;

pub use fault::NodeFault;
pub use node::Node;
pub use tick::Ticked;
