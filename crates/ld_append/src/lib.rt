//! A sequencer that is driven against nodes, with its register.
#![tactic(auto)]

mod acting;
mod drives;
mod refusing;

pub use acting::Acting;
pub use drives::append;
