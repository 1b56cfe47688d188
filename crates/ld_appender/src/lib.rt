//! An append that waits for its nodes.
#![tactic(auto)]

mod pending;

pub use pending::{Pending, Progress};
