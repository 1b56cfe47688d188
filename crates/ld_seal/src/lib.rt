//! What a node makes of a store, and of an ask for a digest.
#![tactic(auto)]

mod decision;

pub use decision::{Decision, on_digest, on_store};
