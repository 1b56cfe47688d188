//! The bounds of a node's plain state, and that what it answers is messages. Laws on empty functions.
#![tactic(auto)]

pub mod laws;
