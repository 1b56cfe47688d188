//! The bounds of what a sequencer holds, and that what it sends from there is messages. Laws on empty functions.
#![tactic(auto)]

pub mod laws;
