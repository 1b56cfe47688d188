//! What every message of a run of the written machine is within: what a frame can carry. Laws on empty functions.
#![tactic(auto)]

pub mod laws;
