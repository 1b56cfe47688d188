//! The calls that were made on an object of the environment, as a list that only clauses read.
#![tactic(auto)]

mod past;

pub use past::Past;
