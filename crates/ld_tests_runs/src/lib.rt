//! Tests of clusters and of commands.
#![tactic(auto)]

#[cfg(test)]
mod cli;
#[cfg(test)]
mod cluster;
