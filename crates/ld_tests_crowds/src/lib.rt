//! Tests of crowds.
#![tactic(auto)]

#[cfg(test)]
mod memory;
#[cfg(test)]
mod sockets;
