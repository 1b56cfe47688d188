//! Tests of storage nodes, of their hosts and of the loop that serves one.
#![tactic(auto)]

#[cfg(test)]
mod host;
#[cfg(test)]
mod news;
#[cfg(test)]
mod node;
#[cfg(test)]
mod serve;
