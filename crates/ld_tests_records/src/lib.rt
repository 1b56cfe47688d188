//! Tests of records that several programs append to, and of a register over them.
#![tactic(auto)]

#[cfg(test)]
mod etcd;
#[cfg(test)]
mod place;
#[cfg(test)]
mod shared;
