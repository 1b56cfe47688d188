//! Tests of what is written to disks: journals, ops, segments, stores and registers.
#![tactic(auto)]

#[cfg(test)]
mod disk;
#[cfg(test)]
mod io;
#[cfg(test)]
mod journal;
#[cfg(test)]
mod layout;
#[cfg(test)]
mod op;
#[cfg(test)]
mod register;
#[cfg(test)]
mod segment;
#[cfg(test)]
mod store;
