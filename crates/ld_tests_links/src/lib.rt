//! Tests of links, of frames and of what dials nodes.
#![tactic(auto)]

#[cfg(test)]
mod dial;
#[cfg(test)]
mod driver;
#[cfg(test)]
mod files;
#[cfg(test)]
mod link;
#[cfg(test)]
mod real;
#[cfg(test)]
mod wire;
