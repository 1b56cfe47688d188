//! Tests of the parts that the protocol is made of: sets of copies, digests, plans, seals, gaps, recoveries.
#![tactic(auto)]

#[cfg(test)]
mod appender;
#[cfg(test)]
mod clean;
#[cfg(test)]
mod copyset;
#[cfg(test)]
mod digest;
#[cfg(test)]
mod gap;
#[cfg(test)]
mod kept;
#[cfg(test)]
mod msg;
#[cfg(test)]
mod net;
#[cfg(test)]
mod nodes;
#[cfg(test)]
mod plan;
#[cfg(test)]
mod readnode;
#[cfg(test)]
mod rebuild;
#[cfg(test)]
mod recovery;
#[cfg(test)]
mod seal;
#[cfg(test)]
mod window;
