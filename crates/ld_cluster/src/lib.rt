//! A cluster: nodes on their disks, a register, sequencers, readers and all messages between them, event by event.
#![tactic(auto)]

mod agenda;
mod calls;
mod calm;
mod cluster;
mod copy;
mod deliver;
mod disks;
mod finish;
mod flow;
mod formats;
mod kinds;
mod law;
mod lines;
mod lookup;
mod nodes;
mod part;
mod past;
mod sets;
mod specs;
mod swaps;
mod take;
mod ticks;

pub use cluster::Cluster;
pub use law::bytes_stand_for_the_state;
