//! A node of a cluster as it runs: its disk in memory, and the node over it where one runs.
#![tactic(auto)]

mod fault;
mod format;
mod host;
mod hosts;
mod kept;
mod law;
mod replace;
mod run;
mod state;
mod tick;

pub use host::Host;
pub use hosts::Hosts;
pub use kept::{Formatted, Kept, Status};
pub use law::disk_stands_for_the_node;
pub use ld_node::Ticked;
