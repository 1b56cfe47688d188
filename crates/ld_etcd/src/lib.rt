//! Records that are keys of etcd, over its JSON gateway.
#![tactic(auto)]

mod caller;
mod cause;
mod etcd;
mod gateway;
mod http;
mod members;
mod memory;
mod place;
mod sockets;

pub use cause::Cause;
pub use etcd::Etcd;
pub use members::Members;
pub use memory::{MemMembers, Reply};
pub use place::{Place, PlaceFault, place_of};
pub use sockets::TcpMembers;
