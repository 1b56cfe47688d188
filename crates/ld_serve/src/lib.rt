//! Serving: a node is opened on its disk, peers are taken one after the other or many at once, and each of their frames is
//! one step of the node and its answers.
#![tactic(auto)]

mod answer;
mod chats;
mod crowd;
mod group;
mod input;
mod look;
mod many;
mod news;
mod opening;
mod peers;
mod stop;
mod turn;
mod whole;

pub use crowd::serve_crowd;
pub use many::serve_many;
pub use opening::open;
pub use peers::serve_peers;
pub use stop::{Stop, Which};
pub use whole::serve;
