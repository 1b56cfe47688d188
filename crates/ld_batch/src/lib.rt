//! Batches: several messages of a client in one record.
#![tactic(auto)]

mod batch;
mod fault;
mod law;
mod messages;
mod pack;
mod read;

pub use batch::Batch;
pub use fault::{PushFault, UnpackFault};
pub use law::unpacks_what_is_packed;
pub use messages::Messages;
pub use read::unpack;
