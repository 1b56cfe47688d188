//! Messages as frames, in whatever pieces they come.
#![tactic(auto)]

mod actor;
mod asked;
mod decoder;
mod fault;
mod fields;
mod frame;
mod head;
mod laws;
mod page;
mod role;
mod write;

pub use decoder::Decoder;
pub use fault::WireFault;
pub use frame::Frame;
pub use write::encode;
