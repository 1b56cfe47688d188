//! What the nodes of an epoch tell of it before it is closed.
#![tactic(auto)]

mod added;
mod count;
mod digest;
mod told;

pub use added::{Added, Page};
pub use digest::Digest;
pub use told::Told;
