//! A stopped node learns which epochs are closed and fetches what it lost from the other nodes.
#![tactic(auto)]

mod carrying;
mod fetching;
mod laws;
mod lines;
mod mending;
mod output;
mod standing;
mod stop;
mod ticking;

pub use laws::mended_is_not_lost;
pub use mending::mend;
pub use stop::Stop;
