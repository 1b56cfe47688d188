//! A reader that is driven.
#![tactic(auto)]

mod looking;
mod reads;
mod tails;

pub use reads::Reading;
pub use tails::tail;
