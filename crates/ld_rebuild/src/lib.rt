//! How a node that was wiped refills what it lost.
#![tactic(auto)]

mod asking;
mod missing;
mod pages;

pub use asking::asks;
pub use missing::{is_full, lowest_unclean};
pub use pages::on_page;
