//! What an operator asks of a log: what its register and its nodes say of it.
#![tactic(auto)]

mod answers;
mod asking;
mod lines;
mod looking;
mod members;
mod moving;
mod nodes;
mod output;
mod parts;
mod registers;
mod status;
mod stop;
mod trims;

pub use moving::moved_from;
pub use registers::register_lines;
pub use status::status_lines;
pub use stop::{LookStop, StatusStop};
pub use trims::tell_trims;
