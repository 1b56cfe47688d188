//! What an operator does with a stopped node: its store is shown, it takes a lost node's place, and it fetches what it lacks.
#![tactic(auto)]

mod lines;
mod mending;
mod opening;
mod output;
mod replacing;
mod showing;
mod stop;

pub use mending::mend_store;
pub use replacing::replace_in;
pub use showing::show_store;
pub use stop::Stop;
