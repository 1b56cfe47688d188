//! What a reader is given next, by the answers that it holds.
#![tactic(auto)]

mod answer;
mod held;
mod lost;
mod table;
mod verdict;

pub use answer::{Answer, round_of};
pub use held::{Held, Replaced};
pub use lost::Lost;
pub use table::decide;
pub use verdict::{Item, Verdict};
