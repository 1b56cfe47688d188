//! Lines of a transcript, and their text.
#![tactic(auto)]

mod line;
mod lines;
mod parts;
mod shapes;
mod text;

pub use line::{Actor, GapKind, Kind, Line};
pub use lines::Lines;
pub use text::write;
