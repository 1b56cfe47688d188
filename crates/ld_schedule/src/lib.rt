//! Events, and the lines of a schedule that spell them.
#![tactic(auto)]

mod digits;
mod event;
mod fault;
mod field;
mod form;
mod law;
mod nodes;
mod number;
mod parts;
mod read;
mod words;

pub use digits::parse_payload;
pub use event::{Event, Picture};
pub use fault::LineFault;
pub use law::spells_one_event;
pub use parts::parse_messages;
pub use read::parse_line;
