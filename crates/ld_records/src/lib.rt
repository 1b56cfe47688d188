//! Records that several programs append to: each is made once, under its number, and never changes.
#![tactic(auto)]

mod busy;
mod kept;
mod memory;
mod records;

pub use busy::{BusyRecords, Step};
pub use kept::{found_as, read_from, value_at};
pub use memory::MemRecords;
pub use records::{Appended, Records, RecordsFault};
