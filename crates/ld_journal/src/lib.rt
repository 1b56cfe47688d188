//! A journal on a disk: bodies of bytes, each on the disk before it is acknowledged.
#![tactic(auto)]

mod fault;
mod format;
mod journal;
mod read;
mod record;

pub use fault::JournalFault;
pub use format::{finished_calls_are_safe, has_one_reading, picture_decides};
pub use journal::Journal;
pub use read::{read_record, settle};
