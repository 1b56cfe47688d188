//! The ops of a node's journal, and the records that they stand in.
#![tactic(auto)]

mod based;
mod carries;
mod decode;
mod draft;
mod draft_message;
mod encode;
mod ends;
mod entries;
mod fault;
mod index;
mod index_read;
mod known_good;
mod log;
mod logs;
mod missing;
mod op;
mod page;
mod plain;
mod pointed;
mod pointers;
mod record;
mod room;
mod sizes;
mod summaries;
mod version;

pub use based::bases_are_read;
pub use carries::Carries;
pub use draft::{DraftBody, Said};
pub use draft_message::Draft;
pub use fault::OpFault;
pub use index::{
    answers_leave_payloads, indexes_are_read, ops_leave_payloads, placed_ops_are_read,
};
pub use op::{Epochs, Op};
pub use page::Excerpt;
pub use plain::Plain;
pub use pointed::{Place, Pointed};
pub use pointers::Pointers;
pub use record::Record;
pub use version::Version;
