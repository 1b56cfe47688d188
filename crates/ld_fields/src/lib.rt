//! Numbers, summaries and entries as fields of bytes, the highest byte first: how they are written, and how bytes are judged.
#![tactic(auto)]

mod beside;
mod bounds;
mod fault;
mod field;
mod item;
mod list;
mod write;

pub use beside::Beside;
pub use bounds::{GREATEST_EPOCH, GREATEST_LNG};
pub use fault::FieldFault;
pub use field::{check, read_number, read_u8, read_u16, read_u32, read_u64};
pub use item::{
    is_number, is_tag, may_stand, read_entry, read_flag, read_log, read_older_summary,
    read_summary, read_what,
};
pub use list::read_entries;
pub use write::{
    put_entries, put_entry, put_flag, put_number, put_summary, put_u8, put_u16, put_u32, put_what,
};
