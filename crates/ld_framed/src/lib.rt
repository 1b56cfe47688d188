//! Frames over a link: bytes are written whole, and messages are taken out of what the present peer sends.
#![tactic(auto)]

mod input;
mod output;
mod unread;

pub use input::next_frame;
pub use output::write_all;
pub use unread::Unread;
