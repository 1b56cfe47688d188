//! What a node answers to a reader, and to a sequencer that asks for its digest.
#![tactic(auto)]

mod answers;
mod laws;
mod payloads;

pub use answers::{answer, answer_one, digest};
pub use laws::{digests_join, read_pages_join};
