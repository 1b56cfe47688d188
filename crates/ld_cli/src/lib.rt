//! The top call: a command's words, and what it works on.
#![tactic(auto)]

mod clients;
mod crowding;
mod events;
mod exercise;
mod input;
mod law;
mod lines;
mod looks;
mod one_trim;
mod operating;
mod payloads;
mod perform;
mod replay;
mod serving;
mod status;
mod stopped;
mod top;
mod trims;

pub use law::has_one_reading;
pub use ld_serve::Which;
pub use status::Status;
pub use top::run;
