//! A sequencer or a reader that is driven against nodes, a round at a time.
#![tactic(auto)]

mod actor;
mod appends;
mod ended;
mod laws;
mod output;
mod pace;
mod payloads;
mod queue;
mod queues;
mod reads;
mod request;
mod visits;

pub use actor::{Actor, Heard};
pub use appends::{Appended, Appends, Feed, append};
pub use ended::{Ended, Refusal};
pub use laws::drives_may_begin;
pub use output::{write_all, write_lines};
pub use payloads::{InputFault, Payloads};
pub use queues::Queues;
pub use reads::{Reads, read};
pub use request::Request;
pub use visits::{round, tell, visit};
