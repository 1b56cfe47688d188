//! The clients of a run by name: its sequencers and its readers, and what each of their calls writes and sends.
#![tactic(auto)]

mod client;
mod lines;
mod lookup;
mod outcome;
mod places;
mod readers;
mod reads;
mod report;
mod sequencers;

pub use lookup::find_spec;
pub use outcome::Outcome;
pub use readers::Readers;
pub use report::told;
pub use sequencers::Sequencers;
