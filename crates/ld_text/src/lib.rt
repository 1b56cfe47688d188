//! Payloads as text for a person: a line is a payload, and the other way round.
#![tactic(auto)]

mod fault;
mod reading;
mod shown;
mod sink;
mod source;
mod spelling;

pub use fault::TextFault;
pub use reading::payload_of;
pub use shown::Form;
pub use sink::ShownSink;
pub use source::TextSource;
pub use spelling::spell;
