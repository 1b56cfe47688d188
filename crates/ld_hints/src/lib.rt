//! What a person is told of a line of the input with a syntax error: the line, the offset, and how the events that it may
//! have meant are spelt.
#![tactic(auto)]

mod forms;
mod recent;
mod shown;

pub use forms::{FORMS, Form, is_meant};
pub use recent::Recent;
pub use shown::explain;
