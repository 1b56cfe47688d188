//! The window of an epoch's numbers: which of them are stored, and up to which one all are.
#![tactic(auto)]

mod window;

pub use window::{Full, Window};
