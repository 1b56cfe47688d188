//! The network: every message that was ever sent, and which of them are new.
#![tactic(auto)]

mod net;

pub use net::Net;
